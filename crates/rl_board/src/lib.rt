//! Boards: which train is on each segment, which hold its ends, and how many segments, ends and boxes are taken, kept
//! from move to move.
//!
//! It gives upward: `Board`, which answers a move as a world does and tells what the definitions tell of that world;
//! `board_text`, the board after each move of a report. It knows reports, worlds and the names of a network, and nothing
//! of how trains come to their moves.
#![tactic(auto)]

mod counting;
pub mod laws;
mod moves;
pub mod occupancy;
pub mod peak;
mod segments;
mod text;

pub use laws::one_board_text;
pub use occupancy::Board;
pub use rl_domain::Guard;
pub use text::board_text;
