//! The words of a command line, and the order that they give.
//!
//! It gives upward: each written form of the table of commands gives its order, and all other words are a
//! faulty command line. The words are read by one simple command of `clap` for each name. It knows no file
//! and nothing of the railway.
#![tactic(auto)]

mod fault;
mod flag;
mod item;
mod matches;
mod order;
mod orders;
mod parser;
mod written;

pub use fault::CliFault;
pub use order::Order;
pub use parser::parse;
