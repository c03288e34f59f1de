ghost use Rattle.std.specs.Prelude.{◌≡◌, ◌≤◌, ◌∷◌, ◌++◌, ℕ, Some, IfOk, OnOk, length, slice_get, codes, decimal};
ghost use Rattle.rl_base.specs.declared.limits.TheConstants.{MAX_MOVES};
ghost use Rattle.rl_model.specs.declared.moves.Move.{Move};
ghost use Rattle.rl_model.specs.Moves.{guards, AllHold, after, IsMoveOf};
ghost use Rattle.rl_model.specs.Safety.{Guarded, world_after};
ghost use Rattle.rl_model.specs.World.{start};
ghost use Rattle.rl_board.specs.Below.{join_below};
ghost use Rattle.rl_board.specs.Boards.{IsBoard, world_on, occupied_in};
ghost use Rattle.rl_board.specs.BoardText.{count_text, counts_text, after_line, world_at, IsPeak};

use crate::occupancy::Board;
use crate::peak::Peak;
use rl_base::NoMemory;
use rl_model::Move;
use rl_net::Network;
use rl_text::Out;

/// The line of the first move.
const FIRST_MOVE: u32 = 3;

#[tactic(auto, unfolding(crate::specs::BoardText::count_text))]
/// Appends a count behind its word.
fn put_count(out: &mut Out, word: &[u8], n: u32) -> Result<(), NoMemory>
    ensures { OnOk result (out.new ≡ out.old ++ count_text word.now n) }
{
    out.word(word)?;
    out.count(n)?;
    Ok(())
}

#[tactic(auto, unfolding(crate::specs::BoardText::counts_text))]
/// Appends the three counts, and ends the line.
pub(crate) fn put_counts(out: &mut Out, net: &Network, board: &Board) -> Result<(), NoMemory>
    requires { IsBoard net.now board.now }
    ensures { OnOk result (out.new ≡ out.old ++ counts_text net.now (world_on net.now board.now)) }
{
    let _net = net;
    put_count(out, b"occupied", board.occupied())?;
    put_count(out, b"reserved", board.reserved())?;
    put_count(out, b"locked", board.locked())?;
    out.text(b"\n")?;
    Ok(())
}

/// Makes a move whose guards hold.
fn step(net: &Network, board: &mut Board, m: Move)
    requires board { IsBoard net.now board.old }
    requires of { IsMoveOf net.now m }
    requires hold { AllHold (guards net.now (world_on net.now board.old) m) }
    ensures board { IsBoard net.now board.new }
    ensures changed { world_on net.now board.new ≡ after (world_on net.now board.old) m }
{
    if board.apply(net, &m).is_err() {
        unreachable!()
    }
}

/// Appends the line of the counts after the move on that line of the report.
fn put_after(out: &mut Out, net: &Network, board: &Board, line: u32) -> Result<(), NoMemory>
    requires { IsBoard net.now board.now }
    ensures { OnOk result (out.new ≡ out.old ++ codes "after" ++ 32 ∷ decimal line
        ++ counts_text net.now (world_on net.now board.now)) }
{
    out.text(b"after")?;
    out.count(line)?;
    put_counts(out, net, board)
}

/// Makes the moves of a guarded list and appends the line of each, from the start of the network on, and finds the peak.
pub(crate) fn put_moves(
    out: &mut Out,
    net: &Network,
    moves: &[Move],
    board: &mut Board,
) -> Result<Peak, NoMemory>
    requires of { (k : ℕ) (m : Move) → slice_get moves.now k ≡ Some m → IsMoveOf net.now m }
    requires few { length moves.now ≤ MAX_MOVES }
    requires guarded { Guarded net.now moves.now }
    requires board { IsBoard net.now board.old }
    requires start { world_on net.now board.old ≡ start net.now }
    ensures text { OnOk result (out.new ≡ out.old ++ join_below (after_line net.now moves.now) (length moves.now)) }
    ensures board { OnOk result (IsBoard net.now board.new) }
    ensures world { OnOk result (world_on net.now board.new ≡ world_after net.now moves.now) }
    ensures peak { IfOk result (λ peak. IsPeak (λ k. occupied_in net.now (world_at net.now moves.now k))
        (length moves.now) peak.occupied peak.place) }
{
    let mut peak = Peak {
        occupied: board.occupied(),
        place: 0,
    };
    for (k, m) in moves.iter().enumerate() {
        step(net, board, *m);
        put_after(out, net, board, k as u32 + FIRST_MOVE)?;
        peak = peak.with(board.occupied(), k as u32 + 1);
    }
    Ok(peak)
}
