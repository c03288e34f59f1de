ghost use Rattle.std.specs.Prelude.{◌≡◌, ◌∷◌, ◌++◌, IfSome, OnOk, length, option_map};
ghost use Rattle.rl_model.specs.Network.{IsSegmentOf, IsTrainOf};
ghost use Rattle.rl_board.specs.Below.{join_below};
ghost use Rattle.rl_board.specs.Boards.{IsBoard, world_on};
ghost use Rattle.rl_board.specs.BoardText.{segment_line, train_or_star};

use crate::occupancy::Board;
use rl_base::{NoMemory, SegId, TrainId};
use rl_net::Network;
use rl_text::Out;

/// Appends the name of the train, a star for none.
fn put_train(out: &mut Out, net: &Network, train: Option<TrainId>) -> Result<(), NoMemory>
    requires { IfSome train (IsTrainOf net.now) }
    ensures { OnOk result (out.new ≡ out.old ++ 32 ∷ train_or_star net.now (option_map (λ t. t.0) train)) }
{
    match train {
        Some(t) => out.word(net.train_name(t)),
        None => out.word(b"*"),
    }
}

/// Appends the line of the segment.
fn put_segment(out: &mut Out, net: &Network, board: &Board, s: SegId) -> Result<(), NoMemory>
    requires board { IsBoard net.now board.now }
    requires there { IsSegmentOf net.now s }
    ensures { OnOk result (out.new ≡ out.old ++ segment_line net.now (world_on net.now board.now) s.0) }
{
    let occupant = board.occupant(net, s);
    let (low, high) = board.holders(net, s);
    out.text(b"segment")?;
    out.word(net.seg_name(s))?;
    put_train(out, net, occupant)?;
    put_train(out, net, low)?;
    put_train(out, net, high)?;
    out.text(b"\n")
}

/// Appends the lines of the segments.
pub(crate) fn put_segments(out: &mut Out, net: &Network, board: &Board) -> Result<(), NoMemory>
    requires { IsBoard net.now board.now }
    ensures { OnOk result (out.new ≡ out.old
        ++ join_below (segment_line net.now (world_on net.now board.now)) (length net.now.segments)) }
{
    for s in 0..net.segments() {
        put_segment(out, net, board, SegId(s))?;
    }
    Ok(())
}
