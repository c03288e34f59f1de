ghost use Rattle.rl_model.specs.declared.moves.Move.{Move};
ghost use Rattle.std.specs.Prelude.{◌≡◌, ◌<◌, ◌≤◌, [], ◌∷◌, ◌++◌, IfOk, OnOk, length, flat_map, decimal, slice_get, Some, ℕ};
ghost use Rattle.rl_model.specs.Network.{IsTrainOf, IsSegmentOf, IsBoxOf};
ghost use Rattle.rl_model.specs.Moves.{IsMoveOf};
ghost use Rattle.rl_model.specs.Reports.{IsReportOf};
ghost use Rattle.rl_model.specs.ReportText.{report_text, move_line, outcome_line, outcome_lines, fate_word};

use crate::moves::MoveName;
use rl_base::{BoxId, NoMemory, SegId, Side, TrainId, side_word};
use rl_model::{Fate, Move, Outcome, Report};
use rl_net::Network;
use rl_text::Out;
use std::alloc::Global;

/// How a fate is written.
pub(crate) fn fate_word(fate: Fate) -> &'static [u8]
    ensures { result.now ≡ fate_word fate }
{
    match fate {
        Fate::Arrived => b"arrived",
        Fate::Spent => b"spent",
        Fate::Underway => b"underway",
    }
}

/// Appends the line of points that settle.
fn put_settle(out: &mut Out, net: &Network, b: BoxId, side: Side) -> Result<(), NoMemory>
    requires { IsBoxOf net.now b }
    ensures { OnOk result (out.new ≡ out.old ++ move_line net.now (Move.Settle b side)) }
{
    out.text(MoveName::Settle.word())?;
    out.word(net.box_name(b))?;
    out.word(side_word(side))?;
    out.text(b"\n")
}

/// Appends the line of a move.
fn put_move(out: &mut Out, net: &Network, m: Move) -> Result<(), NoMemory>
    requires { IsMoveOf net.now m }
    ensures { OnOk result (out.new ≡ out.old ++ move_line net.now m) }
{
    match m {
        Move::Reserve { t, s, b } => out.line(
            MoveName::Reserve.word(),
            &[net.train_name(t), net.seg_name(s), net.box_name(b)],
        ),
        Move::Release { t, s, b } => out.line(
            MoveName::Release.word(),
            &[net.train_name(t), net.seg_name(s), net.box_name(b)],
        ),
        Move::Lock { t, b, s, s2 } => out.line(
            MoveName::Lock.word(),
            &[
                net.train_name(t),
                net.box_name(b),
                net.seg_name(s),
                net.seg_name(s2),
            ],
        ),
        Move::Unlock { t, b } => {
            out.line(
                MoveName::Unlock.word(),
                &[net.train_name(t), net.box_name(b)],
            )
        }
        Move::Throw { b } => out.line(MoveName::Throw.word(), &[net.box_name(b)]),
        Move::Settle { b, side } => put_settle(out, net, b, side),
        Move::Enter { t, b, s, s2 } => out.line(
            MoveName::Enter.word(),
            &[
                net.train_name(t),
                net.box_name(b),
                net.seg_name(s),
                net.seg_name(s2),
            ],
        ),
        Move::Leave { t, s } => out.line(
            MoveName::Leave.word(),
            &[net.train_name(t), net.seg_name(s)],
        ),
        Move::Refuse { t, s, b, u } => out.line(
            MoveName::Refuse.word(),
            &[
                net.train_name(t),
                net.seg_name(s),
                net.box_name(b),
                net.train_name(u),
            ],
        ),
        Move::Bar { t, b, u } => out.line(
            MoveName::Bar.word(),
            &[net.train_name(t), net.box_name(b), net.train_name(u)],
        ),
    }
}

/// Appends the line of a train's outcome.
fn put_outcome(out: &mut Out, net: &Network, t: TrainId, outcome: Outcome) -> Result<(), NoMemory>
    requires there { IsTrainOf net.now t }
    ensures { OnOk result (out.new ≡ out.old ++ outcome_line net.now t.0 outcome) }
{
    out.text(b"train")?;
    out.word(net.train_name(t))?;
    out.word(fate_word(outcome.fate))?;
    out.count(outcome.made)?;
    out.count(outcome.refused)?;
    out.text(b"\n")
}

/// Appends the lines of the moves.
fn put_moves(out: &mut Out, net: &Network, moves: &[Move]) -> Result<(), NoMemory>
    requires { (k : ℕ) (m : Move) → slice_get moves.now k ≡ Some m → IsMoveOf net.now m }
    ensures { OnOk result (out.new ≡ out.old ++ flat_map (move_line net.now) moves.now) }
{
    for m in moves {
        put_move(out, net, *m)?;
    }
    Ok(())
}

/// Appends the lines of the trains.
fn put_outcomes(out: &mut Out, net: &Network, outcomes: &[Outcome]) -> Result<(), NoMemory>
    requires { length outcomes.now ≡ length net.now.trains }
    ensures { OnOk result (out.new ≡ out.old ++ outcome_lines net.now 0 outcomes.now) }
{
    for t in 0..net.trains() {
        put_outcome(out, net, TrainId(t), outcomes[t as usize])?;
    }
    Ok(())
}

/// The text of a report of the network.
pub fn report_text(alloc: Global, net: &Network, report: &Report) -> Result<Out, NoMemory>
    requires { IsReportOf net.now report.now }
    ensures { IfOk result (λ out. out ≡ report_text net.now report.now) }
{
    let mut out = Out::new(alloc);
    out.text(b"relis report 1\ntries")?;
    out.count(report.tries)?;
    out.text(b"\n")?;
    put_moves(&mut out, net, report.moves.as_slice())?;
    put_outcomes(&mut out, net, report.outcomes.as_slice())?;
    out.text(b"end\n")?;
    Ok(out)
}
