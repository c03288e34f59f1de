ghost use Rattle.std.specs.Prelude.{◌≡◌, ◌+◌, ◌<◌, ◌≤◌, [], ℕ, List};
ghost use Rattle.std.specs.Prelude.{length, drop, OnOk, OnErr, IfOk, IfErr, ◌↔◌, IsTrue};
ghost use Rattle.rl_text.specs.Lines.{Reading, lines_of, longest_text};
ghost use Rattle.rl_model.specs.declared.moves.Move.{Move};
ghost use Rattle.rl_model.specs.declared.network.NetworkPlan.{NetworkPlan};
ghost use Rattle.rl_model.specs.declared.report.Report.{Report};
ghost use Rattle.rl_model.specs.Network.{IsNetwork};
ghost use Rattle.rl_report.specs.declared.refusal.ReportRefusal.{ReportRefusal};
ghost use Rattle.rl_report.specs.Answers.{ReadsAs, ReadsBack, TooMany, IsFault};
ghost use Rattle.rl_report.specs.Grammar.{most_moves, IsTextOf};
ghost use Rattle.rl_report.specs.Reading.{HasNoMove, HasMoves, HasRead};

use crate::laws::one_reading;
use crate::reader::ReportLines;
use crate::refusal::ReportRefusal;
use rl_base::TrainId;
use rl_base::limits::{MAX_MOVES, MAX_REPORT_BYTES};
use rl_model::{Moves, Outcomes, Report};
use rl_net::Network;
use std::alloc::Global;

/// Reads the lines of the moves, to the first that is none.
fn read_moves(
    alloc: Global,
    net: &Network,
    lines: &mut ReportLines<'_>,
) -> Result<Moves, ReportRefusal>
    ensures ok { IfOk result (λ moves. (text : List ℕ) → HasMoves net.now text [] lines.old
        → HasMoves net.now text moves lines.new) }
    ensures few { IfOk result (λ moves. length moves ≤ most_moves) }
    ensures none { OnOk result (HasNoMove net.now lines.new.left) }
    ensures err { IfErr result (TooMany net.now lines.old) }
{
    let mut moves = Moves::new(alloc);
    while let Some(m) = lines.next_move(net) {
        if moves.len() == MAX_MOVES {
            return Err(ReportRefusal::Long);
        }
        moves.push(m)?;
    }
    Ok(moves)
}

/// Reads the lines of the trains, where those of the moves were read.
fn read_outcomes(
    alloc: Global,
    net: &Network,
    lines: &mut ReportLines<'_>,
) -> Result<Outcomes, ReportRefusal>
    ensures ok { IfOk result (λ outcomes. (text : List ℕ) (report : Report)
        → HasRead net.now text report lines.old → report.outcomes ≡ []
        → HasRead net.now text (record report { outcomes = outcomes }) lines.new) }
    ensures all { IfOk result (λ outcomes. length outcomes ≡ length net.now.trains) }
    ensures none { IfOk result (λ outcomes. outcomes ≡ [] → lines.new ≡ lines.old) }
    ensures err { IfErr result (λ e. (text : List ℕ) (report : Report)
        → HasRead net.now text report lines.old → report.outcomes ≡ [] → HasNoMove net.now lines.old.left
        → IsFault net.now text e) }
{
    let mut outcomes = Outcomes::new(alloc);
    for k in 0..net.trains() {
        match lines.next_outcome(net, TrainId(k)) {
            Ok(o) => outcomes.push(o)?,
            Err(n) => return Err(ReportRefusal::Line(n)),
        }
    }
    Ok(outcomes)
}

/// Reads what follows the moves.
fn read_rest(
    alloc: Global,
    net: &Network,
    tries: u32,
    moves: Moves,
    lines: &mut ReportLines<'_>,
) -> Result<Report, ReportRefusal>
    ensures ok { IfOk result (λ report. (text : List ℕ)
        → HasRead net.now text (record { tries = tries; moves = moves; outcomes = [] }) lines.old
        → IsTextOf net.now report text) }
    ensures err { IfErr result (λ e. (text : List ℕ)
        → HasRead net.now text (record { tries = tries; moves = moves; outcomes = [] }) lines.old
        → HasNoMove net.now lines.old.left
        → IsFault net.now text e) }
{
    let outcomes = read_outcomes(alloc, net, lines)?;
    match lines.end(net) {
        Ok(()) => Ok(Report {
            tries,
            moves,
            outcomes,
        }),
        Err(n) => Err(ReportRefusal::Line(n)),
    }
}

fn read_text(alloc: Global, net: &Network, text: &[u8]) -> Result<Report, ReportRefusal>
    ensures { ReadsAs net.now text.now result }
{
    // What acceptance gave, for the proof.
    net.accepted();
    if text.len() > MAX_REPORT_BYTES {
        return Err(ReportRefusal::Long);
    }
    let mut lines = ReportLines::new(text);
    let head = lines.head();
    let moves = read_moves(alloc, net, &mut lines)?;
    match head {
        Ok(tries) => read_rest(alloc, net, tries, moves, &mut lines),
        Err(n) => Err(ReportRefusal::Line(n)),
    }
}

/// The report whose text this is. A refusal is the first fault of the text, or that it is too long, which is
/// looked for before. What `report_text` writes of a report of at most `MAX_MOVES` moves is read as that report.
pub fn read_report(alloc: Global, net: &Network, text: &[u8]) -> Result<Report, ReportRefusal>
    ensures reads { ReadsAs net.now text.now result }
    ensures complete { (report : Report) → IsTextOf net.now report text.now → length report.moves ≤ most_moves
        → ReadsBack report result }
{
    // The law that a text has one reading, and what acceptance gave, for the proof.
    one_reading();
    net.accepted();
    read_text(alloc, net, text)
}
