ghost use Rattle.std.specs.Prelude.{◌≡◌, ◌<◌, All, length, reverse, IfOk};
ghost use Rattle.rl_base.specs.Tries.{AreFewTries};
ghost use Rattle.rl_base.specs.Layout.{node_count, word_count};
ghost use Rattle.rl_core.specs.Reports.{AreMindsAfter};
ghost use Rattle.rl_steps.specs.Run.{IsRun};
ghost use Rattle.rl_safety.specs.Moves.{moves_of};
ghost use Rattle.rl_safety.specs.Reports.{report_of};
ghost use Rattle.rl_tables.specs.Starts.{layout_of};

use rl_base::NoMemory;
use rl_core::{Mind, move_of, report_of};
use rl_model::{Moves, Report};
use rl_record::Event;
use rl_safety::counted_events;
use rl_steps::sound_runs;
use rl_tables::Line;
use std::alloc::Global;

/// The moves of events, in their order.
fn moves_of(alloc: Global, line: &Line, events: &[Event]) -> Result<Moves, NoMemory>
    requires { All (λ e. e.word.0 < word_count (layout_of line.now)) events.now }
    ensures { IfOk result (λ moves. moves ≡ moves_of line.now (reverse events.now)) }
{
    let mut moves = Moves::new(alloc);
    for e in events {
        if let Some(m) = move_of(line, e) {
            moves.push(m)?;
        }
    }
    Ok(moves)
}

/// The report of a run, by its events and by the minds that they leave.
pub fn report_of_events(
    alloc: Global,
    line: &Line,
    tries: u32,
    events: &[Event],
    minds: &[Mind],
) -> Result<Report, NoMemory>
    requires few_tries { AreFewTries tries }
    requires run { IsRun line.now tries (reverse events.now) }
    requires minds { AreMindsAfter line.now tries (reverse events.now) minds.now }
    requires nodes { length minds.now ≡ node_count (layout_of line.now) }
    ensures { IfOk result (λ report. report ≡ report_of line.now tries (reverse events.now)) }
{
    // How many events there are, and that their words are there, for the proof.
    let _layout = line.layout();
    counted_events();
    sound_runs();
    let moves = moves_of(alloc, line, events)?;
    report_of(alloc, line, tries, moves, minds)
}
