ghost use Rattle.std.specs.Prelude.{◌≡◌, ◌<◌, ◌≤◌, length};
ghost use Rattle.rl_words.specs.Stamps.{stamp_in};
ghost use Rattle.rl_steps.specs.State.{next_stamp};
ghost use Rattle.rl_steps.specs.Step.{is_ready};
ghost use Rattle.rl_steps.specs.Turn.{next_place, scan_after};

use crate::mind::Mind;
use rl_box::Work;
use rl_tables::Line;
use rl_words::stamp_of;
use std::cmp::max;

/// Whether the node is a box that has nothing in hand.
#[inline(always)]
pub fn is_ready(mind: &Mind) -> bool
    ensures { result ≡ is_ready mind.now }
{
    match mind {
        Mind::Box(m) => matches!(m.work, Work::Ready),
        Mind::Train(_) | Mind::Track(_) | Mind::Machine(_) => false,
    }
}

/// The place that a ready box scans after this one: the mail words of all trains in order, and then its lock word.
#[inline(always)]
pub fn next_place(line: &Line, scan: u32) -> u32
    requires { scan ≤ length line.now.trains }
    ensures place { result ≡ next_place line.now scan }
    ensures within { result ≤ length line.now.trains }
{
    let lay = line.layout();
    if scan < lay.trains { scan + 1 } else { 0 }
}

/// The scan place of a node after a turn that looks at a word: a ready box goes on to the next one.
#[inline(always)]
pub fn scan_after(line: &Line, mind: &Mind, scan: u32) -> u32
    requires { scan ≤ length line.now.trains }
    ensures place { result ≡ scan_after line.now mind.now scan }
    ensures within { result ≤ length line.now.trains }
{
    if is_ready(mind) {
        next_place(line, scan)
    } else {
        scan
    }
}

/// The stamp of the next event of a node with this clock, on a word that was this.
#[inline(always)]
pub fn next_stamp(clock: u32, was: u64) -> u32
    requires clock { clock < 4294967295 }
    requires word { stamp_in was < 4294967295 }
    ensures { result ≡ next_stamp clock was }
{
    max(clock, stamp_of(was)) + 1
}
