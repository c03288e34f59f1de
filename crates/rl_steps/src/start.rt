ghost use Rattle.std.specs.Prelude.{◌≡◌, ◌<◌, IfOk};
ghost use Rattle.rl_base.specs.Layout.{node_count, word_count};
ghost use Rattle.rl_tables.specs.Kept.{IsLine};
ghost use Rattle.rl_tables.specs.Starts.{layout_of};
ghost use Rattle.rl_steps.specs.State.{start_word, start_words, start_mind};

use crate::laws::numbered;
use crate::mind::Mind;
use rl_base::{NoMemory, NodeKind, NodeNo, WordNo};
use rl_box::BoxMind;
use rl_tables::Line;
use rl_track::{MachineMind, TrackMind};
use rl_train::TrainMind;
use std::alloc::Global;

/// The word at the start.
fn start_word(line: &Line, w: WordNo) -> u64
    requires { w.0 < word_count (layout_of line.now) }
    ensures { result ≡ start_word line.now w.0 }
{
    // The kind of the word, for the proof.
    numbered();
    let _kind = line.layout().word_kind(w);
    line.start_word(w)
}

/// All words at the start, each with stamp 0.
pub fn start_words(alloc: Global, line: &Line) -> Result<Vec<u64>, NoMemory>
    ensures words { IfOk result (λ words. words.items ≡ start_words line.now (word_count (layout_of line.now))) }
    ensures line { IsLine line.now }
{
    let count = line.layout().words();
    let mut words = Vec::with_capacity(alloc, count as usize)?;
    for w in 0..count {
        words.push(start_word(line, WordNo(w)))?;
    }
    Ok(words)
}

/// The mind of the node at the start, where a train has so many attempts.
pub fn start_mind(line: &Line, tries: u32, n: NodeNo) -> Mind
    requires { n.0 < node_count (layout_of line.now) }
    ensures { result ≡ start_mind line.now tries n.0 }
{
    numbered();
    match line.layout().node_kind(n) {
        NodeKind::Train(_) => Mind::Train(TrainMind::start(tries)),
        NodeKind::Track(_) => Mind::Track(TrackMind::start()),
        NodeKind::Box(_) => Mind::Box(BoxMind::start()),
        NodeKind::Machine(_) => Mind::Machine(MachineMind),
    }
}
