ghost use Rattle.std.specs.Prelude.{◌≡◌, ◌↔◌, ℕ, ◌<◌, ◌≤◌, false, Some, None, IfSome};
ghost use Rattle.rl_base.specs.declared.limits.TheConstants.{MAX_BOXES, MAX_TRAINS};
ghost use Rattle.rl_base.specs.declared.ids.TrainId.{TrainId};
ghost use Rattle.rl_base.specs.declared.layout.Layout.{Layout};
ghost use Rattle.rl_base.specs.declared.layout.NodeKind.TheVariants as nodes;
ghost use Rattle.rl_base.specs.declared.layout.WordKind.{WordKind};
ghost use Rattle.rl_base.specs.Layout.{word_count, word_number, node_number};
ghost use Rattle.rl_words.specs.Owner.{Owns};
ghost use Rattle.rl_words.specs.Run.{FitsRun};
ghost use Rattle.rl_words.specs.Sense.{FitsSense};
ghost use Rattle.rl_words.specs.Word.{PackedStep};
ghost use Rattle.rl_track.specs.declared.track.TrackMind.{TrackMind};
ghost use Rattle.rl_track.specs.Glance.{may_report};
ghost use Rattle.rl_track.specs.Track.{start_track, IsTrackMind, TrackStep, run_turn, sense_turn, track_step, track_target};

use crate::laws::{track_glances, track_steps};
use rl_base::{Layout, TrainId, WordKind, WordNo};
use rl_words::{RunWord, SenseWord};

/// What the track of a train has in hand: it watches for the train to go, and then it reports the head, that the
/// train has left its segment, and the tail.
#[derive(Clone, Copy, Debug, PartialEq, Eq)]
pub enum TrackPhase {
    Watch,
    HeadDue,
    LeaveDue,
    TailDue,
}

/// What the track of a train remembers: the step of the route at which the train is, and what is due there.
#[derive(Clone, Copy, Debug, PartialEq, Eq)]
pub struct TrackMind {
    pub step: u32,
    pub phase: TrackPhase,
}

impl TrackMind {
    /// Watching for the first step.
    pub fn start() -> TrackMind
        ensures mind { result ≡ start_track }
        ensures kept { IsTrackMind result }
    {
        TrackMind {
            step: 0,
            phase: TrackPhase::Watch,
        }
    }

    /// The word at which the track of the train looks.
    pub fn target(&self, lay: &Layout, t: TrainId) -> WordNo
        requires boxes { lay.now.boxes ≤ MAX_BOXES }
        requires trains { lay.now.trains ≤ MAX_TRAINS }
        requires there { t.0 < lay.now.trains }
        ensures number { result.0 ≡ word_number lay.now (track_target t self.now) }
        ensures within { result.0 < word_count lay.now }
    {
        match self.phase {
            TrackPhase::Watch | TrackPhase::LeaveDue => lay.word(WordKind::Run(t)),
            TrackPhase::HeadDue | TrackPhase::TailDue => lay.word(WordKind::Sense(t)),
        }
    }

    /// The step that fits the payload of the target: the new payload and the mind after it. `None` exactly where
    /// no step fits. The track of the train owns the value that it changes.
    pub fn act(&self, payload: u32) -> Option<(u32, TrackMind)>
        requires { IsTrackMind self.now }
        ensures sentence { (t : TrainId) (new : ℕ) (after : TrackMind) → (result ≡ Some (new, after))
            ↔ PackedStep (TrackStep t self.now) (track_target t self.now) payload new after }
        ensures owned { (lay : Layout) (t : TrainId) → t.0 < lay.trains → IfSome result
            (λ r. Owns lay (word_number lay (track_target t self.now)) payload (node_number lay (nodes.Track t))) }
        ensures step { (t : TrainId) → result ≡ track_step t self.now (track_target t self.now) payload }
        ensures kept { IfSome result (λ r. IsTrackMind r.1) }
    {
        // What a step keeps to, for the proof.
        track_steps();
        self.step_there(payload)
    }

    /// The step by a glance, and by a closer look where that doesn't say no.
    #[inline(always)]
    fn step_there(&self, payload: u32) -> Option<(u32, TrackMind)>
        requires { IsTrackMind self.now }
        ensures step { (t : TrainId) → result ≡ track_step t self.now (track_target t self.now) payload }
        ensures kept { IfSome result (λ r. IsTrackMind r.1) }
    {
        if self.may_step(payload) {
            self.step(payload)
        } else {
            None
        }
    }

    /// A glance at a payload, before it is unpacked: whether its lowest two bits are those of the word that the track
    /// waits for. Where it says no, the track has no step there.
    fn may_step(&self, payload: u32) -> bool
        ensures glance { result ≡ may_report self.now payload }
        ensures none { (t : TrainId) (kind : WordKind) → result ≡ false → track_step t self.now kind payload ≡ None }
    {
        track_glances();
        let tag = match self.phase {
            TrackPhase::HeadDue => 0,
            TrackPhase::Watch | TrackPhase::TailDue => 1,
            TrackPhase::LeaveDue => 2,
        };
        payload & 3 == tag
    }

    #[inline(never)]
    #[tactic(auto, unfolding(crate::specs::Track::track_step))]
    fn step(&self, payload: u32) -> Option<(u32, TrackMind)>
        requires { IsTrackMind self.now }
        ensures step { (t : TrainId) → result ≡ track_step t self.now (track_target t self.now) payload }
        ensures kept { IfSome result (λ r. IsTrackMind r.1) }
    {
        match self.phase {
            TrackPhase::Watch | TrackPhase::LeaveDue => {
                let (word, after) = self.on_run(RunWord::unpack(payload)?)?;
                Some((word.pack(), after))
            }
            TrackPhase::HeadDue | TrackPhase::TailDue => {
                let (word, after) = self.on_sense(SenseWord::unpack(payload)?)?;
                Some((word.pack(), after))
            }
        }
    }

    /// The train goes, or has left its segment.
    fn on_run(&self, word: RunWord) -> Option<(RunWord, TrackMind)>
        requires mind { IsTrackMind self.now }
        requires word { FitsRun word }
        ensures step { result ≡ run_turn self.now.step self.now.phase word }
        ensures fits { IfSome result (λ r. FitsRun r.0) }
        ensures kept { IfSome result (λ r. IsTrackMind r.1) }
    {
        match (self.phase, word) {
            (TrackPhase::Watch, RunWord::Go(k)) if k == self.step => Some((
                RunWord::Across(k),
                TrackMind {
                    step: k,
                    phase: TrackPhase::HeadDue,
                },
            )),
            (TrackPhase::LeaveDue, RunWord::Across(k)) if k == self.step => Some((
                RunWord::Clear(k + 1),
                TrackMind {
                    step: k,
                    phase: TrackPhase::TailDue,
                },
            )),
            _ => None,
        }
    }

    /// The head of the train is past the box, or its tail.
    fn on_sense(&self, word: SenseWord) -> Option<(SenseWord, TrackMind)>
        requires mind { IsTrackMind self.now }
        requires word { FitsSense word }
        ensures step { result ≡ sense_turn self.now.step self.now.phase word }
        ensures fits { IfSome result (λ r. FitsSense r.0) }
        ensures kept { IfSome result (λ r. IsTrackMind r.1) }
    {
        match (self.phase, word) {
            (TrackPhase::HeadDue, SenseWord::Quiet(k)) if k == self.step => Some((
                SenseWord::Head(k),
                TrackMind {
                    step: k,
                    phase: TrackPhase::LeaveDue,
                },
            )),
            (TrackPhase::TailDue, SenseWord::Head(k)) if k == self.step => Some((
                SenseWord::Tail(k),
                TrackMind {
                    step: k + 1,
                    phase: TrackPhase::Watch,
                },
            )),
            _ => None,
        }
    }
}
