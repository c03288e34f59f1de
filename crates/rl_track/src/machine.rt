ghost use Rattle.std.specs.Prelude.{◌≡◌, ◌↔◌, ℕ, ◌<◌, ◌≤◌, false, Some, None, IfSome};
ghost use Rattle.rl_base.specs.declared.limits.TheConstants.{MAX_BOXES, MAX_TRAINS};
ghost use Rattle.rl_base.specs.declared.ids.BoxId.{BoxId};
ghost use Rattle.rl_base.specs.declared.layout.Layout.{Layout};
ghost use Rattle.rl_base.specs.declared.layout.NodeKind.TheVariants as nodes;
ghost use Rattle.rl_base.specs.declared.layout.WordKind.{WordKind};
ghost use Rattle.rl_base.specs.Layout.{word_count, word_number, node_number};
ghost use Rattle.rl_words.specs.Owner.{Owns};
ghost use Rattle.rl_words.specs.Lock.{FitsLock};
ghost use Rattle.rl_words.specs.Word.{PackedStep};
ghost use Rattle.rl_track.specs.declared.machine.MachineMind.{MachineMind};
ghost use Rattle.rl_track.specs.Glance.{may_move};
ghost use Rattle.rl_track.specs.Machine.{MachineStep, lock_turn, machine_step, machine_target};

use crate::laws::{machine_glances, machine_steps};
use rl_base::{BoxId, Layout, WordKind, WordNo};
use rl_words::LockWord;

/// The mind of a point machine, which remembers nothing: what it is to do stands in the lock word of its box.
#[derive(Clone, Copy, Debug, PartialEq, Eq)]
pub struct MachineMind;

/// What the machine makes of a lock word: points that are asked for begin to move, and points that move then stand.
fn on_lock(word: LockWord) -> Option<LockWord>
    requires { FitsLock word }
    ensures step { result ≡ lock_turn word }
    ensures fits { IfSome result FitsLock }
{
    match word {
        LockWord::Asked(path) => Some(LockWord::Moving(path)),
        LockWord::Moving(path) => Some(LockWord::Moved(path)),
        LockWord::Free(_) | LockWord::Moved(_) | LockWord::Locked(_) => None,
    }
}

/// Whether the lowest three bits are those of points that are asked for, or that move.
fn may_move(payload: u32) -> bool
    ensures { result ≡ may_move payload }
{
    let tag = payload & 7;
    tag == 1 || tag == 2
}

impl MachineMind {
    /// The word at which the machine of the box looks.
    pub fn target(&self, lay: &Layout, b: BoxId) -> WordNo
        requires boxes { lay.now.boxes ≤ MAX_BOXES }
        requires trains { lay.now.trains ≤ MAX_TRAINS }
        requires there { b.0 < lay.now.boxes }
        ensures number { result.0 ≡ word_number lay.now (machine_target b) }
        ensures within { result.0 < word_count lay.now }
    {
        lay.word(WordKind::Lock(b))
    }

    /// The step that fits the payload of the target: the new payload and the mind after it. `None` exactly where
    /// no step fits. The machine of the box owns the value that it changes.
    pub fn act(&self, payload: u32) -> Option<(u32, MachineMind)>
        ensures sentence { (b : BoxId) (new : ℕ) (after : MachineMind) → (result ≡ Some (new, after))
            ↔ PackedStep (MachineStep b self.now) (machine_target b) payload new after }
        ensures owned { (lay : Layout) (b : BoxId) → b.0 < lay.boxes → IfSome result
            (λ r. Owns lay (word_number lay (machine_target b)) payload (node_number lay (nodes.Machine b))) }
        ensures step { (b : BoxId) → result ≡ machine_step b self.now (machine_target b) payload }
    {
        // What a step keeps to, for the proof.
        machine_steps();
        self.step_there(payload)
    }

    /// The step by a glance, and by a closer look where that doesn't say no.
    #[inline(always)]
    fn step_there(&self, payload: u32) -> Option<(u32, MachineMind)>
        ensures { (b : BoxId) → result ≡ machine_step b self.now (machine_target b) payload }
    {
        if self.may_step(payload) {
            self.step(payload)
        } else {
            None
        }
    }

    /// A glance at a payload, before it is unpacked: where it says no, the machine has no step there.
    fn may_step(&self, payload: u32) -> bool
        ensures glance { result ≡ may_move payload }
        ensures none { (b : BoxId) (kind : WordKind) → result ≡ false → machine_step b self.now kind payload ≡ None }
    {
        machine_glances();
        may_move(payload)
    }

    #[inline(never)]
    #[tactic(auto, unfolding(crate::specs::Machine::machine_step))]
    fn step(&self, payload: u32) -> Option<(u32, MachineMind)>
        ensures { (b : BoxId) → result ≡ machine_step b self.now (machine_target b) payload }
    {
        let word = on_lock(LockWord::unpack(payload)?)?;
        Some((word.pack(), *self))
    }
}
