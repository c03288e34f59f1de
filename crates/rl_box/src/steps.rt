ghost use Rattle.std.specs.Prelude.{◌≡◌, ◌↔◌, ℕ, ◌<◌, ◌≤◌, false, Some, None, IfSome};
ghost use Rattle.rl_base.specs.declared.limits.TheConstants.{MAX_BOXES, MAX_TRAINS};
ghost use Rattle.rl_base.specs.declared.layout.NodeKind.TheVariants as nodes;
ghost use Rattle.rl_base.specs.declared.layout.WordKind.{WordKind};
ghost use Rattle.rl_base.specs.declared.layout.WordKind.TheVariants as kinds;
ghost use Rattle.rl_base.specs.Layout.{word_count, word_number, node_number, HasWord};
ghost use Rattle.rl_words.specs.Lock.{FitsPath};
ghost use Rattle.rl_words.specs.Mail.{FitsLetter};
ghost use Rattle.rl_words.specs.Owner.{Owns};
ghost use Rattle.rl_words.specs.Word.{PackedStep};
ghost use Rattle.rl_tables.specs.declared.table.BoxTable.{BoxTable};
ghost use Rattle.rl_box.specs.declared.mind.BoxMind.{BoxMind};
ghost use Rattle.rl_box.specs.Glance.{asks_box, says_moved, may_step};
ghost use Rattle.rl_box.specs.Mind.{box_at, IsAnswer, IsBoxMind};
ghost use Rattle.rl_box.specs.Steps.{BoxStep, box_step, box_target};

use crate::laws::{box_glances, box_lines, box_steps};
use crate::mind::{Answer, BoxMind, Work};
use crate::{mail, points, reservations};
use rl_base::{BoxId, Layout, TrainId, Verb, WordKind, WordNo};
use rl_tables::BoxTable;
use rl_words::{Letter, LockWord, MailWord, Path, ResvWord};

/// Whether the lowest ten bits are those of a letter to the box that is asked.
fn asks_box(b: BoxId, payload: u32) -> bool
    requires { b.0 < MAX_BOXES }
    ensures { result ≡ asks_box b payload }
{
    payload & 0x3ff == 1 + 8 * b.0
}

/// Whether the lowest three bits are those of points that have moved.
fn says_moved(payload: u32) -> bool
    ensures { result ≡ says_moved payload }
{
    payload & 7 == 3
}

impl BoxMind {
    /// The word at which the box looks, at its scan place while it is ready: the mail words of all trains, and after
    /// them its own lock word.
    pub fn target(&self, lay: &Layout, b: &BoxTable, scan: u32) -> WordNo
        requires boxes { lay.now.boxes ≤ MAX_BOXES }
        requires trains { lay.now.trains ≤ MAX_TRAINS }
        requires there { b.now.number.0 < lay.now.boxes }
        requires scan { scan ≤ lay.now.trains }
        requires mind { IsBoxMind lay.now b.now self.now }
        ensures number { result.0 ≡ word_number lay.now (box_target lay.now b.now self.now scan) }
        ensures within { result.0 < word_count lay.now }
    {
        match self.work {
            Work::Ready if scan < lay.trains => WordNo(1 + 2 * lay.boxes + scan),
            Work::Ready => lay.word(WordKind::Lock(b.number)),
            Work::Serve(_, letter) => match letter.verb {
                Verb::Reserve | Verb::Release => lay.word(WordKind::Resv(b.number)),
                Verb::Lock | Verb::Unlock => lay.word(WordKind::Lock(b.number)),
            },
            Work::Say(t, _, _) => lay.word(WordKind::Mail(t)),
        }
    }

    /// The step that fits the word and its payload: the new payload and the mind after it. `None` exactly where no
    /// step fits. The box owns the value that it changes.
    pub fn act(&self, lay: &Layout, b: &BoxTable, w: WordNo, payload: u32) -> Option<(u32, BoxMind)>
        requires boxes { lay.now.boxes ≤ MAX_BOXES }
        requires trains { lay.now.trains ≤ MAX_TRAINS }
        requires there { b.now.number.0 < lay.now.boxes }
        requires within { w.0 < word_count lay.now }
        requires mind { IsBoxMind lay.now b.now self.now }
        ensures sentence { (kind : WordKind) → HasWord lay.now kind → word_number lay.now kind ≡ w.0
            → (new : ℕ) (after : BoxMind) → (result ≡ Some (new, after))
            ↔ PackedStep (BoxStep b.now self.now) kind payload new after }
        ensures owned { IfSome result (λ r. Owns lay.now w.0 payload (node_number lay.now (nodes.Box b.now.number))) }
        ensures step { (kind : WordKind) → HasWord lay.now kind → word_number lay.now kind ≡ w.0
            → result ≡ box_step b.now self.now kind payload }
        ensures kept { IfSome result (λ r. IsBoxMind lay.now b.now r.1) }
    {
        // What the sentences say of a step, and what it keeps to, for the proof.
        box_lines();
        box_steps();
        if !self.may_step(b.number, payload) {
            return None;
        }
        let kind = lay.word_kind(w);
        self.step(lay, b, kind, payload)
    }

    /// A glance at a payload, before it is unpacked: a box that is ready takes a letter to it, or finds that the points
    /// for which it waits have moved. Where it says no, the box of this number has no step there.
    pub fn may_step(&self, b: BoxId, payload: u32) -> bool
        requires { b.0 < MAX_BOXES }
        ensures glance { result ≡ may_step b self.now.work self.now.waiting payload }
        ensures none { (table : BoxTable) (kind : WordKind) → table.number ≡ b → result ≡ false
            → box_step table self.now kind payload ≡ None }
    {
        box_glances();
        match self.work {
            Work::Ready => {
                asks_box(b, payload) || (says_moved(payload) && self.waiting.is_some())
            }
            Work::Serve(_, _) | Work::Say(_, _, _) => true,
        }
    }

    #[inline(never)]
    #[tactic(auto, unfolding(crate::specs::Steps::box_step))]
    fn step(
        &self,
        lay: &Layout,
        b: &BoxTable,
        kind: WordKind,
        payload: u32,
    ) -> Option<(u32, BoxMind)>
        requires trains { lay.now.trains ≤ MAX_TRAINS }
        requires mind { IsBoxMind lay.now b.now self.now }
        ensures { result ≡ box_step b.now self.now kind payload }
    {
        match (kind, self.work) {
            (WordKind::Mail(t), Work::Ready) => self.take(b, t, payload),
            (WordKind::Mail(t), Work::Say(to, letter, answer)) => {
                self.say(b, t, to, letter, answer, payload)
            }
            (WordKind::Resv(c), Work::Serve(t, letter)) if c.0 == b.number.0 => {
                self.serve_resv(b, t, letter, payload)
            }
            (WordKind::Lock(c), Work::Serve(t, letter)) if c.0 == b.number.0 => {
                self.serve_lock(b, t, letter, payload)
            }
            (WordKind::Lock(c), Work::Ready) if c.0 == b.number.0 => self.wait(b, payload),
            _ => None,
        }
    }

    #[tactic(auto, unfolding(crate::specs::Steps::box_step))]
    fn take(&self, b: &BoxTable, t: TrainId, payload: u32) -> Option<(u32, BoxMind)>
        requires work { self.now.work ≡ Work.Ready }
        ensures { result ≡ box_step b.now self.now (kinds.Mail t) payload }
    {
        let (word, work) = mail::take(b, t, MailWord::unpack(payload)?)?;
        Some((word.pack(), self.with_work(work)))
    }

    #[tactic(auto, unfolding(crate::specs::Steps::box_step))]
    fn say(
        &self,
        b: &BoxTable,
        t: TrainId,
        to: TrainId,
        letter: Letter,
        answer: Answer,
        payload: u32,
    ) -> Option<(u32, BoxMind)>
        requires work { self.now.work ≡ Work.Say to letter answer }
        requires letter { FitsLetter letter }
        requires answer { IsAnswer answer }
        ensures { result ≡ box_step b.now self.now (kinds.Mail t) payload }
    {
        let (word, work) = mail::say(b, t, to, letter, answer, MailWord::unpack(payload)?)?;
        Some((word.pack(), self.with_work(work)))
    }

    #[tactic(auto, unfolding(crate::specs::Steps::box_step))]
    fn serve_resv(
        &self,
        b: &BoxTable,
        t: TrainId,
        letter: Letter,
        payload: u32,
    ) -> Option<(u32, BoxMind)>
        requires work { self.now.work ≡ Work.Serve t letter }
        requires train { t.0 < MAX_TRAINS }
        requires letter { FitsLetter letter }
        ensures { result ≡ box_step b.now self.now (kinds.Resv b.now.number) payload }
    {
        let (word, answer) = reservations::serve(t, letter, ResvWord::unpack(payload)?)?;
        Some((word.pack(), self.with_work(Work::Say(t, letter, answer))))
    }

    #[tactic(auto, unfolding(crate::specs::Steps::box_step))]
    fn serve_lock(
        &self,
        b: &BoxTable,
        t: TrainId,
        letter: Letter,
        payload: u32,
    ) -> Option<(u32, BoxMind)>
        requires work { self.now.work ≡ Work.Serve t letter }
        requires train { t.0 < MAX_TRAINS }
        requires letter { FitsLetter letter }
        ensures { result ≡ box_step b.now self.now (kinds.Lock b.now.number) payload }
    {
        if self.waiting.is_some() {
            return None;
        }
        let (word, after) = points::serve(b, t, letter, LockWord::unpack(payload)?)?;
        Some((word.pack(), after))
    }

    #[tactic(auto, unfolding(crate::specs::Steps::box_step))]
    fn wait(&self, b: &BoxTable, payload: u32) -> Option<(u32, BoxMind)>
        requires work { self.now.work ≡ Work.Ready }
        requires path { IfSome self.now.waiting FitsPath }
        ensures { result ≡ box_step b.now self.now (kinds.Lock b.now.number) payload }
    {
        let (word, after) = points::wait(b, self.waiting?, LockWord::unpack(payload)?)?;
        Some((word.pack(), after))
    }

    fn with_work(&self, work: Work) -> BoxMind
        ensures { result ≡ box_at work self.now.waiting }
    {
        BoxMind { work, ..*self }
    }
}
