ghost use Rattle.std.specs.Prelude.{◌≡◌, ◌↔◌, ◌<◌, ◌∷◌, false, Some, None, IsTrue, IfSome};
ghost use Rattle.rl_steps.specs.Run.{EventFits};
ghost use Rattle.rl_steps.specs.Turn.{Drive};
ghost use Rattle.rl_core.specs.Cores.{state_of, LeadsTo};
ghost use Rattle.rl_core.specs.Redoing.{Finds, IsMadeBy};

use crate::cores::Core;
use rl_record::Event;
use rl_steps::{Mind, act_anywhere};
use rl_words::payload_of;

impl<'a> Core<'a> {
    /// Whether the node and the word of the event are there, and the word holds what it says it was.
    fn finds(&self, e: Event) -> bool
        ensures { IsTrue result ↔ Finds self.now e }
    {
        self.reached();
        let lay = self.line().layout();
        e.node.0 < lay.nodes() && e.word.0 < lay.words() && self.word_at(e.word) == e.was
    }

    /// What the event's node writes, and what it has in mind then, where the event is the one that it makes here.
    fn fitting(&self, e: Event) -> Option<(u32, Mind)>
        requires few { self.now.events < 4294967295 }
        ensures fits { IfSome result (λ r. IsMadeBy self.now e r.0 r.1) }
        ensures misfits { result ≡ None → EventFits self.now.line (state_of self.now) e → ⊥ }
    {
        self.sound();
        if !self.finds(e) {
            return None;
        }
        let (payload, mind) = act_anywhere(
            self.line(),
            e.node,
            self.mind(e.node),
            e.word,
            payload_of(e.was),
        )?;
        if e == self.event(e.node, e.word, e.was, payload) {
            Some((payload, mind))
        } else {
            None
        }
    }

    /// IsMadeBy the event, if it is the one that its node makes on its word here. Scan places stay.
    pub(crate) fn redo(&mut self, e: Event) -> bool
        requires few { self.old.events < 4294967295 }
        ensures fits { IsTrue result ↔ EventFits self.old.line (state_of self.old) e }
        ensures made { IsTrue result → (d : Drive) → LeadsTo d self.old
            → LeadsTo (record d { events = e ∷ d.events }) self.new }
        ensures same { result ≡ false → self.new ≡ self.old }
        ensures line { self.new.line ≡ self.old.line }
        ensures tries { self.new.tries ≡ self.old.tries }
    {
        self.sound();
        let Some((payload, mind)) = self.fitting(e) else {
            return false;
        };
        let _event = self.step(e.node, e.word, e.was, payload, mind);
        true
    }
}
