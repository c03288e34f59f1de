ghost use Rattle.std.specs.Prelude.{◌≡◌, ◌<◌, ◌==◌, length, slice_get, find, Some, IfSome};
ghost use Rattle.std.specs.Option.{option_copied};
ghost use Rattle.rl_base.specs.declared.layout.WordKind.{WordKind};
ghost use Rattle.rl_base.specs.Layout.{word_count, word_number, HasWord};
ghost use Rattle.rl_words.specs.Resv.{FitsArm, FitsResv};
ghost use Rattle.rl_tables.specs.Starts.{layout_of, starter_of, arm_holder, start_resv, start_payload};

use crate::line::Line;
use crate::table::{BoxTable, TrainTable};
use rl_base::{SegId, TrainId, WordKind, WordNo};
use rl_words::{LockWord, MailWord, ResvWord, RunWord, SenseWord};

/// The first of the trains that starts on the segment.
fn starter(trains: &[TrainTable], s: SegId) -> Option<&TrainTable>
    ensures { option_copied result ≡ find (λ x. x.first.0 == s.0) trains.now }
{
    trains.iter().find(|x| x.first.0 == s.0)
}

impl Line {
    /// The train that starts on the segment, and so holds it at the start.
    pub(crate) fn holder(&self, s: SegId) -> Option<TrainId>
        ensures train { result ≡ starter_of self.now s.0 }
        ensures there { IfSome result (λ t. t.0 < length self.now.trains) }
        ensures few { FitsArm result }
    {
        starter(self.train_tables(), s).map(|x| x.number)
    }

    /// The train that holds an arm at the start, where the box has the arm.
    fn arm_holder(&self, s: Option<SegId>) -> Option<TrainId>
        ensures train { result ≡ arm_holder self.now s }
        ensures few { FitsArm result }
    {
        match s {
            Some(s) => self.holder(s),
            None => None,
        }
    }

    /// The reservations of a box at the start.
    fn start_resv(&self, x: &BoxTable) -> ResvWord
        ensures word { result ≡ start_resv self.now x.now }
        ensures fits { FitsResv result }
    {
        ResvWord {
            arm0: self.arm_holder(x.seg0),
            arm1: self.arm_holder(x.seg1),
            arm2: self.arm_holder(x.seg2),
            arm3: self.arm_holder(x.seg3),
        }
    }

    /// What the word says at the start, as the payload of a word with stamp 0.
    pub fn start_word(&self, w: WordNo) -> u64
        requires { w.0 < word_count (layout_of self.now) }
        ensures { (kind : WordKind) → HasWord (layout_of self.now) kind → word_number (layout_of self.now) kind ≡ w.0
            → result ≡ start_payload self.now kind }
    {
        let payload = match self.layout().word_kind(w) {
            WordKind::Still => 0,
            WordKind::Resv(b) => self.start_resv(self.box_table(b)).pack(),
            WordKind::Lock(b) => LockWord::Free(self.box_table(b).side).pack(),
            WordKind::Mail(_) => MailWord::Empty.pack(),
            WordKind::Run(_) => RunWord::Clear(0).pack(),
            WordKind::Sense(_) => SenseWord::Quiet(0).pack(),
        };
        u64::from(payload)
    }
}
