ghost use Rattle.std.specs.Prelude.{◌≡◌, ◌<◌, ◌≤◌, true, false, Some, None, IfSome, option_map, option_and_then};
ghost use Rattle.std.specs.Option.{option_copied};
ghost use Rattle.rl_base.specs.declared.limits.TheConstants.{MAX_BOXES, MAX_STEPS, MAX_TRAINS, MAX_TRIES};
ghost use Rattle.rl_base.specs.declared.layout.WordKind.{WordKind};
ghost use Rattle.rl_base.specs.Layout.{word_count, word_number};
ghost use Rattle.rl_words.specs.Mail.{FitsMail};
ghost use Rattle.rl_words.specs.Run.{FitsRun};
ghost use Rattle.rl_words.specs.Sense.{FitsSense};
ghost use Rattle.rl_tables.specs.declared.table.TrainTable.{TrainTable};
ghost use Rattle.rl_train.specs.Glance.{may_hear};
ghost use Rattle.rl_train.specs.Jobs.{after_no};
ghost use Rattle.rl_train.specs.Mind.{row_of, looks_on, at_rest, IsTrainMind, CanBeNamed, IsUsable};
ghost use Rattle.rl_train.specs.Steps.{posted, heard, denied, on_mail, on_run, on_sense, train_step, train_target};

use crate::jobs::{
    after_no, after_yes, asks, ends_step, is_near, is_pass, letter, looks_ahead, reopens,
};
use crate::laws::train_glances;
use crate::mind::TrainMind;
use rl_base::{Job, Layout, TrainId, WordKind, WordNo};
use rl_tables::{StepRow, TrainTable};
use rl_words::{Letter, MailWord, RunWord, SenseWord};

impl TrainMind {
    /// The word at which the train looks. `None` exactly at rest.
    pub fn target(&self, lay: &Layout, t: &TrainTable) -> Option<WordNo>
        requires boxes { lay.now.boxes ≤ MAX_BOXES }
        requires trains { lay.now.trains ≤ MAX_TRAINS }
        requires there { t.now.number.0 < lay.now.trains }
        ensures number { option_map (λ w. w.0) result ≡ option_map (word_number lay.now) (train_target t.now self.now) }
        ensures within { IfSome result (λ w. w.0 < word_count lay.now) }
    {
        if self.at_rest(t) {
            return None;
        }
        if !is_pass(self.job) {
            Some(lay.word(WordKind::Mail(t.number)))
        } else if self.waits {
            Some(lay.word(WordKind::Sense(t.number)))
        } else {
            Some(lay.word(WordKind::Run(t.number)))
        }
    }

    /// The step that fits the payload of the target: the new payload and the mind after it. `None` exactly where
    /// no step fits.
    pub fn act(&self, t: &TrainTable, payload: u32) -> Option<(u32, TrainMind)>
        requires table { IsUsable t.now }
        requires mind { IsTrainMind t.now self.now }
        ensures step { result ≡ option_and_then (λ kind. train_step t.now self.now kind payload)
            (train_target t.now self.now) }
        ensures kept { IfSome result (λ r. IsTrainMind t.now r.1) }
    {
        if self.may_step(payload) {
            self.step(t, payload)
        } else {
            None
        }
    }

    /// A glance at a payload, before it is unpacked: whether the train doesn't wait, or its lowest bits are those of
    /// the word for which it waits, an answer, or that its tail is past the box. Where it says no, the train has no
    /// step there.
    fn may_step(&self, payload: u32) -> bool
        ensures glance { result ≡ may_hear self.now.waits self.now.job payload }
        ensures none { (table : TrainTable) (kind : WordKind) → result ≡ false
            → train_step table self.now kind payload ≡ None }
    {
        train_glances();
        if !self.waits {
            true
        } else if is_pass(self.job) {
            payload & 3 == 2
        } else {
            let tag = payload & 7;
            tag == 3 || tag == 4
        }
    }

    #[inline(never)]
    #[tactic(auto, using(crate::proofs::KeptLemmas::pass_not_near), unfolding(crate::specs::Steps::train_step))]
    fn step(&self, t: &TrainTable, payload: u32) -> Option<(u32, TrainMind)>
        requires table { IsUsable t.now }
        requires mind { IsTrainMind t.now self.now }
        ensures step { result ≡ option_and_then (λ kind. train_step t.now self.now kind payload)
            (train_target t.now self.now) }
        ensures kept { IfSome result (λ r. IsTrainMind t.now r.1) }
    {
        if !is_pass(self.job) {
            let (word, after) = self.on_mail(t, MailWord::unpack(payload)?)?;
            Some((word.pack(), after))
        } else if self.waits {
            let (word, after) = self.on_sense(t, SenseWord::unpack(payload)?)?;
            Some((word.pack(), after))
        } else {
            let (word, after) = self.on_run(t, RunWord::unpack(payload)?)?;
            Some((word.pack(), after))
        }
    }

    /// The row of the step at which the train is.
    fn row<'a>(&self, t: &'a TrainTable) -> Option<&'a StepRow>
        requires table { IsUsable t.now }
        ensures row { option_copied result ≡ row_of t.now self.now }
        ensures named { IfSome result (λ row. CanBeNamed row.now) }
    {
        if (self.step as usize) < t.rows.len() {
            Some(t.rows.at(self.step as usize))
        } else {
            None
        }
    }

    /// Whether the step after its own looks ahead.
    fn looks_on(&self, t: &TrainTable) -> bool
        requires { self.now.step ≤ MAX_STEPS }
        ensures { result ≡ looks_on t.now self.now }
    {
        let after = self.step as usize + 1;
        after < t.rows.len() && looks_ahead(t.rows.at(after))
    }

    /// It posts a letter, or hears what is answered to it.
    fn on_mail(&self, t: &TrainTable, word: MailWord) -> Option<(MailWord, TrainMind)>
        requires table { IsUsable t.now }
        requires mind { IsTrainMind t.now self.now }
        ensures step { result ≡ on_mail t.now self.now word }
        ensures fits { IfSome result (λ r. FitsMail r.0) }
        ensures kept { IfSome result (λ r. IsTrainMind t.now r.1) }
    {
        match word {
            MailWord::Empty => self.post(t),
            MailWord::Yes(letter) => self.hear_yes(t, letter),
            MailWord::No(letter, holder) => self.hear_no(t, letter, holder),
            MailWord::Ask(_) | MailWord::Taken(_) => None,
        }
    }

    /// It posts the letter of its job.
    fn post(&self, t: &TrainTable) -> Option<(MailWord, TrainMind)>
        requires table { IsUsable t.now }
        requires mind { IsTrainMind t.now self.now }
        ensures step { result ≡ on_mail t.now self.now MailWord.Empty }
        ensures fits { IfSome result (λ r. FitsMail r.0) }
        ensures kept { IfSome result (λ r. IsTrainMind t.now r.1) }
    {
        if self.waits || self.at_rest(t) {
            return None;
        }
        let letter = letter(self.row(t)?, self.job)?;
        Some((MailWord::Ask(letter), self.posted()))
    }

    /// The box says yes to its letter.
    fn hear_yes(&self, t: &TrainTable, by: Letter) -> Option<(MailWord, TrainMind)>
        requires table { IsUsable t.now }
        requires mind { IsTrainMind t.now self.now }
        ensures step { result ≡ on_mail t.now self.now (MailWord.Yes by) }
        ensures fits { IfSome result (λ r. FitsMail r.0) }
        ensures kept { IfSome result (λ r. IsTrainMind t.now r.1) }
    {
        let row = self.row(t)?;
        if self.waits && asks(row, self.job, &by) {
            Some((MailWord::Empty, self.heard(row, self.looks_on(t))))
        } else {
            None
        }
    }

    /// The box says no to its letter.
    #[tactic(auto, using(crate::proofs::KeptLemmas::denied_kept))]
    fn hear_no(&self, t: &TrainTable, by: Letter, holder: TrainId) -> Option<(MailWord, TrainMind)>
        requires table { IsUsable t.now }
        requires mind { IsTrainMind t.now self.now }
        ensures step { result ≡ on_mail t.now self.now (MailWord.No by holder) }
        ensures fits { IfSome result (λ r. FitsMail r.0) }
        ensures kept { IfSome result (λ r. IsTrainMind t.now r.1) }
    {
        let row = self.row(t)?;
        if self.waits && asks(row, self.job, &by) {
            let next = after_no(row, self.job)?;
            Some((MailWord::Empty, self.denied(row, next)))
        } else {
            None
        }
    }

    /// It goes into the box.
    #[tactic(auto, unfolding(crate::specs::Jobs::is_near, crate::specs::Jobs::is_open, crate::specs::Jobs::is_pass, crate::specs::Jobs::names_next))]
    fn on_run(&self, t: &TrainTable, word: RunWord) -> Option<(RunWord, TrainMind)>
        requires table { IsUsable t.now }
        requires mind { IsTrainMind t.now self.now }
        ensures step { result ≡ on_run self.now word }
        ensures fits { IfSome result (λ r. FitsRun r.0) }
        ensures kept { IfSome result (λ r. IsTrainMind t.now r.1) }
    {
        match word {
            RunWord::Clear(k) if is_pass(self.job) && !self.waits && k == self.step => Some((
                RunWord::Go(k),
                TrainMind {
                    waits: true,
                    ..*self
                },
            )),
            _ => None,
        }
    }

    /// It hears that its tail is past the box.
    #[tactic(auto, unfolding(crate::specs::Jobs::is_near, crate::specs::Jobs::is_open, crate::specs::Jobs::is_pass, crate::specs::Jobs::names_next))]
    fn on_sense(&self, t: &TrainTable, word: SenseWord) -> Option<(SenseWord, TrainMind)>
        requires table { IsUsable t.now }
        requires mind { IsTrainMind t.now self.now }
        ensures step { result ≡ on_sense self.now word }
        ensures fits { IfSome result (λ r. FitsSense r.0) }
        ensures kept { IfSome result (λ r. IsTrainMind t.now r.1) }
    {
        match word {
            SenseWord::Tail(k) if is_pass(self.job) && self.waits && k == self.step => Some((
                SenseWord::Quiet(k + 1),
                TrainMind {
                    waits: false,
                    job: Job::Unlock,
                    ..*self
                },
            )),
            _ => None,
        }
    }

    /// The mind after a post.
    #[tactic(auto, using(crate::proofs::KeptLemmas::posted_kept))]
    fn posted(&self) -> TrainMind
        ensures mind { result ≡ posted self.now }
        ensures kept { (table : TrainTable) → IsTrainMind table self.now → self.now.waits ≡ false
            → at_rest table self.now ≡ false → IsTrainMind table result }
    {
        let left = if is_near(self.job) {
            self.left.saturating_sub(1)
        } else {
            self.left
        };
        TrainMind {
            waits: true,
            left,
            ..*self
        }
    }

    /// The mind after yes. At the end of a step that looked ahead the next attempt is opened, where one is left.
    fn heard(&self, row: &StepRow, more: bool) -> TrainMind
        requires { self.now.step ≤ MAX_STEPS }
        ensures { result ≡ heard row.now more self.now }
    {
        let spent = self.left == 0;
        let step = if ends_step(self.job) {
            self.step + 1
        } else {
            self.step
        };
        let left = if reopens(row, spent, self.job) {
            self.left.saturating_sub(1)
        } else {
            self.left
        };
        TrainMind {
            waits: false,
            job: after_yes(row, more, spent, self.job),
            step,
            left,
            ..*self
        }
    }

    /// The mind after no.
    #[tactic(auto, using(crate::proofs::KeptLemmas::denied_kept))]
    fn denied(&self, _row: &StepRow, next: Job) -> TrainMind
        requires { self.now.refused ≤ MAX_TRIES }
        ensures mind { result ≡ denied next self.now }
        ensures kept { (table : TrainTable) → IsTrainMind table self.now → self.now.waits ≡ true
            → row_of table self.now ≡ Some _row.now → after_no _row.now self.now.job ≡ Some next
            → IsTrainMind table result }
    {
        TrainMind {
            waits: false,
            job: next,
            refused: self.refused + 1,
            ..*self
        }
    }
}
