ghost use Rattle.std.specs.Prelude.{◌≡◌, IfSome};
ghost use Rattle.rl_words.specs.Mail.{FitsLetter, about_arm, about_passage};
ghost use Rattle.rl_train.specs.Jobs.{looks_ahead, letter, after_yes, after_no, reopens, asks, is_near, is_pass};
ghost use Rattle.rl_train.specs.Jobs.{ends_step};
ghost use Rattle.rl_train.specs.Mind.{CanBeNamed};

use rl_base::{Arm, BoxId, Job, Verb};
use rl_tables::StepRow;
use rl_words::Letter;

fn about_arm(to: BoxId, verb: Verb, x: Arm) -> Letter
    ensures { result ≡ about_arm to verb x }
{
    Letter {
        to,
        verb,
        x,
        y: Arm(0),
    }
}

/// Whether the row looks ahead.
pub(crate) fn looks_ahead(row: &StepRow) -> bool
    ensures { result ≡ looks_ahead row.now }
{
    row.next.is_some()
}

fn about_passage(row: &StepRow, verb: Verb) -> Letter
    ensures { result ≡ about_passage row.now.b verb row.now.x row.now.y }
{
    Letter {
        to: row.b,
        verb,
        x: row.x,
        y: row.y,
    }
}

/// What the train asks of a box in the job, at the row of its step. `None` in the job that passes.
#[tactic(auto, unfolding(crate::specs::Jobs::letter))]
pub(crate) fn letter(row: &StepRow, job: Job) -> Option<Letter>
    requires { CanBeNamed row.now }
    ensures letter { result ≡ letter row.now job }
    ensures fits { IfSome result FitsLetter }
{
    match job {
        Job::Near => Some(about_arm(row.b, Verb::Reserve, row.y)),
        Job::Far => Some(about_arm(row.c, Verb::Reserve, row.c_arm)),
        Job::Near2 => {
            let next = row.next?;
            Some(about_arm(next.b2, Verb::Reserve, next.b2_arm))
        }
        Job::Far2 => {
            let next = row.next?;
            Some(about_arm(next.c2, Verb::Reserve, next.c2_arm))
        }
        Job::Lock => Some(about_passage(row, Verb::Lock)),
        Job::Pass => None,
        Job::Unlock => Some(about_passage(row, Verb::Unlock)),
        Job::FreeNear => Some(about_arm(row.b, Verb::Release, row.x)),
        Job::FreeFar => Some(about_arm(row.a, Verb::Release, row.a_arm)),
        Job::DropFar2 => {
            let next = row.next?;
            Some(about_arm(next.c2, Verb::Release, next.c2_arm))
        }
        Job::DropNear2 => {
            let next = row.next?;
            Some(about_arm(next.b2, Verb::Release, next.b2_arm))
        }
        Job::DropFar => Some(about_arm(row.c, Verb::Release, row.c_arm)),
        Job::DropNear => Some(about_arm(row.b, Verb::Release, row.y)),
    }
}

/// Whether the job asks by this letter.
pub(crate) fn asks(row: &StepRow, job: Job, by: &Letter) -> bool
    requires { CanBeNamed row.now }
    ensures { result ≡ asks row.now job by.now }
{
    match letter(row, job) {
        Some(own) => own.is_same(by),
        None => false,
    }
}

/// The job after yes, and after the passage, at the row of the step. At its end: whether the row after it looks
/// ahead, and whether the train has no attempt left.
#[tactic(auto, unfolding(crate::specs::Jobs::after_yes))]
pub(crate) fn after_yes(row: &StepRow, more: bool, spent: bool, job: Job) -> Job
    ensures { result ≡ after_yes row.now more spent job }
{
    match job {
        Job::Near => Job::Far,
        Job::Far if looks_ahead(row) => Job::Near2,
        Job::Far => Job::Lock,
        Job::Near2 => Job::Far2,
        Job::Far2 => Job::Lock,
        Job::Lock => Job::Pass,
        Job::Pass => Job::Unlock,
        Job::Unlock => Job::FreeNear,
        Job::FreeNear => Job::FreeFar,
        Job::FreeFar if !looks_ahead(row) => Job::Near,
        Job::FreeFar if spent => Job::DropFar,
        Job::FreeFar if more => Job::Near2,
        Job::FreeFar => Job::Lock,
        Job::DropFar2 => Job::DropNear2,
        Job::DropNear2 => Job::DropFar,
        Job::DropFar => Job::DropNear,
        Job::DropNear => Job::Near,
    }
}

/// Whether the train opens its next attempt with the yes.
#[tactic(auto, unfolding(crate::specs::Jobs::reopens))]
pub(crate) fn reopens(row: &StepRow, spent: bool, job: Job) -> bool
    ensures { result ≡ reopens row.now spent job }
{
    match job {
        Job::FreeFar => looks_ahead(row) && !spent,
        _ => false,
    }
}

/// The job after no, at the row of the step. A release and an unlock are never refused.
#[tactic(auto, unfolding(crate::specs::Jobs::after_no))]
pub(crate) fn after_no(row: &StepRow, job: Job) -> Option<Job>
    ensures { result ≡ after_no row.now job }
{
    match job {
        Job::Near => Some(Job::Near),
        Job::Far => Some(Job::DropNear),
        Job::Near2 => Some(Job::DropFar),
        Job::Far2 => Some(Job::DropNear2),
        Job::Lock if looks_ahead(row) => Some(Job::DropFar2),
        Job::Lock => Some(Job::DropFar),
        Job::Pass | Job::Unlock | Job::FreeNear | Job::FreeFar => None,
        Job::DropFar2 | Job::DropNear2 | Job::DropFar | Job::DropNear => None,
    }
}

/// Whether a post in this job opens an attempt.
#[tactic(auto, unfolding(crate::specs::Jobs::is_near))]
pub(crate) fn is_near(job: Job) -> bool
    ensures { result ≡ is_near job }
{
    matches!(job, Job::Near)
}

/// Whether this is the job without a letter.
#[tactic(auto, unfolding(crate::specs::Jobs::is_pass))]
pub(crate) fn is_pass(job: Job) -> bool
    ensures { result ≡ is_pass job }
{
    matches!(job, Job::Pass)
}

/// Whether the job ends the step.
#[tactic(auto, unfolding(crate::specs::Jobs::ends_step))]
pub(crate) fn ends_step(job: Job) -> bool
    ensures { result ≡ ends_step job }
{
    matches!(job, Job::FreeFar)
}
