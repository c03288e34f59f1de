ghost use Rattle.std.specs.Prelude.{◌≡◌, ◌≢◌, ◌+◌, ◌*◌, ◌%◌, ◌^◌, ◌<◌, ◌≤◌, ◌↔◌, IsTrue, IfSome, IfNone};
ghost use Rattle.rl_words.specs.declared.mail.Letter.{Letter};
ghost use Rattle.rl_words.specs.declared.mail.MailWord.{MailWord};
ghost use Rattle.rl_words.specs.Mail.{FitsArms, FitsLetter, IsRefusable, FitsMail, verb_code, same_letter, packed_letter, packed_mail};
ghost use Rattle.rl_words.specs.Readings.{read_mail};

use crate::field::{field, with_bits};
use rl_base::limits::MAX_TRAINS;
use rl_base::{Arm, BoxId, TrainId, Verb};

/// What a train asks of a box: the arm `x`, and for a lock or an unlock the passage from arm `x` to arm `y`. For
/// a reservation or a release `y` is 0.
#[derive(Clone, Copy, Debug, PartialEq, Eq)]
pub struct Letter {
    pub to: BoxId,
    pub verb: Verb,
    pub x: Arm,
    pub y: Arm,
}

/// The word by which a train and the boxes write to each other: empty, or a letter that is asked, taken by its
/// box, or answered. A No has the train that holds what was asked for.
#[derive(Clone, Copy, Debug, PartialEq, Eq)]
pub enum MailWord {
    Empty,
    Ask(Letter),
    Taken(Letter),
    Yes(Letter),
    No(Letter, TrainId),
}

fn verb_code(verb: Verb) -> u32
    ensures code { result ≡ verb_code verb }
    ensures small { result < 4 }
{
    match verb {
        Verb::Reserve => 0,
        Verb::Release => 1,
        Verb::Lock => 2,
        Verb::Unlock => 3,
    }
}

fn verb_of(code: u32) -> Verb
    requires { code < 4 }
    ensures { verb_code result ≡ code }
{
    match code {
        0 => Verb::Reserve,
        1 => Verb::Release,
        2 => Verb::Lock,
        _ => Verb::Unlock,
    }
}

/// Whether a letter with the verb may name these arms.
fn are_arms_of(verb: Verb, x: Arm, y: Arm) -> bool
    ensures { IsTrue result ↔ FitsArms verb x.0 y.0 }
{
    match verb {
        Verb::Reserve | Verb::Release => y.0 == 0,
        Verb::Lock | Verb::Unlock => x.0 != y.0,
    }
}

fn is_refusable(verb: Verb) -> bool
    ensures { IsTrue result ↔ IsRefusable verb }
{
    matches!(verb, Verb::Reserve | Verb::Lock)
}

/// A tag below 8 in bits 0 to 2, with the letter above it: the box in bits 3 to 9, the verb in bits 10 and 11,
/// `x` in bits 12 and 13, `y` in bits 14 and 15.
fn pack_letter(tag: u32, letter: &Letter) -> u32
    requires tag { tag < 8 }
    requires letter { FitsLetter letter.now }
    ensures packed { result ≡ tag + packed_letter letter.now }
    ensures small { result < 2 ^ 16 }
{
    let word = with_bits(tag, 3, letter.to.0);
    let word = with_bits(word, 10, verb_code(letter.verb));
    let word = with_bits(word, 12, letter.x.0);
    with_bits(word, 14, letter.y.0)
}

/// The letter in bits 3 to 15 of a payload, and `None` where they are none.
fn letter_of(payload: u32) -> Option<Letter>
    ensures some { IfSome result (λ l. FitsLetter l × (payload % 8 + packed_letter l ≡ payload % 2 ^ 16)) }
    ensures none { IfNone result ((l : Letter) → FitsLetter l → payload % 8 + packed_letter l ≢ payload % 2 ^ 16) }
{
    let to = BoxId(field(payload, 3, 7));
    let verb = verb_of(field(payload, 10, 2));
    let x = Arm(field(payload, 12, 2));
    let y = Arm(field(payload, 14, 2));
    if are_arms_of(verb, x, y) {
        Some(Letter { to, verb, x, y })
    } else {
        None
    }
}

/// The word of a payload, and `None` where the payload is no packing.
fn mail_of(payload: u32) -> Option<MailWord>
    ensures some { IfSome result (λ v. FitsMail v × (packed_mail v ≡ payload)) }
    ensures none { IfNone result ((v : MailWord) → FitsMail v → packed_mail v ≢ payload) }
    ensures back { (v : MailWord) → FitsMail v → packed_mail v ≡ payload → result ≡ Some v }
{
    if payload == 0 {
        return Some(MailWord::Empty);
    }
    let letter = letter_of(payload)?;
    let above = field(payload, 16, 16);
    match field(payload, 0, 3) {
        1 if above == 0 => Some(MailWord::Ask(letter)),
        2 if above == 0 => Some(MailWord::Taken(letter)),
        3 if above == 0 => Some(MailWord::Yes(letter)),
        4 if above < MAX_TRAINS as u32 && is_refusable(letter.verb) => Some(MailWord::No(
            letter,
            TrainId(above),
        )),
        _ => None,
    }
}

impl Letter {
    /// Whether the two letters are one.
    pub fn is_same(&self, other: &Letter) -> bool
        ensures { result ≡ same_letter self.now other.now }
    {
        self.to.0 == other.to.0
            && verb_code(self.verb) == verb_code(other.verb)
            && self.x.0 == other.x.0
            && self.y.0 == other.y.0
    }
}

impl MailWord {
    /// The tag is in bits 0 to 2. Of a letter the box is in bits 3 to 9, the verb in bits 10 and 11, `x` in bits
    /// 12 and 13, and `y` in bits 14 and 15. The holder of a No is in bits 16 to 20.
    pub fn pack(&self) -> u32
        requires { FitsMail self.now }
        ensures { result ≡ packed_mail self.now }
    {
        match *self {
            MailWord::Empty => 0,
            MailWord::Ask(letter) => pack_letter(1, &letter),
            MailWord::Taken(letter) => pack_letter(2, &letter),
            MailWord::Yes(letter) => pack_letter(3, &letter),
            MailWord::No(letter, holder) => with_bits(pack_letter(4, &letter), 16, holder.0),
        }
    }

    /// The word of a payload, and `None` where the payload is no packing.
    pub fn unpack(payload: u32) -> Option<MailWord>
        ensures some { IfSome result (λ v. FitsMail v × (packed_mail v ≡ payload)) }
        ensures none { IfNone result ((v : MailWord) → FitsMail v → packed_mail v ≢ payload) }
        ensures back { (v : MailWord) → FitsMail v → packed_mail v ≡ payload → result ≡ Some v }
        ensures read { result ≡ read_mail payload }
    {
        mail_of(payload)
    }
}
