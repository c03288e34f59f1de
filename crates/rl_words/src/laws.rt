ghost use Rattle.std.specs.Prelude.{◌≡◌, ◌≢◌, ℕ, ◌+◌, ◌*◌, ◌^◌, ◌<◌, ◌≤◌, true, Option};
ghost use Rattle.rl_base.specs.declared.ids.TrainId.{TrainId};
ghost use Rattle.rl_base.specs.declared.layout.Layout.{Layout};
ghost use Rattle.rl_words.specs.declared.lock.LockWord.{LockWord};
ghost use Rattle.rl_words.specs.declared.mail.MailWord.{MailWord};
ghost use Rattle.rl_words.specs.declared.resv.ResvWord.{ResvWord};
ghost use Rattle.rl_words.specs.declared.run.RunWord.{RunWord};
ghost use Rattle.rl_words.specs.declared.sense.SenseWord.{SenseWord};
ghost use Rattle.rl_words.specs.Fields.{field, with_field};
ghost use Rattle.rl_words.specs.Lock.{FitsLock, packed_lock};
ghost use Rattle.rl_words.specs.Mail.{FitsMail, packed_mail, same_letter};
ghost use Rattle.rl_words.specs.declared.mail.Letter.{Letter};
ghost use Rattle.rl_words.specs.Owner.{Owns};
ghost use Rattle.rl_words.specs.Resv.{FitsArm, FitsResv, arm_code, packed_resv, arm_in, with_arm};
ghost use Rattle.rl_words.specs.Run.{FitsRun, packed_run};
ghost use Rattle.rl_words.specs.Sense.{FitsSense, packed_sense};
ghost use Rattle.rl_words.specs.Stamps.{stamp_in, payload_in, stamped};
ghost use Rattle.rl_words.specs.Readings.{read_resv, read_lock, read_mail, read_run, read_sense};
ghost use Rattle.rl_words.specs.Word.{Word, kind_of, FitsWord, packed_word, read_word, word_owner, IsReading};
ghost use Rattle.rl_base.specs.declared.layout.WordKind.{WordKind};
ghost use Rattle.rl_base.specs.Numbers.{IsU32};
ghost use Rattle.rl_base.specs.Layout.{HasWord, HasNode, word_number, node_number};

use rl_base::numberings;

/// Fields of numbers: a field is read where it stands between low and high ones; a field that was written is
/// read, and every other field is as it was.
pub fn bit_fields()
    ensures between { (low v high i n : ℕ) → low < 2 ^ i → v < 2 ^ n
        → field (low + v * 2 ^ i + high * 2 ^ (i + n)) i n ≡ v }
    ensures written { (x i n v : ℕ) → v < 2 ^ n → field (with_field x i n v) i n ≡ v }
    ensures lower { (x i n v j m : ℕ) → j + m ≤ i → field (with_field x i n v) j m ≡ field x j m }
    ensures higher { (x i n v j m : ℕ) → v < 2 ^ n → i + n ≤ j → field (with_field x i n v) j m ≡ field x j m }
    ensures same { (x i n : ℕ) → with_field x i n (field x i n) ≡ x }
{}

/// Two values of a word never share a packing.
pub fn packings()
    ensures resv { (v w : ResvWord) → FitsResv v → FitsResv w → packed_resv v ≡ packed_resv w → v ≡ w }
    ensures lock { (v w : LockWord) → FitsLock v → FitsLock w → packed_lock v ≡ packed_lock w → v ≡ w }
    ensures mail { (v w : MailWord) → FitsMail v → FitsMail w → packed_mail v ≡ packed_mail w → v ≡ w }
    ensures run { (v w : RunWord) → FitsRun v → FitsRun w → packed_run v ≡ packed_run w → v ≡ w }
    ensures sense { (v w : SenseWord) → FitsSense v → FitsSense w → packed_sense v ≡ packed_sense w → v ≡ w }
{}

/// One arm of a reservation word: its code is a field of the packing, and to change the arm is to write that
/// field and leaves every other arm as it was.
pub fn arms()
    ensures field { (w : ResvWord) (x : ℕ) → FitsResv w → x < 4
        → field (packed_resv w) (6 * x) 6 ≡ arm_code (arm_in w x) }
    ensures written { (w : ResvWord) (x : ℕ) (arm : Option TrainId) → FitsResv w → x < 4
        → packed_resv (with_arm w x arm) ≡ with_field (packed_resv w) (6 * x) 6 (arm_code arm) }
    ensures fits { (w : ResvWord) (x : ℕ) (arm : Option TrainId) → FitsResv w → FitsArm arm → x < 4
        → FitsResv (with_arm w x arm) }
    ensures same { (w : ResvWord) (x : ℕ) (arm : Option TrainId) → x < 4 → arm_in (with_arm w x arm) x ≡ arm }
    ensures others { (w : ResvWord) (x y : ℕ) (arm : Option TrainId) → x < 4 → y < 4 → y ≢ x
        → arm_in (with_arm w x arm) y ≡ arm_in w y }
{}

/// A word is its stamp and its payload.
pub fn stamps()
    ensures stamp { (stamp payload : ℕ) → IsU32 stamp → IsU32 payload → stamp_in (stamped stamp payload) ≡ stamp }
    ensures payload { (stamp payload : ℕ) → IsU32 payload → payload_in (stamped stamp payload) ≡ payload }
    ensures word { (word : ℕ) → word < 2 ^ 64 → stamped (stamp_in word) (payload_in word) ≡ word }
{}

/// At each value of a word at most one node may change it.
pub fn one_owner()
    ensures { (lay : Layout) (w payload m n : ℕ) → Owns lay w payload m → Owns lay w payload n → m ≡ n }
{
    // No two words have one number, for the proof.
    numberings();
}

/// Letters that are compared field by field are one.
pub fn letters()
    ensures same { (a b : Letter) → same_letter a b ≡ true → a ≡ b }
    ensures itself { (a : Letter) → same_letter a a ≡ true }
{}

/// Exactly a packing is read, as the value of which it is the packing.
pub fn readings()
    ensures resv { (v : ResvWord) → FitsResv v → read_resv (packed_resv v) ≡ Some v }
    ensures lock { (v : LockWord) → FitsLock v → read_lock (packed_lock v) ≡ Some v }
    ensures mail { (v : MailWord) → FitsMail v → read_mail (packed_mail v) ≡ Some v }
    ensures run { (v : RunWord) → FitsRun v → read_run (packed_run v) ≡ Some v }
    ensures sense { (v : SenseWord) → FitsSense v → read_sense (packed_sense v) ≡ Some v }

    ensures resv_only { (n : ℕ) (v : ResvWord) → read_resv n ≡ Some v → FitsResv v × (packed_resv v ≡ n) }
    ensures lock_only { (n : ℕ) (v : LockWord) → read_lock n ≡ Some v → FitsLock v × (packed_lock v ≡ n) }
    ensures mail_only { (n : ℕ) (v : MailWord) → read_mail n ≡ Some v → FitsMail v × (packed_mail v ≡ n) }
    ensures run_only { (n : ℕ) (v : RunWord) → read_run n ≡ Some v → FitsRun v × (packed_run v ≡ n) }
    ensures sense_only { (n : ℕ) (v : SenseWord) → read_sense n ≡ Some v → FitsSense v × (packed_sense v ≡ n) }
{}

/// The same of any word, whose payload has 32 bits, and which its owner owns.
pub fn words()
    ensures reads { (word : Word) → FitsWord word → read_word (kind_of word) (packed_word word) ≡ Some word }
    ensures only { (kind : WordKind) (n : ℕ) (word : Word) → read_word kind n ≡ Some word → IsReading kind n word }
    ensures small { (word : Word) → FitsWord word → IsU32 (packed_word word) }
    ensures owned { (lay : Layout) (word : Word) → HasWord lay (kind_of word) → HasNode lay (word_owner word)
        → FitsWord word → Owns lay (word_number lay (kind_of word)) (packed_word word)
        (node_number lay (word_owner word)) }
{}
