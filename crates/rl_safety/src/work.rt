ghost use Rattle.std.specs.Prelude.{◌≡◌, ◌↔◌, ℕ, ◌<◌, true, false, List, Some};
ghost use Rattle.rl_base.specs.Tries.{AreFewTries};
ghost use Rattle.rl_base.specs.declared.ids.BoxId.{BoxId};
ghost use Rattle.rl_base.specs.declared.layout.NodeKind.TheVariants as nodes;
ghost use Rattle.rl_base.specs.declared.layout.WordKind.TheVariants as words;
ghost use Rattle.rl_base.specs.Layout.{node_count};
ghost use Rattle.rl_record.specs.declared.event.Event.{Event};
ghost use Rattle.rl_record.specs.declared.event.Turn.TheVariants.{Idle, Moved, Rest};
ghost use Rattle.rl_steps.specs.Numbers.{node_at};
ghost use Rattle.rl_steps.specs.Run.{IsRun, state};
ghost use Rattle.rl_steps.specs.Step.{is_ready};
ghost use Rattle.rl_steps.specs.Turn.{Drive, answer_of};
ghost use Rattle.rl_protocol.specs.Minds.{train};
ghost use Rattle.rl_safety.specs.AtWork.{CanStep};
ghost use Rattle.rl_safety.specs.Readable.{AreReadable};
ghost use Rattle.rl_safety.specs.Reading.{mail_in};
ghost use Rattle.rl_safety.specs.Rests.{IsTrainAtRest};
ghost use Rattle.rl_words.specs.declared.mail.Letter.{Letter};
ghost use Rattle.rl_words.specs.declared.mail.MailWord.TheVariants.{Ask};
ghost use Rattle.rl_tables.specs.declared.table.Tables.{Tables};
ghost use Rattle.rl_tables.specs.Kept.{IsLine};
ghost use Rattle.rl_tables.specs.Starts.{layout_of};

use crate::laws::agreement;
use rl_box::{box_lines, box_steps};
use rl_protocol as protocol;
use rl_track::{machine_steps, track_steps};
use rl_train::{train_steps, usable_tables};
use rl_words::{readings, words};

/// After every run each word but the still one can be read.
pub fn readable_words()
    ensures { (tables : Tables) (tries : ℕ) (events : List Event)
        → IsLine tables → AreFewTries tries → IsRun tables tries events
        → AreReadable tables (state tables tries events) }
{
    usable_tables();
    train_steps();
    track_steps();
    box_steps();
    machine_steps();
    words();
    readings();
    protocol::lines_of_tables();
    protocol::agreement();
}

/// A box that serves a letter, or has an answer to say, makes an event in its turn, wherever it scans: a box idles only
/// while it is ready. A ready one has a step on each mailbox in which it is asked.
pub fn boxes_at_work()
    ensures moves { (tables : Tables) (tries : ℕ) (d : Drive) (n : ℕ) (b : BoxId)
        → IsLine tables → AreFewTries tries → IsRun tables tries d.events
        → node_at (layout_of tables) n ≡ Some (nodes.Box b) → is_ready ((state tables tries d.events).minds n) ≡ false
        → (e : Event) × (answer_of tables tries d n ≡ Moved e) }
    ensures idles { (tables : Tables) (tries : ℕ) (d : Drive) (n : ℕ) (b : BoxId) (word : ℕ)
        → IsLine tables → AreFewTries tries → IsRun tables tries d.events
        → node_at (layout_of tables) n ≡ Some (nodes.Box b) → answer_of tables tries d n ≡ Idle word
        → is_ready ((state tables tries d.events).minds n) ≡ true }
    ensures asked { (tables : Tables) (tries : ℕ) (events : List Event) (n t : ℕ) (l : Letter)
        → IsLine tables → AreFewTries tries → IsRun tables tries events
        → node_at (layout_of tables) n ≡ Some (nodes.Box l.to) → is_ready ((state tables tries events).minds n) ≡ true
        → mail_in tables (state tables tries events) t ≡ Ask l
        → CanStep tables (state tables tries events) n (words.Mail (train t)) }
{
    usable_tables();
    train_steps();
    track_steps();
    box_steps();
    machine_steps();
    words();
    box_lines();
    agreement();
    readable_words();
    protocol::sentences_as_steps();
}

/// A turn answers Rest exactly for a train at rest.
pub fn turns_at_rest()
    ensures { (tables : Tables) (tries : ℕ) (d : Drive) (n : ℕ)
        → IsLine tables → AreFewTries tries → IsRun tables tries d.events → n < node_count (layout_of tables)
        → (answer_of tables tries d n ≡ Rest) ↔ IsTrainAtRest tables (state tables tries d.events) n }
{
    usable_tables();
    train_steps();
    track_steps();
    box_steps();
    machine_steps();
}
