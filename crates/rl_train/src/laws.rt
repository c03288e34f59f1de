ghost use Rattle.std.specs.Prelude.{◌≡◌, ◌↔◌, ℕ, false, Some, None, slice_get};
ghost use Rattle.rl_base.specs.declared.layout.Layout.{Layout};
ghost use Rattle.rl_base.specs.declared.layout.WordKind.{WordKind};
ghost use Rattle.rl_words.specs.Word.{Word, PackedStep};
ghost use Rattle.rl_tables.specs.declared.table.Tables.{Tables};
ghost use Rattle.rl_tables.specs.declared.table.TrainTable.{TrainTable};
ghost use Rattle.rl_tables.specs.Kept.{IsLine};
ghost use Rattle.rl_train.specs.declared.mind.TrainMind.{TrainMind};
ghost use Rattle.rl_train.specs.Glance.{may_hear};
ghost use Rattle.rl_train.specs.Kept.{IsTrainOn, KeepsTrain};
ghost use Rattle.rl_train.specs.Mind.{IsUsable};
ghost use Rattle.rl_train.specs.Steps.{TrainStep, train_on, train_step};

use rl_words::{letters, words};

/// The function of a train gives exactly the steps of the sentences: of words, and of their payloads. So it gives
/// none exactly where no line fits, and no two lines that fit differ.
pub fn train_lines()
    ensures words { (table : TrainTable) (mind : TrainMind) (word next : Word) (after : TrainMind)
        → (train_on table mind word ≡ Some (next, after)) ↔ TrainStep table mind word next after }
    ensures payloads { (table : TrainTable) (mind : TrainMind) (kind : WordKind) (payload new : ℕ) (after : TrainMind)
        → (train_step table mind kind payload ≡ Some (new, after)) ↔ PackedStep
        (TrainStep table mind) kind payload new after }
    ensures one { (table : TrainTable) (mind : TrainMind) (word next other : Word) (after last : TrainMind)
        → TrainStep table mind word next after → TrainStep table mind word other last
        → (next ≡ other) × (after ≡ last) }
{
    // Letters that are compared field by field are one, for the proof.
    letters();
}

/// Where a glance at a payload says no, the train has no step at any word with that payload.
pub fn train_glances()
    ensures { (table : TrainTable) (mind : TrainMind) (kind : WordKind) (payload : ℕ)
        → may_hear mind.waits mind.job payload ≡ false → train_step table mind kind payload ≡ None }
{
    // What is known of letters and of any word, for the proof.
    letters();
    words();
}

/// A step of a train changes the word that it looks at and owns, leaves a value of that word there, and a
/// well-formed mind.
pub fn train_steps()
    ensures { (lay : Layout) (table : TrainTable) (mind : TrainMind) (kind : WordKind) (payload new : ℕ)
        (after : TrainMind)
        → IsTrainOn lay table mind → train_step table mind kind payload ≡ Some (new, after)
        → KeepsTrain lay table mind kind payload new after }
{
    // What is known of letters and of any word, for the proof.
    letters();
    words();
}

/// The table of each train of a line is one by which a train can step.
pub fn usable_tables()
    ensures { (tables : Tables) (t : ℕ) (table : TrainTable) → IsLine tables → slice_get tables.trains t ≡ Some table
        → IsUsable table }
{}
