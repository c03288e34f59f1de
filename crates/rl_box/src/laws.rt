ghost use Rattle.std.specs.Prelude.{◌≡◌, ◌↔◌, ℕ, false, Some, None};
ghost use Rattle.rl_base.specs.declared.layout.Layout.{Layout};
ghost use Rattle.rl_base.specs.declared.layout.WordKind.{WordKind};
ghost use Rattle.rl_words.specs.Word.{PackedStep};
ghost use Rattle.rl_tables.specs.declared.table.BoxTable.{BoxTable};
ghost use Rattle.rl_box.specs.declared.mind.BoxMind.{BoxMind};
ghost use Rattle.rl_box.specs.Glance.{may_step};
ghost use Rattle.rl_box.specs.Kept.{IsAtWord, KeepsBox};
ghost use Rattle.rl_box.specs.Steps.{BoxStep, box_step};

use rl_words::{arms, letters, words};

/// The function of a box gives exactly the steps of the sentences. So it gives none exactly where no line fits, and no
/// two lines that fit differ.
pub fn box_lines()
    ensures { (b : BoxTable) (mind : BoxMind) (kind : WordKind) (payload new : ℕ) (after : BoxMind)
        → (box_step b mind kind payload ≡ Some (new, after)) ↔ PackedStep (BoxStep b mind) kind payload new after }
{
    // Letters that are compared field by field are one, for the proof.
    letters();
}

/// Where a glance at a payload says no, the box has no step at any word with that payload.
pub fn box_glances()
    ensures { (b : BoxTable) (mind : BoxMind) (kind : WordKind) (payload : ℕ)
        → may_step b.number mind.work mind.waiting payload ≡ false → box_step b mind kind payload ≡ None }
{
    // What is known of letters and of any word, for the proof.
    letters();
    words();
}

/// A step of a box changes a word that it looks at and owns, leaves a value of that word there, and a well-formed mind.
pub fn box_steps()
    ensures { (lay : Layout) (b : BoxTable) (mind : BoxMind) (kind : WordKind) (payload new : ℕ) (after : BoxMind)
        → IsAtWord lay b mind kind → box_step b mind kind payload ≡ Some (new, after)
        → KeepsBox lay b mind kind payload new after }
{
    // What is known of letters, of the arms of a word and of any word, for the proof.
    letters();
    arms();
    words();
}
