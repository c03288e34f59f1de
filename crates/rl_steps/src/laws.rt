ghost use Rattle.std.specs.Prelude.{◌≡◌, ℕ, ◌^◌, ◌<◌, ◌≤◌, List, length, Some};
ghost use Rattle.rl_base.specs.Tries.{AreFewTries};
ghost use Rattle.rl_base.specs.declared.layout.Layout.{Layout};
ghost use Rattle.rl_base.specs.declared.layout.NodeKind.{NodeKind};
ghost use Rattle.rl_base.specs.declared.layout.WordKind.{WordKind};
ghost use Rattle.rl_base.specs.Layout.{word_number, HasWord, node_number, HasNode};
ghost use Rattle.rl_words.specs.Owner.{Owns};
ghost use Rattle.rl_record.specs.declared.event.Event.{Event};
ghost use Rattle.rl_tables.specs.declared.table.Tables.{Tables};
ghost use Rattle.rl_tables.specs.Kept.{IsLine};
ghost use Rattle.rl_tables.specs.Starts.{layout_of};
ghost use Rattle.rl_steps.specs.declared.mind.Mind.{Mind};
ghost use Rattle.rl_steps.specs.Held.{HasMind};
ghost use Rattle.rl_steps.specs.Numbers.{node_at, word_at};
ghost use Rattle.rl_steps.specs.Run.{IsRun, state};
ghost use Rattle.rl_steps.specs.Sound.{IsMindOf, IsSound};
ghost use Rattle.rl_steps.specs.State.{start_mind};
ghost use Rattle.rl_steps.specs.Step.{node_step, LooksAt};

use rl_box::box_steps;
use rl_track::{machine_steps, track_steps};
use rl_train::{train_steps, usable_tables};

/// The node and the word of a number are those with that number.
pub fn numbered()
    ensures node { (lay : Layout) (kind : NodeKind) → HasNode lay kind
        → node_at lay (node_number lay kind) ≡ Some kind }
    ensures node_back { (lay : Layout) (n : ℕ) (kind : NodeKind) → node_at lay n ≡ Some kind
        → HasNode lay kind × (node_number lay kind ≡ n) }
    ensures word { (lay : Layout) (kind : WordKind) → HasWord lay kind
        → word_at lay (word_number lay kind) ≡ Some kind }
    ensures word_back { (lay : Layout) (w : ℕ) (kind : WordKind) → word_at lay w ≡ Some kind
        → HasWord lay kind × (word_number lay kind ≡ w) }
{}

/// A step changes a word at which its node looks.
pub fn steps_at_targets()
    ensures { (tables : Tables) (n w payload new : ℕ) (mind after : Mind) → IsLine tables → HasMind tables n mind
        → node_step tables n mind w payload ≡ Some (new, after) → LooksAt tables n mind w }
{
    // What each mind's steps keep to, for the proof.
    usable_tables();
    train_steps();
    track_steps();
    box_steps();
    machine_steps();
}

/// A step changes a word that its node owns, and its payload fits 32 bits.
pub fn steps_of_owners()
    ensures { (tables : Tables) (n w payload new : ℕ) (mind after : Mind) → IsLine tables
        → ((node : NodeKind) → node_at (layout_of tables) n ≡ Some node → IsMindOf tables node mind)
        → node_step tables n mind w payload ≡ Some (new, after) → Owns (layout_of tables) w payload n × (new < 2 ^ 32) }
{
    // What each mind's steps keep to, for the proof.
    usable_tables();
    train_steps();
    track_steps();
    box_steps();
    machine_steps();
}

/// The state after every run has its words, stamps and clocks in range, and well-formed minds.
pub fn sound_runs()
    ensures { (tables : Tables) (tries : ℕ) (events : List Event) → IsLine tables → AreFewTries tries
        → length events < 2 ^ 32 → IsRun tables tries events
        → IsSound tables (length events) (state tables tries events) }
{
    // What each mind's steps keep to, for the proof.
    usable_tables();
    train_steps();
    track_steps();
    box_steps();
    machine_steps();
}

/// Every node begins with a well-formed mind of its kind, and every step leaves it one.
pub fn kept_minds()
    ensures start { (tables : Tables) (tries n : ℕ) → AreFewTries tries → HasMind tables n (start_mind tables tries n) }
    ensures step { (tables : Tables) (n w payload new : ℕ) (mind after : Mind) → IsLine tables → HasMind tables n mind
        → node_step tables n mind w payload ≡ Some (new, after) → HasMind tables n after }
{
    // What each mind's steps keep to, for the proof.
    usable_tables();
    train_steps();
    track_steps();
    box_steps();
    machine_steps();
}
