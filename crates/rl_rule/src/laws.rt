ghost use Rattle.std.specs.Prelude.{ℕ, List};
ghost use Rattle.rl_base.specs.declared.ids.BoxId.{BoxId};
ghost use Rattle.rl_base.specs.declared.layout.NodeKind.TheVariants as nodes;
ghost use Rattle.rl_base.specs.declared.layout.WordKind.TheVariants as words;
ghost use Rattle.rl_base.specs.Layout.{HasWord, word_number, node_number};
ghost use Rattle.rl_record.specs.declared.event.Event.{Event};
ghost use Rattle.rl_tables.specs.Starts.{layout_of};
ghost use Rattle.rl_rule.specs.Loads.{IsAlone};
ghost use Rattle.atomic_table.specs.Table.{State};
ghost use Rattle.rl_tables.specs.declared.table.Tables.{Tables};
ghost use Rattle.rl_rule.specs.declared.views.View.{View};
ghost use Rattle.rl_rule.specs.Ruled.{IsRuled};
ghost use Rattle.rl_rule.specs.Rule.{Rule};
ghost use Rattle.rl_rule.specs.Moments.{IsMoment};

use rl_base::numberings;
use rl_merge::{chained_runs, chains_of_runs};
use rl_steps::sound_runs;

/// Where all that the threads did is one run, the rule of the rails holds: places, histories, chains, fresh loads and
/// bounds. The table keeps the first between any two atomic steps, so the second holds between any two as well.
pub fn rule_of_rails()
    ensures { (tables : Tables) (tries : ℕ) (s : State (Unit {0}) View) → IsRuled tables tries s
        → Rule tables tries s.words s.views }
{
    // What is so after every run, and of its chains, for the proof.
    sound_runs();
    chains_of_runs();
}

/// Where the rule of the rails holds, the histories of the nodes have a merge, of which there is only one. Its replay
/// succeeds, and leads to the words of the table and to the minds in the views. So at every moment, whatever the threads
/// did, the words and the minds are those of the replay of the merge of what the nodes have done so far.
pub fn moments_of_rule()
    ensures { (tables : Tables) (tries : ℕ) (words : List ℕ) (views : List View)
        → (rule : Rule tables tries words views)
        → (merged : List Event) × IsMoment tables tries rule.histories words views merged }
{
    // What chained histories come to, for the proof.
    chained_runs();
}

/// Nobody but the box may ever change its reservations, so a load of them gives what the box wrote last.
pub fn alone_with_reservations()
    ensures { (tables : Tables) (b : BoxId) → HasWord (layout_of tables) (words.Resv b)
        → IsAlone tables (word_number (layout_of tables) (words.Resv b))
        (node_number (layout_of tables) (nodes.Box b)) }
{
    numberings();
}
