ghost use Rattle.std.specs.Prelude.{◌≡◌, ℕ, ◌*◌, ◌<◌, ◌≤◌, ◌⊎◌, true, List, length, slice_get, Some};
ghost use Rattle.rl_base.specs.declared.limits.TheConstants.{MAX_ATTEMPT_EVENTS, MAX_ATTEMPT_NODE_EVENTS};
ghost use Rattle.rl_base.specs.declared.limits.TheConstants.{MAX_ATTEMPT_MOVES};
ghost use Rattle.rl_base.specs.Tries.{AreFewTries};
ghost use Rattle.rl_base.specs.declared.layout.NodeKind.{NodeKind};
ghost use Rattle.rl_model.specs.declared.moves.Move.{Move};
ghost use Rattle.rl_model.specs.declared.network.NetworkPlan.{NetworkPlan};
ghost use Rattle.rl_model.specs.declared.report.Fate.TheVariants.{Arrived, Spent};
ghost use Rattle.rl_model.specs.declared.report.Outcome.{Outcome};
ghost use Rattle.rl_model.specs.Moves.{IsMoveOf};
ghost use Rattle.rl_model.specs.Network.{IsNetwork};
ghost use Rattle.rl_model.specs.Reports.{refused_in, Rests, IsRightReport, IsReportOf};
ghost use Rattle.rl_model.specs.Safety.{IsSafeRun, world_after};
ghost use Rattle.rl_protocol.specs.Agreement.{Agrees};
ghost use Rattle.rl_protocol.specs.Minds.{at_rest};
ghost use Rattle.rl_protocol.specs.Refusals.{refusals_said};
ghost use Rattle.rl_protocol.specs.Rest.{AllAtRest, HoldsSegmentsAlone};
ghost use Rattle.rl_protocol.specs.TableLine.{line_of};
ghost use Rattle.rl_record.specs.declared.event.Event.{Event};
ghost use Rattle.rl_steps.specs.Numbers.{node_at};
ghost use Rattle.rl_steps.specs.Run.{IsRun, state};
ghost use Rattle.rl_safety.specs.Counts.{events_by, attempts_of};
ghost use Rattle.rl_safety.specs.Moves.{moves_of};
ghost use Rattle.rl_safety.specs.Reading.{read};
ghost use Rattle.rl_safety.specs.Reports.{report_of};
ghost use Rattle.rl_safety.specs.Rests.{AllTrainsRest};
ghost use Rattle.rl_safety.specs.Stepped.{IsStepped};
ghost use Rattle.rl_safety.specs.World.{world_of_core};
ghost use Rattle.rl_tables.specs.declared.table.Tables.{Tables};
ghost use Rattle.rl_tables.specs.Kept.{IsLine};
ghost use Rattle.rl_tables.specs.Starts.{layout_of};
ghost use Rattle.rl_tables.specs.Tables.{AreTablesOf};

use rl_box::box_steps;
use rl_model::laws::counted_leaves;
use rl_protocol as protocol;
use rl_tables::tables_of_networks;
use rl_track::{machine_steps, track_steps};
use rl_train::{train_steps, usable_tables};
use rl_words::{readings, words};

/// Every run of events is a run of steps of the protocol: with the same states, moves and counts.
pub fn steps_of_events()
    ensures { (tables : Tables) (tries : ℕ) (events : List Event)
        → IsLine tables → AreFewTries tries → IsRun tables tries events → IsStepped tables tries events }
{
    usable_tables();
    train_steps();
    track_steps();
    box_steps();
    machine_steps();
    words();
    readings();
    protocol::lines_of_tables();
    protocol::agreement();
}

/// Minds and words agree after every run, whichever nodes made its events and in whatever order.
pub fn agreement()
    ensures { (tables : Tables) (tries : ℕ) (events : List Event)
        → IsLine tables → AreFewTries tries → IsRun tables tries events
        → Agrees (line_of tables) tries (read tables tries (state tables tries events)) }
{
    steps_of_events();
    protocol::lines_of_tables();
    protocol::agreement();
}

/// The moves of every run on the tables of a network are a safe run of the network: each names what is there and is
/// guarded in the world that the moves before it made, and the words say that world.
pub fn safe_runs()
    ensures runs { (net : NetworkPlan) (tables : Tables) (tries : ℕ) (events : List Event)
        → IsNetwork net → AreTablesOf net tables → AreFewTries tries → IsRun tables tries events
        → IsSafeRun net (moves_of tables events) }
    ensures world { (net : NetworkPlan) (tables : Tables) (tries : ℕ) (events : List Event)
        → IsNetwork net → AreTablesOf net tables → AreFewTries tries → IsRun tables tries events
        → world_of_core net tables (state tables tries events) ≡ world_after net (moves_of tables events) }
    ensures named { (net : NetworkPlan) (tables : Tables) (tries : ℕ) (events : List Event)
        → IsNetwork net → AreTablesOf net tables → AreFewTries tries → IsRun tables tries events
        → (k : ℕ) (m : Move) → slice_get (moves_of tables events) k ≡ Some m → IsMoveOf net m }
{
    steps_of_events();
    tables_of_networks();
    protocol::lines_of_tables();
    protocol::safe_runs_of_steps();
}

/// After every run the Refuse and Bar moves of a train are the refusals that it has heard, and the one in its mailbox.
pub fn counted_refusals()
    ensures { (tables : Tables) (tries : ℕ) (events : List Event) (t : ℕ)
        → IsLine tables → AreFewTries tries → IsRun tables tries events
        → refused_in (moves_of tables events) t ≡ refusals_said (read tables tries (state tables tries events)) t }
{
    steps_of_events();
    protocol::lines_of_tables();
    protocol::counted_refusals();
}

/// Where every train rests, each holds its own segment at both ends and nothing else, no box has a lock, and no letter
/// is on its way. A single train at rest rests in the world.
pub fn trains_at_rest()
    ensures all { (tables : Tables) (tries : ℕ) (events : List Event)
        → IsLine tables → AreFewTries tries → IsRun tables tries events
        → AllAtRest (line_of tables) (read tables tries (state tables tries events))
        → HoldsSegmentsAlone (line_of tables) (read tables tries (state tables tries events)) }
    ensures each { (net : NetworkPlan) (tables : Tables) (tries : ℕ) (events : List Event) (t : ℕ)
        → IsNetwork net → AreTablesOf net tables → AreFewTries tries → IsRun tables tries events → t < length net.trains
        → at_rest (line_of tables) t ((read tables tries (state tables tries events)).trains t) ≡ true
        → Rests net (world_of_core net tables (state tables tries events)) t }
{
    steps_of_events();
    tables_of_networks();
    protocol::lines_of_tables();
    protocol::trains_at_rest();
}

/// In every run all events together, those of each node, and the moves are at most so many for each attempt opened.
pub fn counted_events()
    ensures events { (tables : Tables) (tries : ℕ) (events : List Event)
        → IsLine tables → AreFewTries tries → IsRun tables tries events
        → length events ≤ MAX_ATTEMPT_EVENTS * attempts_of tables tries events }
    ensures node { (tables : Tables) (tries : ℕ) (events : List Event) (n : ℕ) (node : NodeKind)
        → IsLine tables → AreFewTries tries → IsRun tables tries events → node_at (layout_of tables) n ≡ Some node
        → events_by n events ≤ MAX_ATTEMPT_NODE_EVENTS * attempts_of tables tries events }
    ensures moves { (tables : Tables) (tries : ℕ) (events : List Event)
        → IsLine tables → AreFewTries tries → IsRun tables tries events
        → length (moves_of tables events) ≤ MAX_ATTEMPT_MOVES * attempts_of tables tries events }
    ensures opened { (tables : Tables) (tries : ℕ) (events : List Event)
        → attempts_of tables tries events ≤ length tables.trains * tries }
{
    steps_of_events();
    protocol::lines_of_tables();
    protocol::counted_steps();
}

/// The report of every run of events on the tables of a network is right, and is one of the network. Where every train
/// rests in the end, each has arrived or spent its attempts.
pub fn right_reports()
    ensures right { (net : NetworkPlan) (tables : Tables) (tries : ℕ) (events : List Event)
        → IsNetwork net → AreTablesOf net tables → 1 ≤ tries → AreFewTries tries → IsRun tables tries events
        → IsRightReport net (report_of tables tries events) }
    ensures of { (net : NetworkPlan) (tables : Tables) (tries : ℕ) (events : List Event)
        → IsNetwork net → AreTablesOf net tables → 1 ≤ tries → AreFewTries tries → IsRun tables tries events
        → IsReportOf net (report_of tables tries events) }
    ensures ended { (tables : Tables) (tries : ℕ) (events : List Event) (t : ℕ) (o : Outcome)
        → AllTrainsRest tables (state tables tries events) → slice_get (report_of tables tries events).outcomes t ≡ Some o
        → (o.fate ≡ Arrived) ⊎ (o.fate ≡ Spent) }
{
    safe_runs();
    agreement();
    counted_refusals();
    trains_at_rest();
    counted_leaves();
    tables_of_networks();
    protocol::lines_of_tables();
}
