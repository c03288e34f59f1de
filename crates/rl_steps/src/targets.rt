ghost use Rattle.std.specs.Prelude.{◌≡◌, ℕ, ◌<◌, ◌≤◌, false, length, Some, IfSome, option_map};
ghost use Rattle.rl_base.specs.declared.layout.NodeKind.TheVariants as nodes;
ghost use Rattle.rl_base.specs.Layout.{node_count, word_count};
ghost use Rattle.rl_tables.specs.Starts.{layout_of};
ghost use Rattle.rl_steps.specs.declared.mind.Mind.TheVariants as minds;
ghost use Rattle.rl_steps.specs.Numbers.{node_at};
ghost use Rattle.rl_steps.specs.Sound.{IsMindOf};
ghost use Rattle.rl_steps.specs.Step.{target_of, is_ready, LooksAt};
ghost use Rattle.rl_steps.specs.Held.{HasMind};

use crate::laws::numbered;
use crate::mind::Mind;
use crate::who::{Who, identify};
use rl_base::{BoxId, NodeNo, TrainId, WordNo};
use rl_box::BoxMind;
use rl_tables::Line;
use rl_track::{MachineMind, TrackMind};
use rl_train::TrainMind;

/// The word at which a train looks, `None` at rest.
#[inline(always)]
fn train_target(line: &Line, node: NodeNo, t: TrainId, mind: &TrainMind) -> Option<WordNo>
    requires at { node_at (layout_of line.now) node.0 ≡ Some (nodes.Train t) }
    ensures number { (scan : ℕ) → option_map (λ w. w.0) result ≡ target_of line.now node.0 (minds.Train mind.now) scan }
    ensures within { IfSome result (λ w. w.0 < word_count (layout_of line.now)) }
{
    numbered();
    let lay = line.layout();
    mind.target(&lay, line.train_table(t))
}

/// The word at which a track looks.
#[inline(always)]
fn track_target(line: &Line, node: NodeNo, t: TrainId, mind: &TrackMind) -> WordNo
    requires at { node_at (layout_of line.now) node.0 ≡ Some (nodes.Track t) }
    ensures number { (scan : ℕ) → Some result.0 ≡ target_of line.now node.0 (minds.Track mind.now) scan }
    ensures within { result.0 < word_count (layout_of line.now) }
{
    numbered();
    mind.target(&line.layout(), t)
}

/// The word at which a box looks.
#[inline(always)]
fn box_target(line: &Line, node: NodeNo, b: BoxId, mind: &BoxMind, scan: u32) -> WordNo
    requires at { node_at (layout_of line.now) node.0 ≡ Some (nodes.Box b) }
    requires mind { IsMindOf line.now (nodes.Box b) (minds.Box mind.now) }
    requires scan { scan ≤ length line.now.trains }
    ensures number { Some result.0 ≡ target_of line.now node.0 (minds.Box mind.now) scan }
    ensures within { result.0 < word_count (layout_of line.now) }
{
    numbered();
    mind.target(&line.layout(), line.box_table(b), scan)
}

/// The word at which a point machine looks.
#[inline(always)]
fn machine_target(line: &Line, node: NodeNo, b: BoxId, mind: &MachineMind) -> WordNo
    requires at { node_at (layout_of line.now) node.0 ≡ Some (nodes.Machine b) }
    ensures number { (scan : ℕ) → Some result.0 ≡ target_of line.now node.0 (minds.Machine mind.now) scan }
    ensures within { result.0 < word_count (layout_of line.now) }
{
    numbered();
    mind.target(&line.layout(), b)
}

/// The word at which the node looks, by its kind.
#[inline(always)]
fn target_by_kind(line: &Line, node: NodeNo, mind: &Mind, scan: u32) -> Option<WordNo>
    requires there { node.0 < node_count (layout_of line.now) }
    requires mind { HasMind line.now node.0 mind.now }
    requires scan { scan ≤ length line.now.trains }
    ensures number { option_map (λ w. w.0) result ≡ target_of line.now node.0 mind.now scan }
    ensures within { IfSome result (λ w. w.0 < word_count (layout_of line.now)) }
{
    match identify(line, node, mind) {
        Who::Train(t, m) => train_target(line, node, t, m),
        Who::Track(t, m) => Some(track_target(line, node, t, m)),
        Who::Box(b, m) => Some(box_target(line, node, b, m, scan)),
        Who::Machine(b, m) => Some(machine_target(line, node, b, m)),
    }
}

/// The word at which the node looks, a ready box by the place that it scans; `None` exactly for a train at rest.
#[inline(always)]
pub fn target(line: &Line, node: NodeNo, mind: &Mind, scan: u32) -> Option<WordNo>
    requires there { node.0 < node_count (layout_of line.now) }
    requires mind { HasMind line.now node.0 mind.now }
    requires scan { scan ≤ length line.now.trains }
    ensures number { option_map (λ w. w.0) result ≡ target_of line.now node.0 mind.now scan }
    ensures within { IfSome result (λ w. w.0 < word_count (layout_of line.now)) }
    ensures looks { IfSome result (λ w. LooksAt line.now node.0 mind.now w.0) }
    ensures steady { is_ready mind.now ≡ false
        → (place : ℕ) → option_map (λ w. w.0) result ≡ target_of line.now node.0 mind.now place }
{
    target_by_kind(line, node, mind, scan)
}
