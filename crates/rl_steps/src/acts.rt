ghost use Rattle.std.specs.Prelude.{◌≡◌, ◌<◌, false, Some};
ghost use Rattle.rl_base.specs.declared.layout.NodeKind.TheVariants as nodes;
ghost use Rattle.rl_base.specs.Layout.{node_count, word_count};
ghost use Rattle.rl_tables.specs.Starts.{layout_of};
ghost use Rattle.rl_steps.specs.declared.mind.Mind.TheVariants as minds;
ghost use Rattle.rl_steps.specs.Numbers.{node_at};
ghost use Rattle.rl_steps.specs.Sound.{IsMindOf};
ghost use Rattle.rl_steps.specs.Step.{node_step, is_ready, LooksAt};
ghost use Rattle.rl_steps.specs.Held.{HasMind};

use crate::laws::{numbered, steps_at_targets};
use crate::mind::Mind;
use crate::targets::target;
use crate::who::{Who, identify};
use rl_base::{BoxId, NodeNo, TrainId, WordNo};
use rl_box::BoxMind;
use rl_tables::Line;
use rl_track::{MachineMind, TrackMind};
use rl_train::{TrainMind, usable_tables};

/// The step of a train on the word at which it looks.
#[inline(always)]
fn train_act(
    line: &Line,
    node: NodeNo,
    t: TrainId,
    mind: &TrainMind,
    w: WordNo,
    payload: u32,
) -> Option<(u32, Mind)>
    requires at { node_at (layout_of line.now) node.0 ≡ Some (nodes.Train t) }
    requires mind { IsMindOf line.now (nodes.Train t) (minds.Train mind.now) }
    requires looks { LooksAt line.now node.0 (minds.Train mind.now) w.0 }
    ensures { result ≡ node_step line.now node.0 (minds.Train mind.now) w.0 payload }
{
    usable_tables();
    let _lay = line.layout();
    let table = line.train_table(t);
    let (payload, after) = mind.act(table, payload)?;
    Some((payload, Mind::Train(after)))
}

/// The step of the track of a train on the word at which it looks.
#[inline(always)]
fn track_act(
    line: &Line,
    node: NodeNo,
    t: TrainId,
    mind: &TrackMind,
    w: WordNo,
    payload: u32,
) -> Option<(u32, Mind)>
    requires at { node_at (layout_of line.now) node.0 ≡ Some (nodes.Track t) }
    requires mind { IsMindOf line.now (nodes.Track t) (minds.Track mind.now) }
    requires looks { LooksAt line.now node.0 (minds.Track mind.now) w.0 }
    ensures { result ≡ node_step line.now node.0 (minds.Track mind.now) w.0 payload }
{
    let (payload, after) = mind.act(payload)?;
    Some((payload, Mind::Track(after)))
}

/// The step of a box on the word, whichever word it is.
#[inline(always)]
fn box_act(
    line: &Line,
    node: NodeNo,
    b: BoxId,
    mind: &BoxMind,
    w: WordNo,
    payload: u32,
) -> Option<(u32, Mind)>
    requires at { node_at (layout_of line.now) node.0 ≡ Some (nodes.Box b) }
    requires mind { IsMindOf line.now (nodes.Box b) (minds.Box mind.now) }
    requires word { w.0 < word_count (layout_of line.now) }
    ensures { result ≡ node_step line.now node.0 (minds.Box mind.now) w.0 payload }
{
    numbered();
    let lay = line.layout();
    let table = line.box_table(b);
    let (payload, after) = mind.act(&lay, table, w, payload)?;
    Some((payload, Mind::Box(after)))
}

/// The step of a point machine on the word at which it looks.
#[inline(always)]
fn machine_act(
    line: &Line,
    node: NodeNo,
    b: BoxId,
    mind: &MachineMind,
    w: WordNo,
    payload: u32,
) -> Option<(u32, Mind)>
    requires at { node_at (layout_of line.now) node.0 ≡ Some (nodes.Machine b) }
    requires looks { LooksAt line.now node.0 (minds.Machine mind.now) w.0 }
    ensures { result ≡ node_step line.now node.0 (minds.Machine mind.now) w.0 payload }
{
    let (payload, after) = mind.act(payload)?;
    Some((payload, Mind::Machine(after)))
}

/// The step of the node on the word at which it looks, as `target` found it: the new payload and the new mind. `None`
/// exactly where it has no step there.
#[inline(always)]
pub fn act(line: &Line, node: NodeNo, mind: &Mind, w: WordNo, payload: u32) -> Option<(u32, Mind)>
    requires there { node.0 < node_count (layout_of line.now) }
    requires mind { HasMind line.now node.0 mind.now }
    requires word { w.0 < word_count (layout_of line.now) }
    requires looks { LooksAt line.now node.0 mind.now w.0 }
    ensures { result ≡ node_step line.now node.0 mind.now w.0 payload }
{
    match identify(line, node, mind) {
        Who::Train(t, m) => train_act(line, node, t, m, w, payload),
        Who::Track(t, m) => track_act(line, node, t, m, w, payload),
        Who::Box(b, m) => box_act(line, node, b, m, w, payload),
        Who::Machine(b, m) => machine_act(line, node, b, m, w, payload),
    }
}

/// The step of a node that looks at one word alone: none but there.
fn act_at_target(
    line: &Line,
    node: NodeNo,
    mind: &Mind,
    w: WordNo,
    payload: u32,
) -> Option<(u32, Mind)>
    requires there { node.0 < node_count (layout_of line.now) }
    requires mind { HasMind line.now node.0 mind.now }
    requires word { w.0 < word_count (layout_of line.now) }
    requires unready { is_ready mind.now ≡ false }
    ensures { result ≡ node_step line.now node.0 mind.now w.0 payload }
{
    steps_at_targets();
    let _lay = line.layout();
    let Some(looked) = target(line, node, mind, 0) else {
        return None;
    };
    if looked != w {
        return None;
    }
    act(line, node, mind, looked, payload)
}

/// The step of the node on the word, whichever word it is.
pub fn act_anywhere(
    line: &Line,
    node: NodeNo,
    mind: &Mind,
    w: WordNo,
    payload: u32,
) -> Option<(u32, Mind)>
    requires there { node.0 < node_count (layout_of line.now) }
    requires mind { HasMind line.now node.0 mind.now }
    requires word { w.0 < word_count (layout_of line.now) }
    ensures { result ≡ node_step line.now node.0 mind.now w.0 payload }
{
    match identify(line, node, mind) {
        Who::Box(b, m) => box_act(line, node, b, m, w, payload),
        Who::Train(_, _) | Who::Track(_, _) | Who::Machine(_, _) => {
            act_at_target(line, node, mind, w, payload)
        }
    }
}
