ghost use Rattle.std.specs.Prelude.{◌<◌};
ghost use Rattle.rl_base.specs.Layout.{node_count};
ghost use Rattle.rl_tables.specs.Starts.{layout_of};
ghost use Rattle.rl_steps.specs.Held.{HasMind};
ghost use Rattle.rl_steps.specs.Whos.{IsWho};

use crate::laws::numbered;
use crate::mind::Mind;
use rl_base::{BoxId, NodeNo, TrainId};
use rl_box::BoxMind;
use rl_tables::Line;
use rl_track::{MachineMind, TrackMind};
use rl_train::TrainMind;

/// Who a node is, with its mind.
#[derive(Clone, Copy, Debug)]
pub enum Who<'a> {
    Train(TrainId, &'a TrainMind),
    Track(TrainId, &'a TrackMind),
    Box(BoxId, &'a BoxMind),
    Machine(BoxId, &'a MachineMind),
}

/// Who the node is that has this mind: the mind says of which kind it is, and the layout at which number.
#[inline(always)]
pub fn identify<'a>(line: &Line, node: NodeNo, mind: &'a Mind) -> Who<'a>
    requires there { node.0 < node_count (layout_of line.now) }
    requires mind { HasMind line.now node.0 mind.now }
    ensures { IsWho line.now node.0 mind.now result }
{
    numbered();
    let lay = line.layout();
    match mind {
        Mind::Train(m) => Who::Train(TrainId(node.0), m),
        Mind::Track(m) => Who::Track(TrainId(node.0 - lay.trains), m),
        Mind::Box(m) => Who::Box(BoxId(node.0 - 2 * lay.trains), m),
        Mind::Machine(m) => Who::Machine(BoxId(node.0 - 2 * lay.trains - lay.boxes), m),
    }
}
