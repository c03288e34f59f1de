ghost use Rattle.std.specs.Prelude.{◌≡◌, ◌≤◌, ◌<◌, [], Some};
ghost use Rattle.rl_words.specs.Stamps.{stamp_in};
ghost use Rattle.rl_rule.specs.declared.views.Load.{Load};
ghost use Rattle.rl_rule.specs.declared.views.Role.TheVariants.{Node};
ghost use Rattle.rl_rule.specs.Loads.{most_events};

use crate::rule::Place;
use crate::views::Load;
use rl_base::NodeNo;

/// A node's seat at the table: its number, its clock and its last load, and in the proofs all that it knows, its
/// `Walk`. It may go to any thread.
#[derive(Drop)]
pub struct NodeSeat {
    pub(crate) seat: Place,
    pub(crate) node: NodeNo,
    pub(crate) clock: u32,
    pub(crate) load: Option<Load>,
    ghost role: { seat.me.0.role ≡ Node },
    ghost slots: { seat.me.1 ≡ [] },
    ghost node_is: { seat.me.0.walk.node ≡ node },
    ghost clock_is: { seat.me.0.walk.clock ≡ clock },
    ghost load_is: { seat.me.0.walk.load ≡ load },
    ghost clock_fits: { clock ≤ most_events },
    ghost stamp_fits: { (l : Load) → load ≡ Some l → stamp_in l.value ≤ most_events },
    ghost word_there: { (l : Load) → load ≡ Some l → l.word.0 < seat.table_id.words },
}

impl NodeSeat {
    ghost use Rattle.rl_rule.specs.Seats.{walk_of};

    /// The number of the node.
    pub fn node(&self) -> NodeNo
        ensures { result ≡ (walk_of self.now).node }
    {
        self.node
    }
}
