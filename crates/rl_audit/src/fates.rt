ghost use Rattle.std.specs.Prelude.{◌≡◌, ◌+◌, ◌↔◌, IsTrue};
ghost use Rattle.rl_model.specs.Network.{IsTrainOf};
ghost use Rattle.rl_model.specs.Reports.{FateFits};
ghost use Rattle.rl_domain.specs.Rows.{world_of, Fits};

use rl_base::TrainId;
use rl_domain::World;
use rl_model::{Fate, Outcome};
use rl_net::Network;

fn attempts(o: Outcome) -> u64
    ensures { result ≡ o.made + o.refused }
{
    u64::from(o.made) + u64::from(o.refused)
}

/// Whether the fate fits the train, with the outcome's numbers and the world as it is in the end.
pub(crate) fn fate_fits(net: &Network, tries: u32, world: &World, t: TrainId, o: Outcome) -> bool
    requires fits { Fits net.now world.now }
    requires train { IsTrainOf net.now t }
    ensures { IsTrue result ↔ FateFits net.now tries (world_of net.now world.now) t.0 o.made o.refused o.fate }
{
    match o.fate {
        Fate::Arrived => o.made == net.steps(t) && world.rests(net, t),
        Fate::Spent => {
            o.made < net.steps(t) && attempts(o) == u64::from(tries) && world.rests(net, t)
        }
        Fate::Underway => attempts(o) <= u64::from(tries),
    }
}
