ghost use Rattle.std.specs.Prelude.{◌≡◌, ◌↔◌, IsTrue, false};
ghost use Rattle.std.specs.List.{list_any};
ghost use Rattle.rl_model.specs.declared.network.NetworkPlan.{NetworkPlan};
ghost use Rattle.rl_model.specs.Safety.{Collided, Derailed, IsKept};
ghost use Rattle.rl_domain.specs.States.{meets, any_meet};
ghost use Rattle.rl_model.specs.Network.{IsTrainOf};
ghost use Rattle.rl_domain.specs.Rests.{IsOffRails};
ghost use Rattle.rl_domain.specs.Rows.{world_of, Fits};

use crate::conditions::points_connect;
use crate::states::Standing;
use crate::world::World;
use rl_base::TrainId;
use rl_model::laws::safe_runs;
use rl_net::Network;

fn meets_any(x: &Standing, others: &[Standing]) -> bool
    ensures { result ≡ list_any (meets x.now) others.now }
{
    others.iter().any(|y| x.meets(y))
}

/// Whether some two of the trains are on one segment, or across one box.
fn any_meet(trains: &[Standing]) -> bool
    ensures { result ≡ any_meet trains.now }
{
    let mut rest = trains;
    while let [x, others @ ..] = rest {
        if meets_any(x, others) {
            return true;
        }
        rest = others;
    }
    false
}

impl World {
    /// Whether two trains occupy one segment, or stand across one box.
    pub fn collided(&self) -> bool
        ensures exact { (net : NetworkPlan) → (IsTrue result ↔ Collided (world_of net self.now)) }
        ensures kept { (net : NetworkPlan) → IsKept net (world_of net self.now) → result ≡ false }
    {
        safe_runs();
        any_meet(self.standings())
    }

    /// Whether the train is across a box whose points don't connect its two segments.
    fn is_off_rails(&self, net: &Network, t: TrainId) -> bool
        requires fits { Fits net.now self.now }
        requires there { IsTrainOf net.now t }
        ensures { IsTrue result ↔ IsOffRails net.now self.now t.0 }
    {
        let standing = self.standing(t);
        match standing.across {
            Some(p) => !points_connect(net, p.b, standing.on, p.to, self.points(p.b)),
            None => false,
        }
    }

    /// Whether some train is across a box whose points don't connect its two segments.
    pub fn derailed(&self, net: &Network) -> bool
        requires { Fits net.now self.now }
        ensures exact { IsTrue result ↔ Derailed net.now (world_of net.now self.now) }
        ensures kept { IsKept net.now (world_of net.now self.now) → result ≡ false }
    {
        safe_runs();
        for k in 0..net.trains() {
            if self.is_off_rails(net, TrainId(k)) {
                return true;
            }
        }
        false
    }
}
