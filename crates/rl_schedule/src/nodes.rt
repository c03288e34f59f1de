ghost use Rattle.std.specs.Prelude.{◌≡◌, ◌≢◌, ℕ, ◌<◌, length, option_map, IfSome, IfNone, IsTrue};
ghost use Rattle.rl_model.specs.Network.{box_name, train_name};
ghost use Rattle.rl_schedule.specs.Readings.{box_named, nodes_of, number_in, train_named};

use crate::roles::Role;
use rl_base::{BoxId, NodeKind, NodeNo, TrainId, name_ok};
use rl_net::Network;

/// Where a name was found last, and the place after it. Most schedules go round, so a name is looked for at these
/// places first. No answer depends on them.
#[derive(Clone, Copy, Debug)]
struct Trail {
    last: u32,
    next: u32,
}

impl Trail {
    const START: Trail = Trail { last: 0, next: 0 };

    /// A name was found at the place, among so many.
    #[inline(always)]
    fn at(place: u32, count: u32) -> Trail
        requires { place < count }
    {
        let next = if place + 1 < count { place + 1 } else { 0 };
        Trail { last: place, next }
    }
}

/// The trails of the names, one for each role.
#[derive(Clone, Copy, Debug)]
pub(crate) struct Near {
    train: Trail,
    track: Trail,
    switch_box: Trail,
    machine: Trail,
}

impl Near {
    /// Before the first name.
    pub const START: Near = Near {
        train: Trail::START,
        track: Trail::START,
        switch_box: Trail::START,
        machine: Trail::START,
    };
}

/// Whether the texts are the same. Names are short, and differ at their ends most.
#[inline(always)]
fn is_same(text: &[u8], other: &[u8]) -> bool
    ensures { IsTrue result → text.now ≡ other.now }
{
    if text.len() != other.len() {
        return false;
    }
    let mut left = text.len();
    while left > 0 {
        left -= 1;
        if text[left] != other[left] {
            return false;
        }
    }
    true
}

/// Whether a train stands at the place, and has the name.
#[inline(always)]
fn is_train(net: &Network, place: u32, name: &[u8]) -> bool
    ensures there { IsTrue result → place < length net.now.trains }
    ensures named { IsTrue result → train_name net.now place ≡ name.now }
{
    place < net.trains() && is_same(net.train_name(TrainId(place)), name)
}

/// Whether a box stands at the place, and has the name.
#[inline(always)]
fn is_box(net: &Network, place: u32, name: &[u8]) -> bool
    ensures there { IsTrue result → place < length net.now.boxes }
    ensures named { IsTrue result → box_name net.now place ≡ name.now }
{
    place < net.boxes() && is_same(net.box_name(BoxId(place)), name)
}

/// The train of that name, looked for on the trail first. A text that is no name is sought no further.
#[inline(always)]
fn find_train(net: &Network, trail: Trail, name: &[u8]) -> Option<TrainId>
    ensures some { IfSome result (λ t. (t.0 < length net.now.trains) × (train_name net.now t.0 ≡ name.now)) }
    ensures none { IfNone result ((t : ℕ) → t < length net.now.trains → train_name net.now t ≢ name.now) }
{
    // What acceptance gave, for the proof: names are names.
    let _layout = net.layout();
    if is_train(net, trail.next, name) {
        Some(TrainId(trail.next))
    } else if is_train(net, trail.last, name) {
        Some(TrainId(trail.last))
    } else if name_ok(name) {
        net.find_train(name)
    } else {
        None
    }
}

/// The box of that name, looked for on the trail first. A text that is no name is sought no further.
#[inline(always)]
fn find_box(net: &Network, trail: Trail, name: &[u8]) -> Option<BoxId>
    ensures some { IfSome result (λ b. (b.0 < length net.now.boxes) × (box_name net.now b.0 ≡ name.now)) }
    ensures none { IfNone result ((b : ℕ) → b < length net.now.boxes → box_name net.now b ≢ name.now) }
{
    // What acceptance gave, for the proof: names are names.
    let _layout = net.layout();
    if is_box(net, trail.next, name) {
        Some(BoxId(trail.next))
    } else if is_box(net, trail.last, name) {
        Some(BoxId(trail.last))
    } else if name_ok(name) {
        net.find_box(name)
    } else {
        None
    }
}

/// The train of that name. The trail ends at it.
#[inline(always)]
fn train_named(net: &Network, trail: &mut Trail, name: &[u8]) -> Option<TrainId>
    ensures number { option_map (λ t. t.0) result ≡ train_named net.now name.now }
    ensures within { IfSome result (λ t. t.0 < length net.now.trains) }
{
    // What acceptance gave, for the proof: the names differ.
    let layout = net.layout();
    let found = find_train(net, *trail, name);
    if let Some(t) = found {
        *trail = Trail::at(t.0, layout.trains);
    }
    found
}

/// The box of that name. The trail ends at it.
#[inline(always)]
fn box_named(net: &Network, trail: &mut Trail, name: &[u8]) -> Option<BoxId>
    ensures number { option_map (λ b. b.0) result ≡ box_named net.now name.now }
    ensures within { IfSome result (λ b. b.0 < length net.now.boxes) }
{
    // What acceptance gave, for the proof: the names differ.
    let layout = net.layout();
    let found = find_box(net, *trail, name);
    if let Some(b) = found {
        *trail = Trail::at(b.0, layout.boxes);
    }
    found
}

/// The node that is named so.
#[inline(always)]
pub(crate) fn node_named(net: &Network, near: &mut Near, role: Role, name: &[u8]) -> Option<NodeNo>
    ensures number { option_map (λ n. n.0) result ≡ number_in net.now role name.now }
    ensures within { IfSome result (λ n. n.0 < nodes_of net.now) }
{
    let kind = match role {
        Role::Train => NodeKind::Train(train_named(net, &mut near.train, name)?),
        Role::Track => NodeKind::Track(train_named(net, &mut near.track, name)?),
        Role::SwitchBox => NodeKind::Box(box_named(net, &mut near.switch_box, name)?),
        Role::Machine => NodeKind::Machine(box_named(net, &mut near.machine, name)?),
    };
    Some(net.layout().node(kind))
}
