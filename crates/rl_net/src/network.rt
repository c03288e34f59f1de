ghost use Rattle.std.specs.Prelude.{◌≡◌, ℕ, ◌≢◌, ◌<◌, ◌≤◌, IfSome, IfNone, length, Some, slice_get, option_map, IsTrue};
ghost use Rattle.rl_base.specs.declared.limits.TheConstants.{MAX_STEPS};
ghost use Rattle.rl_base.specs.Name.{is_name};
ghost use Rattle.rl_net.specs.NamedNetwork.{IsNamed};
ghost use Rattle.rl_model.specs.Network.{IsNetwork, IsSegmentOf, IsBoxOf, IsTrainOf, kind_of, start_side, arm_of, segment_at, connects, side_for, steps_of, route_segment, route_box, segment_name, box_name, train_name};

use crate::name_hint::NameHint;
use crate::named_draft::NameTables;
use rl_base::{Arm, BoxId, Kind, Layout, SegId, Side, TrainId, joins};
use rl_model::NetworkPlan;
use std::marker::Model;

/// A network that was accepted, with its names in order: the name of each number, and the number of each name.
/// Contracts see it as its plan, of which `IsNetwork` holds.
#[derive(Debug, Drop)]
pub struct Network {
    plan: NetworkPlan,
    names: NameTables,
}

impl Model for Network {
    ghost use Rattle.rl_model.specs.declared.network.NetworkPlan.{NetworkPlan};
    ghost use Rattle.rl_net.specs.NamedNetwork.{IsNamed};

    ghost Value = { NetworkPlan };

    ghost view = { λ n. n.plan };

    ghost invariant = { λ n. IsNamed n.plan n.names };
}

impl Network {
    pub(crate) fn from_plan(plan: NetworkPlan, names: NameTables) -> Network
        requires { IsNamed plan names }
        ensures { result ≡ plan }
    {
        Network { plan, names }
    }

    /// What acceptance gave, for a caller's proof: the sizes, each part in itself, names and starts that differ.
    /// It does nothing.
    #[inline(always)]
    pub fn accepted(&self)
        ensures { IsNetwork self.now }
    {
        let _ = &self.plan;
    }

    /// How many segments there are, at most `MAX_SEGMENTS`.
    pub fn segments(&self) -> u32
        ensures count { result ≡ length self.now.segments }
        ensures network { IsNetwork self.now }
    {
        self.plan.segments.len() as u32
    }

    /// How many boxes there are, at most `MAX_BOXES`.
    pub fn boxes(&self) -> u32
        ensures count { result ≡ length self.now.boxes }
        ensures network { IsNetwork self.now }
    {
        self.plan.boxes.len() as u32
    }

    /// How many trains there are, at most `MAX_TRAINS`.
    pub fn trains(&self) -> u32
        ensures count { result ≡ length self.now.trains }
        ensures network { IsNetwork self.now }
    {
        self.plan.trains.len() as u32
    }

    /// How many boxes and trains there are, from which the numbers of nodes and words follow.
    pub fn layout(&self) -> Layout
        ensures boxes { result.boxes ≡ length self.now.boxes }
        ensures trains { result.trains ≡ length self.now.trains }
        ensures network { IsNetwork self.now }
    {
        Layout {
            boxes: self.boxes(),
            trains: self.trains(),
        }
    }

    /// The two ends of a segment, that at the box with the lower number first.
    pub fn ends(&self, s: SegId) -> ((BoxId, Arm), (BoxId, Arm))
        requires there { IsSegmentOf self.now s }
        ensures { option_map (λ g. ((g.low.at, g.low.arm), (g.high.at, g.high.arm))) (slice_get self.now.segments s.0)
            ≡ Some result }
    {
        let segment = self.plan.segments.at(s.0 as usize);
        (
            (segment.low.at, segment.low.arm),
            (segment.high.at, segment.high.arm),
        )
    }

    pub fn kind(&self, b: BoxId) -> Kind
        requires there { IsBoxOf self.now b }
        ensures { result ≡ kind_of self.now b.0 }
    {
        self.plan.boxes.at(b.0 as usize).kind
    }

    /// The side at which the box stands at the start. A box that is no point stands at left.
    pub fn start_side(&self, b: BoxId) -> Side
        requires there { IsBoxOf self.now b }
        ensures { result ≡ start_side self.now b.0 }
    {
        self.plan.boxes.at(b.0 as usize).side
    }

    /// The segment at an arm of the box, `None` where the box has no such arm.
    pub fn arm(&self, b: BoxId, x: Arm) -> Option<SegId>
        requires there { IsBoxOf self.now b }
        ensures { option_map (λ s. s.0) result ≡ segment_at self.now b.0 x.0 }
    {
        let arms = &self.plan.boxes.at(b.0 as usize).arms;
        if (x.0 as usize) < arms.len() {
            Some(*arms.at(x.0 as usize))
        } else {
            None
        }
    }

    /// The arm of the segment at the box, `None` where the segment doesn't end there.
    pub fn arm_of(&self, b: BoxId, s: SegId) -> Option<Arm>
        requires there { IsBoxOf self.now b × IsSegmentOf self.now s }
        ensures { option_map (λ x. x.0) result ≡ arm_of self.now s.0 b.0 }
    {
        let segment = self.plan.segments.at(s.0 as usize);
        if segment.low.at == b {
            Some(segment.low.arm)
        } else if segment.high.at == b {
            Some(segment.high.arm)
        } else {
            None
        }
    }

    /// Whether both segments have an arm at the box and the box connects these where it stands at the side.
    pub fn connects(&self, b: BoxId, s: SegId, s2: SegId, side: Side) -> bool
        requires there { IsBoxOf self.now b × IsSegmentOf self.now s × IsSegmentOf self.now s2 }
        ensures { result ≡ connects self.now b.0 s.0 s2.0 side }
    {
        match (self.arm_of(b, s), self.arm_of(b, s2)) {
            (Some(x), Some(y)) => joins(self.kind(b), x, y, side),
            _ => false,
        }
    }

    /// The side at which the box connects the segments, left where it does at both, and `None` where it
    /// does at neither.
    pub fn side_for(&self, b: BoxId, s: SegId, s2: SegId) -> Option<Side>
        requires there { IsBoxOf self.now b × IsSegmentOf self.now s × IsSegmentOf self.now s2 }
        ensures { result ≡ side_for self.now b.0 s.0 s2.0 }
    {
        if self.connects(b, s, s2, Side::Left) {
            Some(Side::Left)
        } else if self.connects(b, s, s2, Side::Right) {
            Some(Side::Right)
        } else {
            None
        }
    }

    /// How many steps the route of the train has, at most `MAX_STEPS`.
    pub fn steps(&self, t: TrainId) -> u32
        requires there { IsTrainOf self.now t }
        ensures count { result ≡ steps_of self.now t.0 }
        ensures few { result ≤ MAX_STEPS }
    {
        self.plan.trains.at(t.0 as usize).boxes.len() as u32
    }

    /// The segment at place `k` of the route, from 0 to the number of steps.
    pub fn route_seg(&self, t: TrainId, k: u32) -> SegId
        requires there { IsTrainOf self.now t }
        requires step { k ≤ steps_of self.now t.0 }
        ensures value { route_segment self.now t.0 k ≡ Some result.0 }
        ensures in_range { result.0 < length self.now.segments }
    {
        *self.plan.trains.at(t.0 as usize).segments.at(k as usize)
    }

    /// The box that step `k` of the route passes.
    pub fn route_box(&self, t: TrainId, k: u32) -> BoxId
        requires there { IsTrainOf self.now t }
        requires step { k < steps_of self.now t.0 }
        ensures value { route_box self.now t.0 k ≡ Some result.0 }
        ensures in_range { result.0 < length self.now.boxes }
    {
        *self.plan.trains.at(t.0 as usize).boxes.at(k as usize)
    }

    pub fn seg_name(&self, s: SegId) -> &[u8]
        requires there { IsSegmentOf self.now s }
        ensures name { result.now ≡ segment_name self.now s.0 }
        ensures valid { IsTrue (is_name result.now) }
    {
        self.plan.segments.at(s.0 as usize).name.bytes()
    }

    pub fn box_name(&self, b: BoxId) -> &[u8]
        requires there { IsBoxOf self.now b }
        ensures name { result.now ≡ box_name self.now b.0 }
        ensures valid { IsTrue (is_name result.now) }
    {
        self.plan.boxes.at(b.0 as usize).name.bytes()
    }

    pub fn train_name(&self, t: TrainId) -> &[u8]
        requires there { IsTrainOf self.now t }
        ensures name { result.now ≡ train_name self.now t.0 }
        ensures valid { IsTrue (is_name result.now) }
    {
        self.plan.trains.at(t.0 as usize).name.bytes()
    }

    /// The segment of that name, `None` exactly where there is none. It takes no memory.
    pub fn find_seg(&self, name: &[u8]) -> Option<SegId>
        ensures some { IfSome result (λ s. (s.0 < length self.now.segments) × (segment_name self.now s.0 ≡ name.now)) }
        ensures none { IfNone result ((s : ℕ) → s < length self.now.segments → segment_name self.now s ≢ name.now) }
    {
        self.find_seg_by(name, NameHint::of(name))
    }

    /// As `find_seg`, and fast where the hint is the name's. Every hint gives the same answer.
    #[inline(always)]
    pub fn find_seg_by(&self, name: &[u8], hint: NameHint) -> Option<SegId>
        ensures some { IfSome result (λ s. (s.0 < length self.now.segments) × (segment_name self.now s.0 ≡ name.now)) }
        ensures none { IfNone result ((s : ℕ) → s < length self.now.segments → segment_name self.now s ≢ name.now) }
    {
        match self.names.segments.find_by(name, hint) {
            Some(s) => Some(SegId(s as u32)),
            None => None,
        }
    }

    /// The box of that name, `None` exactly where there is none. It takes no memory.
    pub fn find_box(&self, name: &[u8]) -> Option<BoxId>
        ensures some { IfSome result (λ b. (b.0 < length self.now.boxes) × (box_name self.now b.0 ≡ name.now)) }
        ensures none { IfNone result ((b : ℕ) → b < length self.now.boxes → box_name self.now b ≢ name.now) }
    {
        self.find_box_by(name, NameHint::of(name))
    }

    /// As `find_box`, and fast where the hint is the name's. Every hint gives the same answer.
    #[inline(always)]
    pub fn find_box_by(&self, name: &[u8], hint: NameHint) -> Option<BoxId>
        ensures some { IfSome result (λ b. (b.0 < length self.now.boxes) × (box_name self.now b.0 ≡ name.now)) }
        ensures none { IfNone result ((b : ℕ) → b < length self.now.boxes → box_name self.now b ≢ name.now) }
    {
        match self.names.boxes.find_by(name, hint) {
            Some(b) => Some(BoxId(b as u32)),
            None => None,
        }
    }

    /// The train of that name, `None` exactly where there is none. It takes no memory.
    pub fn find_train(&self, name: &[u8]) -> Option<TrainId>
        ensures some { IfSome result (λ t. (t.0 < length self.now.trains) × (train_name self.now t.0 ≡ name.now)) }
        ensures none { IfNone result ((t : ℕ) → t < length self.now.trains → train_name self.now t ≢ name.now) }
    {
        self.find_train_by(name, NameHint::of(name))
    }

    /// As `find_train`, and fast where the hint is the name's. Every hint gives the same answer.
    #[inline(always)]
    pub fn find_train_by(&self, name: &[u8], hint: NameHint) -> Option<TrainId>
        ensures some { IfSome result (λ t. (t.0 < length self.now.trains) × (train_name self.now t.0 ≡ name.now)) }
        ensures none { IfNone result ((t : ℕ) → t < length self.now.trains → train_name self.now t ≢ name.now) }
    {
        match self.names.trains.find_by(name, hint) {
            Some(t) => Some(TrainId(t as u32)),
            None => None,
        }
    }
}
