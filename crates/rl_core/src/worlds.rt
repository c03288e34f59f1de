ghost use Rattle.std.specs.Prelude.{◌≡◌, ℕ, ◌<◌, ◌+◌, length, IfOk};
ghost use Rattle.rl_base.specs.Layout.{HasWord};
ghost use Rattle.rl_model.specs.Network.{IsBoxOf, segment_at};
ghost use Rattle.rl_model.specs.Safety.{IsKept};
ghost use Rattle.rl_words.specs.Resv.{arm_in};
ghost use Rattle.rl_domain.specs.Rows.{world_of, Fits};
ghost use Rattle.rl_domain.specs.States.{is_lock};
ghost use Rattle.rl_protocol.specs.Worlds.{is_passage, locks, standing, moving, side_of_path, points_in};
ghost use Rattle.rl_safety.specs.Reading.{payload_of, resv_in, lock_in, run_in};
ghost use Rattle.rl_safety.specs.World.{world_of_core};
ghost use Rattle.rl_tables.specs.Starts.{layout_of};
ghost use Rattle.rl_tables.specs.Tables.{AreTablesOf};
ghost use Rattle.rl_core.specs.Cores.{state_of};
ghost use Rattle.rl_core.specs.Worlds.{spot_of, AreSpots, IsBoxState, AreBoxStates};

use crate::cores::Core;
use rl_base::{BoxId, Kind, NoMemory, Side, TrainId, WordKind, side_of};
use rl_box::other_side;
use rl_domain::{BoxState, BoxStates, PathLock, Points, Spot, Spots, World};
use rl_net::Network;
use rl_safety::worlds_of_runs;
use rl_words::{LockWord, Path, ResvWord, RunWord, payload_of};
use std::alloc::Global;

/// Where a train with the run word is.
fn spot_of(run: RunWord) -> Spot
    ensures { result ≡ spot_of run }
{
    match run {
        RunWord::Clear(step) | RunWord::Go(step) => Spot {
            step,
            across: false,
        },
        RunWord::Across(step) => Spot { step, across: true },
    }
}

/// A point stands at the side, and any other box at left.
fn standing(kind: Kind, side: Side) -> Points
    ensures { result ≡ standing kind side }
{
    match (kind, side) {
        (Kind::Point, Side::Right) => Points::Right,
        _ => Points::Left,
    }
}

/// Points move at a point alone.
fn moving(kind: Kind) -> Points
    ensures { result ≡ moving kind }
{
    match kind {
        Kind::Point => Points::Moving,
        Kind::Buffer | Kind::Joint | Kind::Crossing => Points::Left,
    }
}

/// The side at which a box of the kind connects the path.
fn side_of_path(kind: Kind, path: &Path) -> Side
    ensures { result ≡ side_of_path kind path.now }
{
    match side_of(kind, path.x, path.y) {
        Some(side) => side,
        None => Side::Left,
    }
}

/// How the points of a box of the kind stand that has the lock word.
fn points_in(kind: Kind, word: LockWord) -> Points
    ensures { result ≡ points_in kind word }
{
    match word {
        LockWord::Free(side) => standing(kind, side),
        LockWord::Asked(path) => standing(kind, other_side(side_of_path(kind, &path))),
        LockWord::Moving(_) => moving(kind),
        LockWord::Moved(path) | LockWord::Locked(path) => {
            standing(kind, side_of_path(kind, &path))
        }
    }
}

/// The lock of the box for the path, between the segments at its arms.
fn lock_on(net: &Network, b: BoxId, path: &Path) -> Option<PathLock>
    requires there { IsBoxOf net.now b }
    ensures { (t from to : ℕ) → is_lock t from to result ≡ is_passage (segment_at net.now b.0) path.now t from to }
{
    match (net.arm(b, path.x), net.arm(b, path.y)) {
        (Some(s), Some(s2)) => Some(PathLock {
            t: path.train,
            s,
            s2,
        }),
        _ => None,
    }
}

/// The lock that the lock word of the box says.
fn lock_in(net: &Network, b: BoxId, word: LockWord) -> Option<PathLock>
    requires there { IsBoxOf net.now b }
    ensures { (t from to : ℕ) → is_lock t from to result ≡ locks (segment_at net.now b.0) word t from to }
{
    match word {
        LockWord::Free(_) => None,
        LockWord::Asked(path)
        | LockWord::Moving(path)
        | LockWord::Moved(path)
        | LockWord::Locked(path) => lock_on(net, b, &path),
    }
}

impl<'a> Core<'a> {
    /// What the word says, without its stamp.
    fn payload(&self, kind: WordKind) -> u32
        requires { HasWord (layout_of self.now.line) kind }
        ensures { result ≡ payload_of self.now.line (state_of self.now) kind }
    {
        let w = self.line().layout().word(kind);
        payload_of(self.word(w))
    }

    /// The run word of the train.
    fn run_word(&self, t: TrainId) -> RunWord
        requires { t.0 < length self.now.line.trains }
        ensures { result ≡ run_in self.now.line (state_of self.now) t.0 }
    {
        match RunWord::unpack(self.payload(WordKind::Run(t))) {
            Some(word) => word,
            None => RunWord::Clear(0),
        }
    }

    /// The lock word of the box.
    fn lock_word(&self, b: BoxId) -> LockWord
        requires { b.0 < length self.now.line.boxes }
        ensures { result ≡ lock_in self.now.line (state_of self.now) b.0 }
    {
        match LockWord::unpack(self.payload(WordKind::Lock(b))) {
            Some(word) => word,
            None => LockWord::Free(Side::Left),
        }
    }

    /// The reservation word of the box.
    fn resv_word(&self, b: BoxId) -> ResvWord
        requires { b.0 < length self.now.line.boxes }
        ensures { (i : ℕ) → i < 4 → arm_in result i ≡ resv_in self.now.line (state_of self.now) b.0 i }
    {
        match ResvWord::unpack(self.payload(WordKind::Resv(b))) {
            Some(word) => word,
            None => ResvWord {
                arm0: None,
                arm1: None,
                arm2: None,
                arm3: None,
            },
        }
    }

    /// The state of the box in the world.
    fn box_state(&self, net: &Network, b: BoxId) -> BoxState
        requires line { b.0 < length self.now.line.boxes }
        requires there { IsBoxOf net.now b }
        ensures { IsBoxState net.now self.now b.0 result }
    {
        let lock = self.lock_word(b);
        let resv = self.resv_word(b);
        BoxState {
            points: points_in(net.kind(b), lock),
            lock: lock_in(net, b, lock),
            hold0: resv.arm0,
            hold1: resv.arm1,
            hold2: resv.arm2,
            hold3: resv.arm3,
        }
    }

    /// Where each train is.
    fn spots(&self, alloc: Global) -> Result<Spots, NoMemory>
        ensures { IfOk result (AreSpots self.now (length self.now.line.trains)) }
    {
        let mut spots = Spots::new(alloc);
        for t in 0..self.line().layout().trains {
            spots.push(spot_of(self.run_word(TrainId(t))))?;
        }
        Ok(spots)
    }

    /// The state of each box.
    fn box_states(&self, alloc: Global, net: &Network) -> Result<BoxStates, NoMemory>
        requires { AreTablesOf net.now self.now.line }
        ensures { IfOk result (AreBoxStates net.now self.now (length net.now.boxes)) }
    {
        let mut boxes = BoxStates::new(alloc);
        for b in 0..net.boxes() {
            boxes.push(self.box_state(net, BoxId(b)))?;
        }
        Ok(boxes)
    }

    /// The world that the words say: where each train is, who holds what, and how the points stand.
    pub fn world(&self, alloc: Global, net: &Network) -> Result<World, NoMemory>
        requires { AreTablesOf net.now self.now.line }
        ensures world { IfOk result
            (λ w. world_of net.now w ≡ world_of_core net.now self.now.line (state_of self.now)) }
        ensures fits { IfOk result (Fits net.now) }
        ensures kept { IfOk result (λ w. IsKept net.now (world_of net.now w)) }
    {
        // What is so of runs, and what acceptance gave, for the proof.
        worlds_of_runs();
        self.reached();
        let _trains = net.trains();
        let spots = self.spots(alloc)?;
        let boxes = self.box_states(alloc, net)?;
        World::of(alloc, net, &spots, &boxes)
    }
}
