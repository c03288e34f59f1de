ghost use Rattle.std.specs.Prelude.{◌≡◌, ℕ, ◌+◌, ◌<◌, ◌≤◌, IfOk, Some, length, slice_get, IsTrue};
ghost use Rattle.rl_model.specs.Network.{IsTrainOf, IsSegmentOf, IsBoxOf, IsNetwork, steps_of, arm_of, has_end};
ghost use Rattle.rl_model.specs.Network.{route_segment};
ghost use Rattle.rl_tables.specs.Tables.{IsListOf, IsBoxTable, IsOtherEnd, LooksAheadTo, IsStepRow, IsTrainTable};
ghost use Rattle.rl_tables.specs.Tables.{AreTablesOf};

use crate::line::Line;
use crate::table::{
    BoxTable, BoxTables, NextRow, StepRow, StepRows, Tables, TrainTable, TrainTables,
};
use rl_base::{Arm, BoxId, NoMemory, SegId, TrainId};
use rl_net::Network;
use std::alloc::Global;

fn box_table(net: &Network, b: BoxId) -> BoxTable
    requires network { IsNetwork net.now }
    requires there { IsBoxOf net.now b }
    ensures { IsBoxTable net.now b.0 result }
{
    BoxTable {
        number: b,
        kind: net.kind(b),
        side: net.start_side(b),
        seg0: net.arm(b, Arm(0)),
        seg1: net.arm(b, Arm(1)),
        seg2: net.arm(b, Arm(2)),
        seg3: net.arm(b, Arm(3)),
    }
}

fn box_tables(alloc: Global, net: &Network) -> Result<BoxTables, NoMemory>
    ensures network { IsNetwork net.now }
    ensures tables { IfOk result (IsListOf (length net.now.boxes) (IsBoxTable net.now)) }
{
    let mut tables = BoxTables::new(alloc);
    for b in 0..net.boxes() {
        tables.push(box_table(net, BoxId(b)))?;
    }
    Ok(tables)
}

/// The arm of a segment at one box, and the box and the arm of its other end.
#[derive(Clone, Copy)]
struct Span {
    arm: Arm,
    far: BoxId,
    far_arm: Arm,
}

/// The segment as it is seen from the box.
fn span_from(net: &Network, b: BoxId, s: SegId) -> Span
    requires network { IsNetwork net.now }
    requires there { IsSegmentOf net.now s }
    requires ends { IsTrue (has_end net.now s.0 b.0) }
    ensures here { arm_of net.now s.0 b.0 ≡ Some result.arm.0 }
    ensures other { IsOtherEnd net.now s.0 b.0 result.far.0 result.far_arm.0 }
{
    let ((low, low_arm), (high, high_arm)) = net.ends(s);
    if low == b {
        Span {
            arm: low_arm,
            far: high,
            far_arm: high_arm,
        }
    } else {
        Span {
            arm: high_arm,
            far: low,
            far_arm: low_arm,
        }
    }
}

/// What step `k` of the train, from `s` to `s2`, looks ahead to.
fn next_row(net: &Network, t: TrainId, k: u32, s: SegId, s2: SegId) -> Option<NextRow>
    requires network { IsNetwork net.now }
    requires there { IsTrainOf net.now t }
    requires step { k < steps_of net.now t.0 }
    requires to { route_segment net.now t.0 (k + 1) ≡ Some s2.0 }
    ensures { LooksAheadTo net.now t.0 k s.0 s2.0 result }
{
    if k + 1 >= net.steps(t) {
        return None;
    }
    let s3 = net.route_seg(t, k + 2);
    if s3 == s {
        return None;
    }
    let b2 = net.route_box(t, k + 1);
    let span = span_from(net, b2, s3);
    Some(NextRow {
        s3,
        b2,
        b2_arm: span.arm,
        c2: span.far,
        c2_arm: span.far_arm,
    })
}

/// The row of step `k` of the train.
fn step_row(net: &Network, t: TrainId, k: u32) -> StepRow
    requires network { IsNetwork net.now }
    requires there { IsTrainOf net.now t }
    requires step { k < steps_of net.now t.0 }
    ensures { IsStepRow net.now t.0 k result }
{
    let s = net.route_seg(t, k);
    let b = net.route_box(t, k);
    let s2 = net.route_seg(t, k + 1);
    let from = span_from(net, b, s);
    let to = span_from(net, b, s2);
    StepRow {
        s,
        s2,
        b,
        x: from.arm,
        y: to.arm,
        c: to.far,
        c_arm: to.far_arm,
        a: from.far,
        a_arm: from.far_arm,
        next: next_row(net, t, k, s, s2),
    }
}

fn step_rows(alloc: Global, net: &Network, t: TrainId) -> Result<StepRows, NoMemory>
    requires network { IsNetwork net.now }
    requires there { IsTrainOf net.now t }
    ensures { IfOk result (IsListOf (steps_of net.now t.0) (IsStepRow net.now t.0)) }
{
    let mut rows = StepRows::new(alloc);
    for k in 0..net.steps(t) {
        rows.push(step_row(net, t, k))?;
    }
    Ok(rows)
}

fn train_table(alloc: Global, net: &Network, t: TrainId) -> Result<TrainTable, NoMemory>
    requires network { IsNetwork net.now }
    requires there { IsTrainOf net.now t }
    ensures { IfOk result (IsTrainTable net.now t.0) }
{
    Ok(TrainTable {
        number: t,
        first: net.route_seg(t, 0),
        rows: step_rows(alloc, net, t)?,
    })
}

fn train_tables(alloc: Global, net: &Network) -> Result<TrainTables, NoMemory>
    ensures { IfOk result (IsListOf (length net.now.trains) (IsTrainTable net.now)) }
{
    let mut tables = TrainTables::new(alloc);
    for t in 0..net.trains() {
        tables.push(train_table(alloc, net, TrainId(t))?)?;
    }
    Ok(tables)
}

/// The tables of the network.
pub fn compile(alloc: Global, net: &Network) -> Result<Line, NoMemory>
    ensures { IfOk result (AreTablesOf net.now) }
{
    let tables = Tables {
        boxes: box_tables(alloc, net)?,
        trains: train_tables(alloc, net)?,
    };
    Ok(Line::from_tables(tables))
}
