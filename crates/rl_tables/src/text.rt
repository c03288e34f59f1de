ghost use Rattle.std.specs.Prelude.{◌≡◌, ◌<◌, ◌∷◌, ◌++◌, OnOk, IfOk, decimal, slice_get, Some, ℕ, length, flat_map, ◌≤◌, IfSome};
ghost use Rattle.rl_model.specs.Network.{IsSegmentOf, IsBoxOf, IsTrainOf, IsNetwork, box_name};
ghost use Rattle.rl_tables.specs.declared.table.StepRow.{StepRow};
ghost use Rattle.rl_tables.specs.declared.table.BoxTable.{BoxTable};
ghost use Rattle.rl_tables.specs.declared.table.TrainTable.{TrainTable};
ghost use Rattle.rl_tables.specs.Tables.{IsBoxTable, IsTrainTable, AreTablesOf};
ghost use Rattle.rl_tables.specs.Ranges.{IsRowOf};
ghost use Rattle.rl_tables.specs.TablesText.{holder_word, arm_line, box_line, box_lines, step_line, step_lines, train_line, train_lines, tables_text};

use crate::line::Line;
use crate::table::{BoxTable, StepRow, TrainTable};
use rl_base::limits::MAX_STEPS;
use rl_base::{Arm, BoxId, NoMemory, SegId, kind_word, side_word};
use rl_net::Network;
use rl_text::Out;
use std::alloc::Global;

/// Appends the name of the train that holds the segment at the start, or a star.
fn put_holder(out: &mut Out, net: &Network, line: &Line, s: SegId) -> Result<(), NoMemory>
    requires { length line.now.trains ≡ length net.now.trains }
    ensures { OnOk result (out.new ≡ out.old ++ 32 ∷ holder_word net.now line.now s.0) }
{
    match line.holder(s) {
        Some(t) => out.word(net.train_name(t)),
        None => out.word(b"*"),
    }
}

/// Appends the line of the arm, if the box has it.
fn put_arm(
    out: &mut Out,
    net: &Network,
    line: &Line,
    i: u32,
    s: Option<SegId>,
) -> Result<(), NoMemory>
    requires trains { length line.now.trains ≡ length net.now.trains }
    requires segment { IfSome s (IsSegmentOf net.now) }
    ensures { OnOk result (out.new ≡ out.old ++ arm_line net.now line.now i s) }
{
    let Some(s) = s else {
        return Ok(());
    };
    out.text(b"arm")?;
    out.count(i)?;
    out.word(net.seg_name(s))?;
    put_holder(out, net, line, s)?;
    out.text(b"\n")
}

/// Appends the line that names a box.
fn put_box_line(out: &mut Out, net: &Network, x: &BoxTable) -> Result<(), NoMemory>
    requires there { IsBoxOf net.now x.now.number }
    ensures { OnOk result (out.new ≡ out.old ++ box_line net.now x.now) }
{
    out.text(b"box")?;
    out.count(x.number.0)?;
    out.word(net.box_name(x.number))?;
    out.word(kind_word(x.kind))?;
    out.word(side_word(x.side))?;
    out.text(b"\n")
}

/// Appends the line of a box and those of its arms.
fn put_box(out: &mut Out, net: &Network, line: &Line, x: &BoxTable) -> Result<(), NoMemory>
    requires network { IsNetwork net.now }
    requires there { IsBoxOf net.now x.now.number }
    requires table { IsBoxTable net.now x.now.number.0 x.now }
    requires trains { length line.now.trains ≡ length net.now.trains }
    ensures { OnOk result (out.new ≡ out.old ++ box_lines net.now line.now x.now) }
{
    put_box_line(out, net, x)?;
    put_arm(out, net, line, 0, x.seg0)?;
    put_arm(out, net, line, 1, x.seg1)?;
    put_arm(out, net, line, 2, x.seg2)?;
    put_arm(out, net, line, 3, x.seg3)
}

/// Appends the name of a box and the number of an arm.
fn put_end(out: &mut Out, net: &Network, b: BoxId, arm: Arm) -> Result<(), NoMemory>
    requires there { IsBoxOf net.now b }
    ensures { OnOk result (out.new ≡ out.old ++ 32 ∷ box_name net.now b.0 ++ 32 ∷ decimal arm.0) }
{
    out.word(net.box_name(b))?;
    out.count(arm.0)
}

/// Appends the box that the row passes and the two arms there.
fn put_passage(out: &mut Out, net: &Network, row: &StepRow) -> Result<(), NoMemory>
    requires there { IsBoxOf net.now row.now.b }
    ensures { OnOk result (out.new ≡ out.old ++ 32 ∷ box_name net.now row.now.b.0 ++ 32 ∷ decimal row.now.x.0
        ++ 32 ∷ decimal row.now.y.0) }
{
    put_end(out, net, row.b, row.x)?;
    out.count(row.y.0)
}

/// Appends the line of step `k`.
fn put_step(out: &mut Out, net: &Network, k: u32, row: &StepRow) -> Result<(), NoMemory>
    requires { IsRowOf net.now row.now }
    ensures { OnOk result (out.new ≡ out.old ++ step_line net.now k row.now) }
{
    out.text(b"step")?;
    out.count(k)?;
    put_passage(out, net, row)?;
    put_end(out, net, row.c, row.c_arm)?;
    put_end(out, net, row.a, row.a_arm)?;
    out.text(b"\n")
}

/// Appends the lines of the steps.
fn put_steps(out: &mut Out, net: &Network, rows: &[StepRow]) -> Result<(), NoMemory>
    requires short { length rows.now ≤ MAX_STEPS }
    requires rows { (k : ℕ) (row : StepRow) → slice_get rows.now k ≡ Some row → IsRowOf net.now row }
    ensures { OnOk result (out.new ≡ out.old ++ step_lines net.now 0 rows.now) }
{
    for (k, row) in rows.iter().enumerate() {
        put_step(out, net, k as u32, row)?;
    }
    Ok(())
}

/// Appends the line that names a train.
fn put_train_line(out: &mut Out, net: &Network, x: &TrainTable) -> Result<(), NoMemory>
    requires there { IsTrainOf net.now x.now.number }
    requires short { length x.now.rows ≤ MAX_STEPS }
    ensures { OnOk result (out.new ≡ out.old ++ train_line net.now x.now) }
{
    out.text(b"train")?;
    out.count(x.number.0)?;
    out.word(net.train_name(x.number))?;
    out.count(x.rows.len() as u32)?;
    out.text(b"\n")
}

/// Appends the line of a train and those of its steps.
fn put_train(out: &mut Out, net: &Network, x: &TrainTable) -> Result<(), NoMemory>
    requires there { IsTrainOf net.now x.now.number }
    requires short { length x.now.rows ≤ MAX_STEPS }
    requires rows { (k : ℕ) (row : StepRow) → slice_get x.now.rows k ≡ Some row → IsRowOf net.now row }
    ensures { OnOk result (out.new ≡ out.old ++ train_lines net.now x.now) }
{
    put_train_line(out, net, x)?;
    put_steps(out, net, x.rows.as_slice())
}

/// Appends the lines of the boxes.
fn put_boxes(out: &mut Out, net: &Network, line: &Line) -> Result<(), NoMemory>
    requires network { IsNetwork net.now }
    requires tables { AreTablesOf net.now line.now }
    ensures { OnOk result (out.new ≡ out.old ++ flat_map (box_lines net.now line.now) line.now.boxes) }
{
    for x in line.box_tables() {
        put_box(out, net, line, x)?;
    }
    Ok(())
}

/// Appends the lines of the trains.
fn put_trains(out: &mut Out, net: &Network, line: &Line) -> Result<(), NoMemory>
    requires network { IsNetwork net.now }
    requires tables { AreTablesOf net.now line.now }
    ensures { OnOk result (out.new ≡ out.old ++ flat_map (train_lines net.now) line.now.trains) }
{
    for x in line.train_tables() {
        put_train(out, net, x)?;
    }
    Ok(())
}

/// The text of the tables of the network.
pub fn tables_text(alloc: Global, net: &Network, line: &Line) -> Result<Out, NoMemory>
    requires { AreTablesOf net.now line.now }
    ensures { IfOk result (λ out. out ≡ tables_text net.now line.now) }
{
    net.accepted();
    let mut out = Out::new(alloc);
    out.text(b"relis tables 1\n")?;
    put_boxes(&mut out, net, line)?;
    put_trains(&mut out, net, line)?;
    out.text(b"end\n")?;
    Ok(out)
}
