ghost use Rattle.std.specs.Prelude.{◌≡◌, ◌+◌, ◌++◌, ℕ, List, Some, OnOk, IfOk, flat_map, length, slice_get};
ghost use Rattle.rl_model.specs.Network.{IsTrainOf};
ghost use Rattle.rl_jam.specs.declared.waits.WaitRow.{WaitRow};
ghost use Rattle.rl_jam.specs.JamText.{wait_line, jam_lines, jams_lines, jam_text};

use crate::waits::{Jam, Jams, WaitRow};
use rl_base::NoMemory;
use rl_net::Network;
use rl_text::Out;
use std::alloc::Global;

/// Appends the line of the row.
fn put_wait(out: &mut Out, net: &Network, row: WaitRow) -> Result<(), NoMemory>
    requires there { IsTrainOf net.now row.t × IsTrainOf net.now row.u }
    ensures { OnOk result (out.new ≡ out.old ++ wait_line net.now row) }
{
    out.text(b"wait")?;
    out.word(net.train_name(row.t))?;
    out.word(net.train_name(row.u))?;
    out.count(row.line)?;
    out.text(b"\n")
}

/// Appends the lines of the rows.
fn put_waits(out: &mut Out, net: &Network, rows: &[WaitRow]) -> Result<(), NoMemory>
    requires there { (k : ℕ) (row : WaitRow) → slice_get rows.now k ≡ Some row
        → IsTrainOf net.now row.t × IsTrainOf net.now row.u }
    ensures { OnOk result (out.new ≡ out.old ++ flat_map (wait_line net.now) rows.now) }
{
    for row in rows {
        put_wait(out, net, *row)?;
    }
    Ok(())
}

/// Appends the lines of the jam of that number.
fn put_jam(out: &mut Out, net: &Network, number: usize, rows: &Jam) -> Result<(), NoMemory>
    requires there { (k : ℕ) (row : WaitRow) → slice_get rows.now k ≡ Some row
        → IsTrainOf net.now row.t × IsTrainOf net.now row.u }
    ensures { OnOk result (out.new ≡ out.old ++ jam_lines net.now number rows.now) }
{
    out.text(b"jam ")?;
    out.number(number as u64)?;
    out.text(b" ")?;
    out.number(rows.len() as u64)?;
    out.text(b"\n")?;
    put_waits(out, net, rows.as_slice())
}

/// Appends the lines of the jams, which are numbered from 1.
fn put_jams(out: &mut Out, net: &Network, jams: &Jams) -> Result<(), NoMemory>
    requires there { (j k : ℕ) (rows : List WaitRow) (row : WaitRow) → slice_get jams.now j ≡ Some rows
        → slice_get rows k ≡ Some row → IsTrainOf net.now row.t × IsTrainOf net.now row.u }
    ensures { OnOk result (out.new ≡ out.old ++ jams_lines net.now 1 jams.now) }
{
    for i in 0..jams.len() {
        put_jam(out, net, i + 1, jams.at(i))?;
    }
    Ok(())
}

/// The text of jams whose trains are all the network's: how many there are, then for each its number, its length and
/// who waits for whom since which line.
pub fn jam_text(alloc: Global, net: &Network, jams: &Jams) -> Result<Out, NoMemory>
    requires there { (j k : ℕ) (rows : List WaitRow) (row : WaitRow) → slice_get jams.now j ≡ Some rows
        → slice_get rows k ≡ Some row → IsTrainOf net.now row.t × IsTrainOf net.now row.u }
    ensures { IfOk result (λ out. out ≡ jam_text net.now jams.now) }
{
    let mut out = Out::new(alloc);
    out.text(b"jams ")?;
    out.number(jams.len() as u64)?;
    out.text(b"\n")?;
    put_jams(&mut out, net, jams)?;
    out.text(b"end\n")?;
    Ok(out)
}
