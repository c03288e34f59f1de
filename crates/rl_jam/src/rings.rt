ghost use Rattle.std.specs.Prelude.{◌≡◌, ◌==◌, IfOk, length};
ghost use Rattle.std.specs.List.{list_any};
ghost use Rattle.rl_jam.specs.Finding.{AreLast, IsNextRow, IsJamFrom};

use crate::refusals::wait_of;
use crate::waits::{Jam, WaitRow};
use rl_base::{NoMemory, TrainId};
use rl_model::Report;
use std::alloc::Global;

/// Whether a row is of the train.
fn is_in(rows: &[WaitRow], t: TrainId) -> bool
    ensures { result ≡ list_any (λ row. row.t.0 == t.0) rows.now }
{
    rows.iter().any(|row| row.t == t)
}

/// The row of the train where it goes on with a jam: it isn't in one of the rows before, nor lower than the first.
fn next_row(
    report: &Report,
    last: &[Option<WaitRow>],
    first: TrainId,
    rows: &[WaitRow],
    t: TrainId,
) -> Option<WaitRow>
    requires each { length last.now ≡ length report.now.outcomes }
    requires last { AreLast report.now.moves last.now }
    ensures { IsNextRow report.now first.0 rows.now t.0 result }
{
    if t.0 < first.0 || is_in(rows, t) {
        return None;
    }
    wait_of(report, last, t)
}

/// The jam that begins with the train. From row to row it takes at most as many steps as there are trains.
pub(crate) fn jam_from(
    alloc: Global,
    report: &Report,
    last: &[Option<WaitRow>],
    first: TrainId,
) -> Result<Option<Jam>, NoMemory>
    requires each { length last.now ≡ length report.now.outcomes }
    requires last { AreLast report.now.moves last.now }
    ensures { IfOk result (IsJamFrom report.now first.0) }
{
    let mut rows = Jam::new(alloc);
    let mut t = first;
    for _ in 0..last.len() {
        let Some(row) = next_row(report, last, first, rows.as_slice(), t) else {
            return Ok(None);
        };
        rows.push(row)?;
        if row.u == first {
            return Ok(Some(rows));
        }
        t = row.u;
    }
    Ok(None)
}
