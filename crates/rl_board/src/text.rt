ghost use Rattle.std.specs.Prelude.{◌≡◌, ◌≤◌, ◌++◌, OnOk, IfOk, length};
ghost use Rattle.rl_base.specs.declared.limits.TheConstants.{MAX_MOVES};
ghost use Rattle.rl_model.specs.Reports.{IsRightReport, IsReportOf};
ghost use Rattle.rl_board.specs.BoardText.{line_after, peak_line, IsBoardText};

use crate::moves::{put_counts, put_moves};
use crate::occupancy::Board;
use crate::peak::Peak;
use crate::segments::put_segments;
use rl_base::NoMemory;
use rl_model::Report;
use rl_net::Network;
use rl_text::Out;
use std::alloc::Global;

/// The line of the report after which the world has come about that so many moves leave.
fn line_after(place: u32) -> u32
    requires { place ≤ MAX_MOVES }
    ensures { result ≡ line_after place }
{
    if place == 0 { 0 } else { place + 2 }
}

/// Appends the line of the peak.
fn put_peak(out: &mut Out, peak: Peak) -> Result<(), NoMemory>
    requires { peak.place ≤ MAX_MOVES }
    ensures { OnOk result (out.new ≡ out.old ++ peak_line peak.occupied peak.place) }
{
    out.text(b"peak")?;
    out.count(peak.occupied)?;
    out.word(b"after")?;
    out.count(line_after(peak.place))?;
    out.text(b"\n")
}

/// The text of the board of a right report: the counts at the start and after each move, with the line of the move; for
/// each segment the trains that are on it and hold its ends, in the end; and the greatest count of occupied segments, with
/// the first line that gives it.
pub fn board_text(alloc: Global, net: &Network, report: &Report) -> Result<Out, NoMemory>
    requires right { IsRightReport net.now report.now }
    requires of { IsReportOf net.now report.now }
    requires few { length report.now.moves ≤ MAX_MOVES }
    ensures { IfOk result (IsBoardText net.now report.now) }
{
    let mut board = Board::start(alloc, net)?;
    let mut out = Out::new(alloc);
    out.text(b"relis board 1\nstart")?;
    put_counts(&mut out, net, &board)?;
    let peak = put_moves(&mut out, net, report.moves.as_slice(), &mut board)?;
    put_segments(&mut out, net, &board)?;
    put_peak(&mut out, peak)?;
    out.text(b"end\n")?;
    Ok(out)
}
