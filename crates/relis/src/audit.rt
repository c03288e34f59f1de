ghost use Rattle.std.specs.Prelude.{◌≡◌, [], ◌∷◌, ℕ, List, Err};
ghost use Rattle.rl_cli.specs.declared.order.Order.{Order};
ghost use Rattle.rl_model.specs.declared.network.NetworkPlan.{NetworkPlan};
ghost use Rattle.rl_report.specs.Answers.{IsCause};
ghost use Rattle.rl_report.specs.Refusals.{refusal_number, refusal_place};
ghost use Rattle.relis.specs.Answers.{EndsAs, UnlessMemory};
ghost use Rattle.relis.specs.Reading.{FetchesOf};
ghost use Rattle.relis.specs.Commands.{AuditsTo};

use crate::judge::refused;
use crate::lines::safe;
use crate::reading::{TooLong, read_file, read_network};
use crate::status::Status;
use rl_audit::{ReportRefusal, Verdict};
use rl_base::limits::MAX_REPORT_BYTES;
use rl_net::Network;
use rl_outside::Files;
use rl_text::Out;
use std::alloc::Global;

/// What a report is called that is too long.
fn long_report() -> TooLong
    ensures number { result.number ≡ refusal_number ReportRefusal.Long }
    ensures place { result.place ≡ refusal_place ReportRefusal.Long }
{
    TooLong {
        number: ReportRefusal::Long.number(),
        place: ReportRefusal::Long.place(),
    }
}

/// The status of a report that is refused.
fn refusal_of(refusal: ReportRefusal) -> Status
    ensures { (net : NetworkPlan) (report : List ℕ) → IsCause net report refusal
        → UnlessMemory (AuditsTo net report) (Err result) }
{
    match refusal {
        ReportRefusal::NoMemory => Status::NoMemory,
        _ => refused(refusal.number(), refusal.place()),
    }
}

/// Whether a report is right.
fn audit_on(alloc: Global, net: &Network, report: &[u8]) -> Result<Out, Status>
    ensures { UnlessMemory (AuditsTo net.now report.now) result }
{
    match rl_audit::audit(alloc, net, report) {
        Ok(Verdict::Safe(moves)) => Ok(safe(alloc, moves)?),
        Ok(Verdict::Bad { line, guard }) => Err(Status::NotSafe { line, guard }),
        Err(refusal) => Err(refusal_of(refusal)),
    }
}

/// `audit NET REPORT`: says whether a report is right.
pub fn audit<F: Files>(alloc: Global, files: &mut F, net: &str, report: &str) -> Result<Out, Status>
    ensures ends { UnlessMemory (EndsAs (Order.Audit net.now report.now)
        (F.held files.old) (F.faults files.old) (F.faults files.new)) result }
    ensures fetches { FetchesOf (net.now ∷ report.now ∷ [])
        (F.held files.old) (F.held files.new) (F.faults files.old) (F.faults files.new) }
{
    let net = read_network(alloc, files, net)?;
    let report = read_file(alloc, files, report, MAX_REPORT_BYTES, long_report())?;
    audit_on(alloc, &net, report.as_slice())
}
