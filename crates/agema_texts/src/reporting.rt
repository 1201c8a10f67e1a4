//! The line of a report's text.

ghost use Rattle.std.specs.Prelude.{◌≡◌, ◌≤◌, IfOk, IfErr, length, string_bytes};
ghost use Rattle.agema_texts.specs.Line as line;
ghost use Rattle.agema_texts.specs.Original.{EndsBy, length_limit};
ghost use Rattle.agema_texts.specs.Reported.{HasReport, Reports, IsBadReport};

use crate::line::mask_line;
use agema_answers::{Ended, Refusal};
use masked_writer::{ReportFault, read_report};
use share_wiring::Report;
use std::alloc::Global;

// The report that a text states.
fn report_of(alloc: Global, text: &[u8]) -> Result<Report, Ended>
    requires { length text.now ≤ length_limit }
    ensures ok { IfOk result (HasReport text.now) }
    ensures err { IfErr result (EndsBy (IsBadReport text.now)) }
{
    match read_report(alloc, text) {
        Ok(report) => Ok(report),
        Err(ReportFault::Bad { cause }) => Err(Ended::Refused(Refusal::BadReport { cause })),
        Err(ReportFault::Memory) => Err(Ended::Memory),
    }
}

// The line of a report, where memory may be wanted.
fn line_or_memory(alloc: Global, report: &Report) -> Result<String, Ended>
    ensures ok { IfOk result (λ s. string_bytes s ≡ line.mask_line report.now) }
    ensures err { IfErr result (λ ended. ended ≡ Ended.Memory) }
{
    match mask_line(alloc, report) {
        Ok(line) => Ok(line),
        Err(_) => Err(Ended::Memory),
    }
}

/// The line of the report that a text states.
///
/// # Errors
///
/// `Refused` where the text is no report, and `Memory` where memory runs out.
pub fn reported(alloc: Global, text: &[u8]) -> Result<String, Ended>
    requires { length text.now ≤ length_limit }
    ensures ok { IfOk result (λ s. Reports text.now (string_bytes s)) }
    ensures err { IfErr result (EndsBy (IsBadReport text.now)) }
{
    let report = report_of(alloc, text)?;
    line_or_memory(alloc, &report)
}
