ghost use Rattle.std.specs.Prelude.{◌≡◌, IfOk, string_bytes};
ghost use Rattle.agema_texts.specs.Line as spec;

use masked_writer::{balance_text, mode_text};
use share_wiring::Report;
use std::alloc::{AllocError, Global};

// What was asked for.
#[tactic(auto, unfolding(crate::specs::Line::request_text))]
fn request_text(alloc: Global, report: &Report) -> Result<String, AllocError>
    ensures { IfOk result (λ s. string_bytes s ≡ spec.request_text report.now) }
{
    let order = report.order;
    let mode = mode_text(report.mode);
    let balance = balance_text(report.balance);
    format!(in alloc; "order {order} mode {mode} balance {balance}")
}

// What it costs.
#[tactic(auto, unfolding(crate::specs::Line::cost_text))]
fn cost_text(alloc: Global, report: &Report) -> Result<String, AllocError>
    ensures { IfOk result (λ s. string_bytes s ≡ spec.cost_text report.now) }
{
    let gadgets = report.gadgets;
    let random = report.random;
    format!(in alloc; " gadgets {gadgets} random {random}")
}

// When it is loaded and read.
#[tactic(auto, unfolding(crate::specs::Line::schedule_text))]
fn schedule_text(alloc: Global, report: &Report) -> Result<String, AllocError>
    ensures { IfOk result (λ s. string_bytes s ≡ spec.schedule_text report.now) }
{
    let latency = report.latency;
    let period = report.period;
    let streams = report.streams;
    format!(in alloc; " latency {latency} period {period} streams {streams}\n")
}

/// The line that is printed for a masked design.
#[tactic(auto, unfolding(crate::specs::Line::mask_line))]
pub(crate) fn mask_line(alloc: Global, report: &Report) -> Result<String, AllocError>
    ensures { IfOk result (λ s. string_bytes s ≡ spec.mask_line report.now) }
{
    let request = request_text(alloc, report)?;
    let cost = cost_text(alloc, report)?;
    let schedule = schedule_text(alloc, report)?;
    format!(in alloc; "{request}{cost}{schedule}")
}
