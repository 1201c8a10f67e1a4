//! Masked nets of pipelines.

ghost use Rattle.std.specs.Prelude.{◌≡◌, ◌≤◌, ◌+◌, ◌*◌, ◌/◌, not, length, count_by, IfOk};
ghost use Rattle.agm_net.specs.Loop.{HasNoLoop};
ghost use Rattle.agm_net.specs.Network.{Hpc2, HasGadgets};
ghost use Rattle.agm_net.specs.Small.{IsSmallNet};
ghost use Rattle.agm_net.specs.View.{plain_of};
ghost use Rattle.logic_graph.specs.GraphOf.{IsGraphOf};
ghost use Rattle.logic_graph.specs.Machines.{SameSinks, SourcesAmong};
ghost use Rattle.secrecy_spread.specs.Mode.{StaysPublic};
ghost use Rattle.secrecy_spread.specs.SecretsOf.{SecretsOf};
ghost use Rattle.level_plan.specs.PlanOf.{PlanOf};
ghost use Rattle.share_wiring.specs.ReportOf.{ReportOf};
ghost use Rattle.share_wiring.specs.Same.{Same};
ghost use Rattle.pipeline_balance.specs.Apart.{HasNames};
ghost use Rattle.pipeline_balance.specs.Ready.{CanBePiped, FitsOrder, IsLaidOut};
ghost use Rattle.pipeline_balance.specs.Reporting.{pipe_report};

use crate::chains::Layout;
use crate::entering::enter;
use crate::layouts::layout_of;
use crate::outputs::lead_out;
use crate::pipeline::make_pipeline;
use crate::reports::report_of;
use agm_bits::Memory;
use agm_net::{Marks, Net};
use level_plan::Plan;
use logic_graph::{Graph, Xan};
use secrecy_spread::Secrets;
use share_wiring::{Balance, Builder, Masked, Mode, Report};
use std::alloc::Global;

// The masked net on S shares.
fn masked_net<const S: usize>(
    alloc: Global,
    net: &Net,
    marks: &Marks,
    graph: &Graph,
    secrets: &Secrets,
    xan: &Xan,
    plan: &Plan,
    layout: &Layout,
    report: &Report,
) -> Result<Net, Memory>
    requires piped { CanBePiped (plain_of net.now) marks.now.kinds graph.now secrets.now xan.now plan.now }
    requires fits { FitsOrder secrets.now plan.now report.now.order }
    requires laid { IsLaidOut xan.now secrets.now plan.now layout.now }
    requires report { report.now ≡ pipe_report secrets.now plan.now net.now.ports report.now.mode report.now.order }
    requires size { report.now.order + 1 ≡ S }
    ensures same { IfOk result (λ masked. Same (plain_of net.now) marks.now.kinds report.now (plain_of masked)) }
    ensures small { IfOk result (λ masked. IsSmallNet (plain_of masked)) }
    ensures network { IfOk result (λ masked. Hpc2 (plain_of masked) report.now.order) }
    ensures gadgets { IfOk result (λ masked. HasGadgets (plain_of masked) report.now.order report.now.gadgets) }
{
    let shared = secrets.ports.as_slice();
    let mut builder = Builder::new(alloc)?;
    let registers = secrets.registers.as_slice();
    let entrance = enter::<S>(&mut builder, net, shared, registers, report)?;
    let sinks = xan.sinks.as_slice();
    let (outputs, nexts) = sinks.split_at(sinks.len() - net.registers.len());
    let values = make_pipeline(
        &mut builder,
        entrance.load,
        entrance.inputs.as_slice(),
        entrance.firsts.as_slice(),
        xan.nodes.as_slice(),
        outputs,
        nexts,
        layout,
        plan.depth,
    )?;
    lead_out(&mut builder, net, shared, report, values.as_slice())?;
    let masked = builder.finish()?;
    Ok(masked)
}

// Chooses the number of shares by the order.
macro_rules! by_order {
    ($order:expr, $masked:ident($($argument:expr),*)) => {
        match $order {
            1 => $masked::<2>($($argument),*),
            2 => $masked::<3>($($argument),*),
            3 => $masked::<4>($($argument),*),
            4 => $masked::<5>($($argument),*),
            5 => $masked::<6>($($argument),*),
            6 => $masked::<7>($($argument),*),
            7 => $masked::<8>($($argument),*),
            _ => unreachable!(),
        }
    };
}

// The masked net at the order of its report.
fn masked_at(
    alloc: Global,
    net: &Net,
    marks: &Marks,
    graph: &Graph,
    secrets: &Secrets,
    xan: &Xan,
    plan: &Plan,
    layout: &Layout,
    report: &Report,
) -> Result<Net, Memory>
    requires piped { CanBePiped (plain_of net.now) marks.now.kinds graph.now secrets.now xan.now plan.now }
    requires fits { FitsOrder secrets.now plan.now report.now.order }
    requires laid { IsLaidOut xan.now secrets.now plan.now layout.now }
    requires report { report.now ≡ pipe_report secrets.now plan.now net.now.ports report.now.mode report.now.order }
    ensures same { IfOk result (λ masked. Same (plain_of net.now) marks.now.kinds report.now (plain_of masked)) }
    ensures small { IfOk result (λ masked. IsSmallNet (plain_of masked)) }
    ensures network { IfOk result (λ masked. Hpc2 (plain_of masked) report.now.order) }
    ensures gadgets { IfOk result (λ masked. HasGadgets (plain_of masked) report.now.order report.now.gadgets) }
{
    by_order!(
        report.order,
        masked_net(alloc, net, marks, graph, secrets, xan, plan, layout, report)
    )
}

/// Masks a net as a pipeline, at an order. `xan` is a graph of inversions, products and exclusive ors that computes what the net does, as
/// a mode makes it of the net's graph, and `plan` is its plan.
///
/// Takes time and memory in the size of the masked net.
///
/// # Errors
///
/// `Memory` where memory runs out.
pub fn pipelined(
    alloc: Global,
    net: &Net,
    marks: &Marks,
    graph: &Graph,
    secrets: &Secrets,
    xan: &Xan,
    plan: &Plan,
    mode: Mode,
    order: u32,
) -> Result<Masked, Memory>
    requires names { HasNames (plain_of net.now) }
    requires no_loop { HasNoLoop (plain_of net.now) }
    requires graph_of { IsGraphOf (plain_of net.now) graph.now }
    requires marked { length marks.now.kinds ≡ length net.now.ports }
    requires secrets { SecretsOf (plain_of net.now) graph.now marks.now.kinds secrets.now }
    requires same { SameSinks graph.now xan.now }
    requires among { SourcesAmong graph.now xan.now }
    requires public { StaysPublic graph.now secrets.now xan.now }
    requires plan { PlanOf xan.now secrets.now plan.now }
    requires order { (1 ≤ order) × (order ≤ 7) }
    requires random { plan.now.gadgets * order * (order + 1) / 2 ≤ 65536 }
    requires publics { count_by not secrets.now.registers ≤ 65536 }
    requires hidden { count_by (λ s. s) secrets.now.registers ≤ 65536 }
    ensures same { IfOk result (λ m. Same (plain_of net.now) marks.now.kinds m.report (plain_of m.net)) }
    ensures report { IfOk result (λ m. ReportOf (plain_of net.now) marks.now.kinds order mode Balance.Pipe plan.now.gadgets plan.now.depth m.report) }
    ensures small { IfOk result (λ m. IsSmallNet (plain_of m.net)) }
    ensures network { IfOk result (λ m. Hpc2 (plain_of m.net) order) }
    ensures gadgets { IfOk result (λ m. HasGadgets (plain_of m.net) order m.report.gadgets) }
{
    let layout = layout_of(alloc, xan, secrets, plan)?;
    let report = report_of(alloc, net, secrets, plan, mode, order)?;
    let masked = masked_at(
        alloc, net, marks, graph, secrets, xan, plan, &layout, &report,
    )?;
    Ok(Masked {
        net: masked,
        report,
    })
}
