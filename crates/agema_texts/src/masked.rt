ghost use Rattle.std.specs.Prelude.{◌≡◌, ◌≤◌, OnOk, IfOk, IfErr, length, map, string_bytes};
ghost use Rattle.std.specs.List.{AllByRecursion};
ghost use Rattle.agm_net.specs.View.{plain_of};
ghost use Rattle.agm_net.specs.Writable.{IsWritable};
ghost use Rattle.cell_library.specs.Spelled.{cell_of};
ghost use Rattle.verilog_reader.specs.View.{design_view};
ghost use Rattle.annotations.specs.Rules.{annotation_rules};
ghost use Rattle.logic_graph.specs.GraphOf.{IsGraphOf};
ghost use Rattle.agema_texts.specs.Original.{EndsBy, length_limit};
ghost use Rattle.agema_texts.specs.Comparing.{IsMade, IsMadeOf};
ghost use Rattle.agema_texts.specs.Line.{mask_line as mask_line_of};
ghost use Rattle.agema_texts.specs.Masks.{Masks, IsUnmasked, size_of, size_limit};
ghost use Rattle.agema_texts.specs.Width.{IsNarrow, width_of, width_limit};
ghost use Rattle.level_plan.specs.PlanOf.{PlanOf};
ghost use Rattle.masked_writer.specs.Report.{report_text as report_text_of};
ghost use Rattle.secrecy_spread.specs.Mode.{IsMadeBy};
ghost use Rattle.secrecy_spread.specs.Naive.{NaiveGadgets, NaiveDepth};
ghost use Rattle.secrecy_spread.specs.SecretsOf.{SecretsOf};
ghost use Rattle.agema_texts.specs.Marked.{HasTopModule, IsMarked, IsUnmarked, IsOverSize, IsMaskable, IsTooBig};

use crate::leaks::secrets_of;
use crate::line::mask_line;
use crate::marks::annotation_ended;
use crate::planned::{Planned, plan_naive};
use crate::read::{Read, read_net};
use crate::size::exceeds;
use crate::width::check_width;
use agema_answers::{Ended, Refusal};
use agm_bits::{Memory, Name};
use agm_net::{Marks, Net};
use annotations::annotate;
use bound_names::bound_ports_are_named;
use cell_library::Library;
use design_binds::write_net;
use logic_graph::Graph;
use masked_writer::report_text;
use pipeline_balance::pipelined;
use secrecy_spread::Secrets;
use share_wiring::{Masked, Mode, renumbered_is_same};
use std::alloc::Global;
use whole_networks::{
    named_networks_are_secure, renumbered_has_gadgets, renumbered_is_net, renumbered_is_network,
};

/// What `mask` leaves: the masked netlist, the report, and the printed line.
#[derive(Debug, Drop)]
pub struct Texts {
    pub net: Name,
    pub report: String,
    pub line: String,
}

/// An original with its masked net, and the text that is written of that.
#[derive(Debug, Drop)]
pub struct MaskedOriginal {
    pub original: Net,
    pub masked: Masked,
    pub out: Name,
}

// A masked net, and the text that is written of it.
#[derive(Debug, Drop)]
struct Made {
    masked: Masked,
    out: Name,
}

// The marks of the ports of a net that was read.
fn marks_of(alloc: Global, read: &Read) -> Result<Marks, Ended>
    requires { HasTopModule (design_view read.now.design) }
    ensures ok { IfOk result (λ marks. IsMarked (design_view read.now.design) (plain_of read.now.net) marks.kinds) }
    ensures err { IfErr result (EndsBy (IsUnmarked annotation_rules (design_view read.now.design) (plain_of read.now.net))) }
{
    match annotate(alloc, &read.design, &read.net) {
        Ok(marks) => Ok(marks),
        Err(fault) => Err(annotation_ended(fault)),
    }
}

// Whether a net is not too large.
fn check_size(graph: &Graph, net: &Net, order: u32) -> Result<(), Ended>
    requires order { order ≤ 7 }
    requires graph_of { IsGraphOf (plain_of net.now) graph.now }
    ensures ok { OnOk result (size_of (plain_of net.now) order ≤ size_limit) }
    ensures err { IfErr result (EndsBy (IsOverSize (plain_of net.now) order)) }
{
    let operators = graph.operators();
    if exceeds(operators, order) {
        return Err(Ended::Refused(Refusal::TooLarge { operators }));
    }
    Ok(())
}

// The graph and the plan of a net that is not too large, where no port of the masked net is too wide.
fn planned_within(
    alloc: Global,
    read: &Read,
    marks: &Marks,
    secrets: &Secrets,
    order: u32,
) -> Result<Planned, Ended>
    requires order { order ≤ 7 }
    requires graph_of { IsGraphOf (plain_of read.now.net) read.now.graph }
    requires secrets_of { SecretsOf (plain_of read.now.net) read.now.graph marks.now.kinds secrets.now }
    ensures fits { OnOk result ((size_of (plain_of read.now.net) order ≤ size_limit) × IsNarrow (plain_of read.now.net) marks.now.kinds order) }
    ensures made { IfOk result (λ p. IsMadeBy NaiveGadgets NaiveDepth read.now.graph secrets.now p.xan) }
    ensures planned { IfOk result (λ p. PlanOf p.xan secrets.now p.plan) }
    ensures narrow { IfOk result (λ p. width_of order p.plan.gadgets secrets.now.registers ≤ width_limit) }
    ensures err { IfErr result (EndsBy (IsTooBig (plain_of read.now.net) marks.now.kinds order)) }
{
    check_size(&read.graph, &read.net, order)?;
    let planned = match plan_naive(alloc, &read.graph, secrets) {
        Ok(planned) => planned,
        Err(_) => return Err(Ended::Memory),
    };
    check_width(order, planned.plan.gadgets, secrets.registers.as_slice())?;
    Ok(planned)
}

// The masked net of an original, and the text that is written of it.
fn made_of(
    alloc: Global,
    read: &Read,
    marks: &Marks,
    secrets: &Secrets,
    planned: &Planned,
    order: u32,
) -> Result<Made, Memory>
    requires original { IsMaskable (plain_of read.now.net) read.now.graph marks.now.kinds secrets.now planned.now.xan planned.now.plan order }
    ensures { IfOk result (λ m. IsMadeOf (plain_of read.now.net) marks.now.kinds order (plain_of m.masked.net) m.masked.report m.out) }
{
    renumbered_is_same();
    renumbered_is_net();
    renumbered_is_network();
    renumbered_has_gadgets();
    named_networks_are_secure();
    let masked = pipelined(
        alloc,
        &read.net,
        marks,
        &read.graph,
        secrets,
        &planned.xan,
        &planned.plan,
        Mode::Naive,
        order,
    )?;
    let out = write_net(alloc, &masked.net)?;
    Ok(Made { masked, out })
}

/// The masked net of the original that a netlist gives, over the cells of a library.
///
/// # Errors
///
/// `Refused` where the netlist isn't masked, and `Memory` where memory runs out.
pub fn masked_original(
    alloc: Global,
    library: &Library,
    bytes: &[u8],
    order: u32,
) -> Result<MaskedOriginal, Ended>
    requires short { length bytes.now ≤ length_limit }
    requires first { 1 ≤ order }
    requires last { order ≤ 7 }
    ensures ok { IfOk result (λ m. IsMade (map cell_of library.now.cells) bytes.now order (plain_of m.original) (plain_of m.masked.net) m.masked.report m.out) }
    ensures err { IfErr result (EndsBy (IsUnmasked (map cell_of library.now.cells) bytes.now order)) }
{
    bound_ports_are_named();
    let read = read_net(alloc, library, bytes)?;
    let marks = marks_of(alloc, &read)?;
    let secrets = secrets_of(alloc, &read.net, &read.graph, &marks)?;
    let planned = planned_within(alloc, &read, &marks, &secrets, order)?;
    match made_of(alloc, &read, &marks, &secrets, &planned, order) {
        Ok(made) => Ok(MaskedOriginal {
            original: read.net,
            masked: made.masked,
            out: made.out,
        }),
        Err(_) => Err(Ended::Memory),
    }
}

// The texts of a masked net.
fn texts_of(alloc: Global, made: MaskedOriginal) -> Result<Texts, Memory>
    requires { AllByRecursion IsWritable made.masked.report.ports }
    ensures net { IfOk result (λ t. t.net ≡ made.out) }
    ensures report { IfOk result (λ t. string_bytes t.report ≡ report_text_of made.masked.report) }
    ensures line { IfOk result (λ t. string_bytes t.line ≡ mask_line_of made.masked.report) }
{
    let report = report_text(alloc, &made.masked.report)?;
    let line = mask_line(alloc, &made.masked.report)?;
    Ok(Texts {
        net: made.out,
        report,
        line,
    })
}

/// The texts for a netlist, over the cells of a library.
///
/// # Errors
///
/// `Refused` where the netlist isn't masked, and `Memory` where memory runs out.
pub fn masked_texts(
    alloc: Global,
    library: &Library,
    bytes: &[u8],
    order: u32,
) -> Result<Texts, Ended>
    requires short { length bytes.now ≤ length_limit }
    requires first { 1 ≤ order }
    requires last { order ≤ 7 }
    ensures ok { IfOk result (λ t. Masks (map cell_of library.now.cells) bytes.now order t.net (string_bytes t.report) (string_bytes t.line)) }
    ensures err { IfErr result (EndsBy (IsUnmasked (map cell_of library.now.cells) bytes.now order)) }
{
    let made = masked_original(alloc, library, bytes, order)?;
    match texts_of(alloc, made) {
        Ok(texts) => Ok(texts),
        Err(_) => Err(Ended::Memory),
    }
}
