//! Whether a net is an HPC2 network.

ghost use Rattle.std.specs.Prelude.{◌≡◌, ◌<◌, ◌↔◌, ◌&&◌, IfErr, IfOk, IsTrue, MatchOption, OnOk, length};
ghost use Rattle.agm_net.specs.Label.{HasLabel};
ghost use Rattle.agm_net.specs.Loop.{HasNoLoop};
ghost use Rattle.agm_net.specs.Network.{Keeps};
ghost use Rattle.agm_net.specs.View.{plain_of};
ghost use Rattle.hpc2_audit.specs.Audited.{AllKeep, AreLabels, IsAudited, IsFirstBroken, KeepsOwn, Refuses};
ghost use Rattle.hpc2_audit.specs.Gadgets.{AreWhole, IsNumbering};
ghost use Rattle.hpc2_audit.specs.Rules.{HasSomeLabel};
ghost use Rattle.hpc2_audit.specs.Sheet.{IsSheet};

use crate::gadgets::{Numbering, keeps_number, keeps_whole, numbering_of};
use crate::labels::label_of;
use crate::reads::keeps_reads;
use crate::recipes::keeps_made;
use crate::rules::{keeps_clock, keeps_ports};
use crate::sheet::{Sheet, sheet_of};
use agm_bits::{List, Memory};
use agm_net::{Label, Net};
use indexmap::IndexSet;
use logic_graph::{GraphFault, order as graph_of};
use std::alloc::Global;

/// What an audit tells of an HPC2 network.
#[derive(Debug, Drop)]
pub struct Audited {
    pub order: u32,
    /// How many gadgets there are. They have the numbers below.
    pub gadgets: usize,
    /// The label of each wire.
    pub labels: List<Label>,
}

/// Why a net is no HPC2 network.
#[derive(Debug, Drop)]
pub enum AuditFault {
    /// Each of these wires reads the next, and the last reads the first.
    Loop { wires: List<usize> },
    /// This wire breaks a rule, and none before it does.
    NotHpc2 { wire: usize },
    Memory,
}

impl From<Memory> for AuditFault {
    ghost use Rattle.hpc2_audit.specs.declared.verdict.AuditFault.TheVariants.{Memory as WantOfMemory};

    ghost from_gives = { λ _ e. e ≡ WantOfMemory };

    fn from(_: Memory) -> Self {
        AuditFault::Memory
    }
}

impl From<GraphFault> for AuditFault {
    ghost use Rattle.hpc2_audit.specs.Audited.{from_graph};

    ghost from_gives = { λ fault e. e ≡ from_graph fault };

    fn from(fault: GraphFault) -> Self {
        match fault {
            GraphFault::Loop { wires } => AuditFault::Loop { wires },
            GraphFault::Memory => AuditFault::Memory,
        }
    }
}

// Whether six facts hold.
fn all_six(a: bool, b: bool, c: bool, d: bool, e: bool, f: bool) -> bool
    ensures { result ≡ (a && (b && (c && (d && (e && f))))) }
{
    a && (b && (c && (d && (e && f))))
}

// Whether a wire keeps all rules that are asked of it alone.
fn keeps_own(net: &Net, sheet: &Sheet, numbering: Numbering, wire: usize) -> bool
    requires sheet { IsSheet (plain_of net.now) sheet.now }
    requires within { wire < length net.now.wires }
    requires numbering { IsNumbering (plain_of net.now) sheet.now.order numbering.count numbering.behind_gap }
    ensures { IsTrue result ↔ KeepsOwn (plain_of net.now) sheet.now.order wire }
{
    all_six(
        label_of(net, sheet, wire).is_some(),
        keeps_ports(net, sheet, wire),
        keeps_reads(net, sheet, wire),
        keeps_made(net, sheet, wire),
        keeps_clock(net, sheet, wire),
        keeps_number(net, sheet, numbering, wire),
    )
}

// Whether a wire keeps all rules, where some gadgets are known to be whole.
fn keeps(
    alloc: Global,
    net: &Net,
    sheet: &Sheet,
    numbering: Numbering,
    whole: &mut IndexSet<usize>,
    wire: usize,
) -> Result<bool, Memory>
    requires sheet { IsSheet (plain_of net.now) sheet.now }
    requires within { wire < length net.now.wires }
    requires numbering { IsNumbering (plain_of net.now) sheet.now.order numbering.count numbering.behind_gap }
    requires known { AreWhole (plain_of net.now) sheet.now.order whole.old.keys }
    ensures told { IfOk result (λ b. IsTrue b ↔ Keeps (plain_of net.now) sheet.now.order wire) }
    ensures known { OnOk result (AreWhole (plain_of net.now) sheet.now.order whole.new.keys) }
{
    if keeps_own(net, sheet, numbering, wire) {
        keeps_whole(alloc, net, sheet, whole, wire)
    } else {
        Ok(false)
    }
}

// The first wire that breaks a rule.
fn first_broken(
    alloc: Global,
    net: &Net,
    sheet: &Sheet,
    numbering: Numbering,
) -> Result<Option<usize>, Memory>
    requires sheet { IsSheet (plain_of net.now) sheet.now }
    requires numbering { IsNumbering (plain_of net.now) sheet.now.order numbering.count numbering.behind_gap }
    ensures { IfOk result (λ b. MatchOption b (AllKeep (plain_of net.now) sheet.now.order) (IsFirstBroken (plain_of net.now) sheet.now.order)) }
{
    let mut whole = IndexSet::new(alloc);
    for wire in 0..net.wires.len() {
        if !keeps(alloc, net, sheet, numbering, &mut whole, wire)? {
            return Ok(Some(wire));
        }
    }
    Ok(None)
}

// The label of a wire that has one.
fn given_label(net: &Net, sheet: &Sheet, wire: usize) -> Label
    requires sheet { IsSheet (plain_of net.now) sheet.now }
    requires within { wire < length net.now.wires }
    requires labelled { HasSomeLabel (plain_of net.now) sheet.now.order wire }
    ensures { HasLabel (plain_of net.now) sheet.now.order wire result }
{
    match label_of(net, sheet, wire) {
        Some(label) => label,
        None => unreachable!(),
    }
}

// The labels of all wires, which keep all rules.
fn labels_of(alloc: Global, net: &Net, sheet: &Sheet) -> Result<List<Label>, Memory>
    requires sheet { IsSheet (plain_of net.now) sheet.now }
    requires keep { AllKeep (plain_of net.now) sheet.now.order }
    ensures { IfOk result (AreLabels (plain_of net.now) sheet.now.order) }
{
    let mut labels = List::new(alloc);
    for wire in 0..net.wires.len() {
        labels.push(given_label(net, sheet, wire))?;
    }
    Ok(labels)
}

// What is told of a net without a loop.
fn judged(alloc: Global, net: &Net, order: u32) -> Result<Audited, AuditFault>
    requires order { order < 16 }
    requires no_loop { HasNoLoop (plain_of net.now) }
    ensures network { IfOk result (IsAudited (plain_of net.now) order) }
    ensures refused { IfErr result (Refuses (plain_of net.now) order) }
{
    let sheet = sheet_of(alloc, net, order)?;
    let numbering = numbering_of(alloc, net, &sheet)?;
    match first_broken(alloc, net, &sheet, numbering)? {
        Some(wire) => Err(AuditFault::NotHpc2 { wire }),
        None => {
            let labels = labels_of(alloc, net, &sheet)?;
            Ok(Audited {
                order,
                gadgets: numbering.count,
                labels,
            })
        }
    }
}

/// Whether a net is an HPC2 network of an order, with the number of its gadgets and the label of each wire.
///
/// Takes time and memory near linear in the net, for each order.
///
/// # Errors
///
/// `Loop` exactly where the net has a loop. Else `NotHpc2` exactly where a wire breaks a rule, with the first that does. `Memory`
/// where memory runs out.
pub fn audit(alloc: Global, net: &Net, order: u32) -> Result<Audited, AuditFault>
    requires { order < 16 }
    ensures network { IfOk result (IsAudited (plain_of net.now) order) }
    ensures refused { IfErr result (Refuses (plain_of net.now) order) }
{
    let _graph = graph_of(alloc, net)?;
    judged(alloc, net, order)
}
