//! The report of a pipeline.

ghost use Rattle.std.specs.Prelude.{◌≡◌, ◌≤◌, ◌+◌, ◌*◌, ◌/◌, ◌++◌, ◌∷◌, [], not, cond, length, count_by, IfOk, OnOk};
ghost use Rattle.pipeline_balance.specs.Reporting.{flagged_names, pipe_report};

use agm_bits::{List, Memory, Name};
use agm_net::{Net, Port};
use level_plan::Plan;
use secrecy_spread::Secrets;
use share_wiring::{Balance, Mode, Report};
use std::alloc::Global;

// Adds a name where it has a flag.
fn push_flagged(
    alloc: Global,
    names: &mut List<Name>,
    flag: bool,
    name: &[u8],
) -> Result<(), Memory>
    ensures { OnOk result (names.new ≡ names.old ++ cond flag (name.now ∷ []) []) }
{
    if flag {
        let copy = Name::from_slice(alloc, name)?;
        names.push(copy)?;
    }
    Ok(())
}

// The names of the ports with a flag.
fn flagged(alloc: Global, ports: &[Port], flags: &[bool]) -> Result<List<Name>, Memory>
    requires { length flags.now ≡ length ports.now }
    ensures { IfOk result (λ names. names ≡ flagged_names flags.now ports.now) }
{
    let mut names = List::new(alloc);
    for (k, port) in ports.iter().enumerate() {
        push_flagged(alloc, &mut names, flags[k], port.name.as_slice())?;
    }
    Ok(names)
}

// How many of some flags are set.
fn count_set(flags: &[bool]) -> usize
    ensures { result ≡ count_by (λ s. s) flags.now }
{
    flags.iter().filter(|flag| **flag).count()
}

// How many are not.
fn count_unset(flags: &[bool]) -> usize
    ensures { result ≡ count_by not flags.now }
{
    flags.iter().filter(|flag| !**flag).count()
}

// How many random bits so many gadgets take at an order.
fn random_bits(gadgets: usize, order: u32) -> usize
    requires order { (1 ≤ order) × (order ≤ 7) }
    requires few { gadgets * order * (order + 1) / 2 ≤ 65536 }
    ensures { result ≡ gadgets * order * (order + 1) / 2 }
{
    gadgets * order as usize * (order as usize + 1) / 2
}

/// The report of the pipeline of a plan.
pub fn report_of(
    alloc: Global,
    net: &Net,
    secrets: &Secrets,
    plan: &Plan,
    mode: Mode,
    order: u32,
) -> Result<Report, Memory>
    requires flags { length secrets.now.ports ≡ length net.now.ports }
    requires order { (1 ≤ order) × (order ≤ 7) }
    requires few { plan.now.gadgets * order * (order + 1) / 2 ≤ 65536 }
    ensures { IfOk result (λ report. report ≡ pipe_report secrets.now plan.now net.now.ports mode order) }
{
    // A value can't be held for as many cycles as there are numbers: that would want more registers than fit in memory.
    let Some(period) = plan.depth.checked_add(1) else {
        return Err(Memory);
    };
    let registers = secrets.registers.as_slice();
    Ok(Report {
        order,
        mode,
        balance: Balance::Pipe,
        gadgets: plan.gadgets,
        random: random_bits(plan.gadgets, order),
        latency: plan.depth,
        period,
        streams: period,
        public_registers: count_unset(registers),
        secret_registers: count_set(registers),
        ports: flagged(alloc, net.ports.as_slice(), secrets.ports.as_slice())?,
    })
}
