//! The twin of a random tape.

ghost use Rattle.std.specs.Prelude.{◌≡◌, ◌<◌, ◌+◌, All, IfOk, length};
ghost use Rattle.agm_net.specs.Loop.{HasNoLoop};
ghost use Rattle.agm_net.specs.Network.{Hpc2};
ghost use Rattle.agm_net.specs.Plain.{data_ports};
ghost use Rattle.agm_net.specs.View.{plain_of};
ghost use Rattle.probe_cones.specs.Inputs.{random_width, roles};
ghost use Rattle.probe_cones.specs.Observing.{flags_of};
ghost use Rattle.twin_tape.specs.Allowed.{label_at};
ghost use Rattle.twin_tape.specs.Permitted.{AreLabels};
ghost use Rattle.twin_tape.specs.Security.{AreProbes};
ghost use Rattle.twin_tape.specs.Twinned as spec;

use crate::changes::row_of;
use crate::pairs::{Pair, pairs_of};
use crate::plan::{Plan, plan_of};
use agm_bits::{BitRow, List, Memory, Tape};
use agm_net::{Label, Net};
use cycle_sim::Sim;
use probe_cones::{Probes, begun, bits_of_wires, join, random_flags, run_table};
use std::alloc::Global;

// Runs the next cycle of the second world: first with the row of the random tape, since what is read does not depend on it, and
// then again with that of the twin, which it answers.
fn next_row(
    alloc: Global,
    net: &Net,
    sim: &mut Sim,
    flags: &[bool],
    plan: &Plan,
    pairs: &[Pair],
    table: &[BitRow],
    cycle: usize,
    second: &BitRow,
    random: &BitRow,
) -> Result<BitRow, Memory>
    requires no_loop { HasNoLoop (plain_of net.now) }
    requires running { spec.IsRunning (plain_of net.now) sim.old }
    requires flags { flags.now ≡ flags_of (data_ports (plain_of net.now)) }
    requires cycle { cycle < plan.now.cycles }
    requires stages { length plan.now.stages ≡ plan.now.cycles + 1 }
    requires table { length table.now ≡ plan.now.cycles }
    ensures { IfOk result (spec.Moves (plain_of net.now) flags.now plan.now pairs.now table.now cycle second.now random.now sim.old sim.new) }
{
    let _ = net.wires.len();
    let drawn = join(alloc, flags, second, random)?;
    sim.step(drawn.as_slice());
    let other = bits_of_wires(alloc, sim)?;
    let row = row_of(alloc, plan, pairs, table, &other, cycle, random)?;
    let changed = join(alloc, flags, second, &row)?;
    sim.redo(changed.as_slice());
    Ok(row)
}

// A tape of these rows.
fn tape_of(width: usize, rows: List<BitRow>) -> Tape
    requires { All (λ r. length r ≡ width) rows }
    ensures width { result.width ≡ width }
    ensures rows { result.rows ≡ rows }
{
    Tape { width, rows }
}

// The rows of the twin.
fn rows_of(
    alloc: Global,
    net: &Net,
    labels: &[Label],
    order: u32,
    power_up: &BitRow,
    probes: &Probes,
    first: &Tape,
    second: &Tape,
    random: &Tape,
) -> Result<List<BitRow>, Memory>
    requires network { Hpc2 (plain_of net.now) order }
    requires as_many { length labels.now ≡ length net.now.wires }
    requires labels { AreLabels (plain_of net.now) order (label_at labels.now) }
    requires powered { length power_up.now ≡ length net.now.registers }
    requires probes { AreProbes (plain_of net.now) (length random.now.rows) probes.now.probes }
    requires first_long { length first.now.rows ≡ length random.now.rows }
    requires second_long { length second.now.rows ≡ length random.now.rows }
    requires random_wide { random.now.width ≡ random_width (plain_of net.now) }
    ensures { IfOk result (spec.IsTwinOf (plain_of net.now) order (label_at labels.now) probes.now (length random.now.rows) power_up.now first.now.rows second.now.rows random.now.rows) }
{
    let pairs = pairs_of(alloc, net, labels, order)?;
    let plan = plan_of(alloc, labels, probes, random.rows.len())?;
    let table = run_table(alloc, net, power_up, first, random)?;
    let flags = random_flags(alloc, net)?;
    let mut sim = begun(alloc, net, power_up)?;
    let mut rows = List::new(alloc);
    for cycle in 0..random.rows.len() {
        let row = next_row(
            alloc,
            net,
            &mut sim,
            flags.as_slice(),
            &plan,
            pairs.as_slice(),
            table.as_slice(),
            cycle,
            &second.rows.as_slice()[cycle],
            &random.rows.as_slice()[cycle],
        )?;
        rows.push(row)?;
    }
    Ok(rows)
}

/// The twin of a random tape, for two tapes of the other input bits: each bit of it is that of the random tape, or that inverted
/// where its pair of share indices, the probes and what a factor has in the two worlds ask it. Where the two tapes agree in the public
/// bits and in the shares of the permitted indices, probes and listed indices see of the second one with the twin what they see of
/// the first one with the random tape, and the twin of the twin, for the tapes exchanged, is the random tape.
///
/// The net is an HPC2 network of the order, `labels` has the label of each wire, and `power_up` one bit for each register.
///
/// Takes time and memory in the number of rows and of the net's nodes.
///
/// # Errors
///
/// `Memory` where memory runs out.
pub fn twin(
    alloc: Global,
    net: &Net,
    labels: &[Label],
    order: u32,
    power_up: &BitRow,
    probes: &Probes,
    first: &Tape,
    second: &Tape,
    random: &Tape,
) -> Result<Tape, Memory>
    requires network { Hpc2 (plain_of net.now) order }
    requires as_many { length labels.now ≡ length net.now.wires }
    requires labels { AreLabels (plain_of net.now) order (label_at labels.now) }
    requires powered { length power_up.now ≡ length net.now.registers }
    requires probes { AreProbes (plain_of net.now) (length random.now.rows) probes.now.probes }
    requires first_long { length first.now.rows ≡ length random.now.rows }
    requires second_long { length second.now.rows ≡ length random.now.rows }
    requires first_wide { first.now.width ≡ length (roles (plain_of net.now)) }
    requires random_wide { random.now.width ≡ random_width (plain_of net.now) }
    ensures width { IfOk result (λ made. made.width ≡ random.now.width) }
    ensures twin { IfOk result (λ made. spec.IsTwinOf (plain_of net.now) order (label_at labels.now) probes.now (length random.now.rows) power_up.now first.now.rows second.now.rows random.now.rows made.rows) }
    ensures alike { IfOk result (λ made. spec.SeesAlike (plain_of net.now) order (label_at labels.now) probes.now (length random.now.rows) power_up.now first.now.rows second.now.rows random.now.rows made.rows) }
    ensures back { IfOk result (λ made. spec.LeadsBack (plain_of net.now) order (label_at labels.now) probes.now (length random.now.rows) power_up.now first.now.rows second.now.rows random.now.rows made.rows) }
{
    let rows = rows_of(
        alloc, net, labels, order, power_up, probes, first, second, random,
    )?;
    Ok(tape_of(random.width, rows))
}
