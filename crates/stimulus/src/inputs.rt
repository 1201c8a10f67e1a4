//! The input ports of a net.

ghost use Rattle.std.specs.Prelude.{◌≡◌, ◌++◌, ◌<◌, ◌∷◌, [], ℕ, Some, IfOk, OnOk, length, map, filter, not, codes};
ghost use Rattle.std.specs.Str.{bytes_eq};
ghost use Rattle.agm_net.specs.Plain.{is_input, ports_but};
ghost use Rattle.agm_net.specs.View.{plain_of};
ghost use Rattle.agm_net.specs.WellFormed.{Differ};
ghost use Rattle.stimulus.specs.Asked as spec;

use agm_bits::{List, Memory, Name};
use agm_net::{Net, Port, Way};
use name_table::Names;
use std::alloc::Global;

/// An input port.
#[derive(Debug, Drop)]
pub struct Input {
    pub name: Name,
    /// The number of its bits.
    pub width: usize,
}

/// What a stimulus of a net is held against: the number of its registers, its input ports but the clock's in port order, and
/// their names.
#[derive(Debug, Drop)]
pub(crate) struct Wanted {
    pub registers: usize,
    pub inputs: List<Input>,
    pub names: Names,
    ghost named: { names ≡ spec.names_of inputs },
}

// Adds the input ports among these.
fn add_inputs(alloc: Global, inputs: &mut List<Input>, ports: &[Port]) -> Result<(), Memory>
    ensures { OnOk result (inputs.new ≡ inputs.old ++ map spec.input_of (filter is_input ports.now)) }
{
    for port in ports {
        if port.way == Way::Input {
            inputs.push(Input {
                name: List::from_slice(alloc, port.name.as_slice())?,
                width: port.bits.len(),
            })?;
        }
    }
    Ok(())
}

// The input ports but the clock's.
fn inputs_of(alloc: Global, ports: &[Port], clock: Option<usize>) -> Result<List<Input>, Memory>
    requires { (c : ℕ) → clock ≡ Some c → c < length ports.now }
    ensures { IfOk result (λ inputs. inputs ≡ map spec.input_of (filter is_input (ports_but clock ports.now))) }
{
    let mut inputs = List::new(alloc);
    match clock {
        None => add_inputs(alloc, &mut inputs, ports)?,
        Some(number) => {
            add_inputs(alloc, &mut inputs, &ports[..number])?;
            add_inputs(alloc, &mut inputs, &ports[number + 1..])?;
        }
    }
    Ok(inputs)
}

// The names of inputs.
fn names_of(alloc: Global, inputs: &[Input]) -> Result<Names, Memory>
    requires { Differ (spec.names_of inputs.now) }
    ensures { IfOk result (λ names. names ≡ spec.names_of inputs.now) }
{
    let mut names = Names::new(alloc);
    for input in inputs {
        names.add(input.name.as_slice())?;
    }
    Ok(names)
}

/// What a stimulus of a net is held against.
pub(crate) fn wanted_of(alloc: Global, net: &Net, clock: Option<usize>) -> Result<Wanted, Memory>
    requires { clock ≡ net.now.clock }
    ensures registers { IfOk result (λ wanted. wanted.registers ≡ length net.now.registers) }
    ensures inputs { IfOk result (λ wanted. wanted.inputs ≡ spec.inputs_of (plain_of net.now)) }
{
    let inputs = inputs_of(alloc, net.ports.as_slice(), clock)?;
    let names = names_of(alloc, inputs.as_slice())?;
    Ok(Wanted {
        registers: net.registers.len(),
        inputs,
        names,
    })
}

// The inputs but `agm_r`.
fn but_random(alloc: Global, inputs: List<Input>) -> Result<List<Input>, Memory>
    ensures { IfOk result (λ kept. kept ≡ filter (λ i. not (bytes_eq i.name (codes "agm_r"))) inputs) }
{
    let mut kept = List::new(alloc);
    for input in inputs.into_vec() {
        if input.name.as_slice() != b"agm_r".as_slice() {
            kept.push(input)?;
        }
    }
    Ok(kept)
}

/// What a tape of a masked net is held against: all input ports but the clock's and `agm_r`.
pub(crate) fn tape_wanted(alloc: Global, net: &Net) -> Result<Wanted, Memory>
    ensures { IfOk result (λ wanted. wanted.inputs ≡ spec.tape_inputs (plain_of net.now)) }
{
    let inputs = inputs_of(alloc, net.ports.as_slice(), net.clock)?;
    let inputs = but_random(alloc, inputs)?;
    let names = names_of(alloc, inputs.as_slice())?;
    Ok(Wanted {
        registers: net.registers.len(),
        inputs,
        names,
    })
}
