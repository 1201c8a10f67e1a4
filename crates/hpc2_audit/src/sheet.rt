//! The tables of an audit.

ghost use Rattle.std.specs.Prelude.{◌≡◌, ◌<◌, ◌++◌, ℕ, IfOk, OnOk, Some, filter, length, map};
ghost use Rattle.std.specs.List.{flat_map};
ghost use Rattle.agm_net.specs.Network.{random_bits_of};
ghost use Rattle.agm_net.specs.Plain.{bits_of_port, clock_bits, line_of, ports_but, stored_of};
ghost use Rattle.agm_net.specs.View.{plain_of};
ghost use Rattle.hpc2_audit.specs.Places.{ArePlaces};
ghost use Rattle.hpc2_audit.specs.Sheet.{IsSheet};
ghost use Rattle.hpc2_audit.specs.Sheet as spec;
ghost use Rattle.hpc2_audit.specs.Standing.{AreSaid, Says};

use crate::places::{Place, add_bits, places_in};
use crate::readers::{Readers, readers_of};
use crate::spelled::{Spelled, read_label};
use agm_bits::{List, Memory, Name};
use agm_net::{Equation, Net, Port, Register, Way};
use name_table::Names;
use std::alloc::Global;

/// What the rules ask of a net of an order, in tables.
#[derive(Debug, Drop)]
pub(crate) struct Sheet {
    pub(crate) order: u32,
    /// What each wire's name says; one that doesn't begin with `agm_` is public on a bit of a port, and else says nothing.
    pub(crate) said: List<Spelled>,
    /// Where each wire stands among those of the equations.
    pub(crate) lines: List<Place>,
    /// Where it stands among the outputs of registers.
    pub(crate) registers: List<Place>,
    /// Where it stands among the bits of the clock.
    pub(crate) clock: List<Place>,
    /// Where it stands among the bits of the input port `agm_r`.
    pub(crate) random: List<Place>,
    pub(crate) readers: List<Readers>,
    /// The names of all wires.
    pub(crate) names: Names,
}

// What a name says, by whether its wire is a bit of a port.
fn settled(spelled: Spelled, place: Place) -> Spelled
    ensures { result ≡ spec.settled spelled place }
{
    match spelled {
        Spelled::OfUser => match place {
            Place::At(_) => Spelled::OfPublic,
            Place::Nowhere => Spelled::OfNothing,
        },
        other => other,
    }
}

// What the name of a wire says.
fn said_of(net: &Net, bits: &[Place], wire: usize, order: u32) -> Spelled
    requires bits { ArePlaces (flat_map (λ p. p.bits) net.now.ports) (length net.now.wires) bits.now }
    requires within { wire < length net.now.wires }
    ensures { Says (plain_of net.now) order wire result }
{
    settled(
        read_label(net.wires.as_slice()[wire].as_slice(), order),
        bits[wire],
    )
}

// Where each wire stands among the bits of all ports.
fn port_places(alloc: Global, net: &Net) -> Result<List<Place>, Memory>
    ensures { IfOk result (ArePlaces (flat_map (λ p. p.bits) net.now.ports) (length net.now.wires)) }
{
    let mut bits = List::new(alloc);
    add_bits(&mut bits, net.ports.as_slice())?;
    places_in(alloc, net.wires.len(), bits.as_slice())
}

// What the names of all wires say.
fn all_said(alloc: Global, net: &Net, order: u32) -> Result<List<Spelled>, Memory>
    ensures { IfOk result (AreSaid (plain_of net.now) order) }
{
    let bits = port_places(alloc, net)?;
    let mut said = List::new(alloc);
    for wire in 0..net.wires.len() {
        said.push(said_of(net, bits.as_slice(), wire, order))?;
    }
    Ok(said)
}

// The wires of equations.
fn line_wires(alloc: Global, equations: &[Equation]) -> Result<List<usize>, Memory>
    ensures { IfOk result (λ wires. wires ≡ map (λ l. l.0) (map line_of equations.now)) }
{
    let mut wires = List::new(alloc);
    for equation in equations {
        wires.push(equation.wire)?;
    }
    Ok(wires)
}

// The outputs of registers.
fn register_wires(alloc: Global, registers: &[Register]) -> Result<List<usize>, Memory>
    ensures { IfOk result (λ wires. wires ≡ map (λ r. r.q) (map stored_of registers.now)) }
{
    let mut wires = List::new(alloc);
    for register in registers {
        wires.push(register.q)?;
    }
    Ok(wires)
}

// The bits of the clock.
fn clock_wires(alloc: Global, ports: &[Port], clock: Option<usize>) -> Result<List<usize>, Memory>
    ensures { IfOk result (λ wires. wires ≡ bits_of_port ports.now clock) }
{
    let mut wires = List::new(alloc);
    if let Some(number) = clock {
        if number < ports.len() {
            add_bits(&mut wires, &ports[number..number + 1])?;
        }
    }
    Ok(wires)
}

// Whether a port is an input port `agm_r`.
fn is_random_port(port: &Port) -> bool
    ensures { result ≡ spec.is_random_port port.now }
{
    match port.way {
        Way::Input => port.name.as_slice() == b"agm_r".as_slice(),
        Way::Output => false,
    }
}

// Adds the bits of the input ports `agm_r`.
fn add_random(wires: &mut List<usize>, ports: &[Port]) -> Result<(), Memory>
    ensures { OnOk result (wires.new ≡ wires.old ++ flat_map (λ p. p.bits) (filter spec.is_random_port ports.now)) }
{
    for port in ports {
        if is_random_port(port) {
            wires.extend(port.bits.as_slice())?;
        }
    }
    Ok(())
}

// The bits of the input ports `agm_r` but the clock's.
fn random_wires(alloc: Global, ports: &[Port], clock: Option<usize>) -> Result<List<usize>, Memory>
    requires { (c : ℕ) → clock ≡ Some c → c < length ports.now }
    ensures { IfOk result (λ wires. wires ≡ flat_map (λ p. p.bits) (filter spec.is_random_port (ports_but clock ports.now))) }
{
    let mut wires = List::new(alloc);
    match clock {
        None => add_random(&mut wires, ports)?,
        Some(number) => {
            add_random(&mut wires, &ports[..number])?;
            add_random(&mut wires, &ports[number + 1..])?;
        }
    }
    Ok(wires)
}

// Where each wire stands among those of equations.
fn line_places(alloc: Global, net: &Net) -> Result<List<Place>, Memory>
    ensures { IfOk result (ArePlaces (map (λ l. l.0) (plain_of net.now).lines) (length net.now.wires)) }
{
    let wires = line_wires(alloc, net.equations.as_slice())?;
    places_in(alloc, net.wires.len(), wires.as_slice())
}

// Where it stands among the outputs of registers.
fn register_places(alloc: Global, net: &Net) -> Result<List<Place>, Memory>
    ensures { IfOk result (ArePlaces (map (λ r. r.q) (plain_of net.now).registers) (length net.now.wires)) }
{
    let wires = register_wires(alloc, net.registers.as_slice())?;
    places_in(alloc, net.wires.len(), wires.as_slice())
}

// Where it stands among the bits of the clock.
fn clock_places(alloc: Global, net: &Net) -> Result<List<Place>, Memory>
    ensures { IfOk result (ArePlaces (clock_bits (plain_of net.now)) (length net.now.wires)) }
{
    let wires = clock_wires(alloc, net.ports.as_slice(), net.clock)?;
    places_in(alloc, net.wires.len(), wires.as_slice())
}

// Where it stands among the bits of the input port `agm_r`.
fn random_places(alloc: Global, net: &Net) -> Result<List<Place>, Memory>
    ensures { IfOk result (ArePlaces (random_bits_of (plain_of net.now)) (length net.now.wires)) }
{
    let wires = random_wires(alloc, net.ports.as_slice(), net.clock)?;
    places_in(alloc, net.wires.len(), wires.as_slice())
}

// The names of wires, each once.
fn names_of(alloc: Global, wires: &[Name]) -> Result<Names, Memory>
    ensures { IfOk result (spec.AreNamesOf wires.now) }
{
    let mut names = Names::new(alloc);
    for wire in wires {
        names.add(wire.as_slice())?;
    }
    Ok(names)
}

/// The tables of a net.
pub(crate) fn sheet_of(alloc: Global, net: &Net, order: u32) -> Result<Sheet, Memory>
    requires { order < 16 }
    ensures { IfOk result (λ sheet. IsSheet (plain_of net.now) sheet × (sheet.order ≡ order)) }
{
    Ok(Sheet {
        order,
        said: all_said(alloc, net, order)?,
        lines: line_places(alloc, net)?,
        registers: register_places(alloc, net)?,
        clock: clock_places(alloc, net)?,
        random: random_places(alloc, net)?,
        readers: readers_of(alloc, net)?,
        names: names_of(alloc, net.wires.as_slice())?,
    })
}
