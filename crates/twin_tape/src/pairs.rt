//! The pairs of a network's random bits, and the wires of their factors.

ghost use Rattle.std.specs.Prelude.{◌≡◌, ◌<◌, ◌++◌, ℕ, All, IfOk, IsTrue, OnOk, Some, filter, length, map};
ghost use Rattle.std.specs.List.{flat_map};
ghost use Rattle.agm_net.specs.Network.{Hpc2, random_bits_of};
ghost use Rattle.agm_net.specs.Plain.{ports_but};
ghost use Rattle.agm_net.specs.View.{plain_of};
ghost use Rattle.agm_net.specs.WellFormed.{Differ};
ghost use Rattle.twin_tape.specs.Allowed.{label_at};
ghost use Rattle.twin_tape.specs.Pairs as spec;
ghost use Rattle.twin_tape.specs.Permitted.{AreLabels};

use agm_bits::{List, Memory, Name};
use agm_net::{Label, Net, Port, Way};
use name_table::Names;
use std::alloc::Global;

/// A share index of a gadget, with the wires of both factors' shares of it.
#[derive(Clone, Copy, Debug, PartialEq, Eq)]
pub(crate) struct Side {
    pub(crate) index: usize,
    pub(crate) first: usize,
    pub(crate) second: usize,
}

/// The two share indices of a gadget that a random bit is for, the lower one first.
#[derive(Clone, Copy, Debug, PartialEq, Eq)]
pub(crate) struct Pair {
    pub(crate) gadget: usize,
    pub(crate) low: Side,
    pub(crate) high: Side,
}

// The names of wires, in their order.
fn names_of(alloc: Global, wires: &[Name]) -> Result<Names, Memory>
    requires { Differ wires.now }
    ensures { IfOk result (λ names. names ≡ wires.now) }
{
    let mut names = Names::new(alloc);
    for wire in wires {
        names.add(wire.as_slice())?;
    }
    Ok(names)
}

// The name of a share of a gadget's factor, which the letter tells.
fn factor_name(alloc: Global, gadget: usize, letter: &[u8], index: usize) -> Result<Name, Memory>
    ensures { IfOk result (λ n. n ≡ spec.factor_name gadget letter.now index) }
{
    let front = format!(in alloc; "agm_g{gadget}.")?;
    let mut name = Name::from_slice(alloc, front.as_bytes())?;
    name.extend(letter)?;
    name.extend(format!(in alloc; "[{index}]")?.as_bytes())?;
    Ok(name)
}

// The wire of a share of a gadget's factor.
fn factor_of(
    alloc: Global,
    names: &Names,
    gadget: usize,
    letter: &[u8],
    index: usize,
) -> Result<usize, Memory>
    requires { spec.HasName names.now (spec.factor_name gadget letter.now index) }
    ensures { IfOk result (λ w. w ≡ spec.wire_named names.now (spec.factor_name gadget letter.now index)) }
{
    let name = factor_name(alloc, gadget, letter, index)?;
    match names.find(name.as_slice()) {
        Some(wire) => Ok(wire),
        None => unreachable!(),
    }
}

// A share index of a gadget with its wires.
fn side_of(alloc: Global, names: &Names, gadget: usize, index: usize) -> Result<Side, Memory>
    requires { spec.HasSide names.now gadget index }
    ensures { IfOk result (λ s. s ≡ spec.side_for names.now gadget index) }
{
    let first = factor_of(alloc, names, gadget, b"a".as_slice(), index)?;
    let second = factor_of(alloc, names, gadget, b"b".as_slice(), index)?;
    Ok(Side {
        index,
        first,
        second,
    })
}

// The pair of a random bit, by its label.
fn pair_of(alloc: Global, names: &Names, label: Label) -> Result<Pair, Memory>
    requires { spec.HasPair names.now label }
    ensures { IfOk result (λ p. p ≡ spec.pair_for names.now label) }
{
    match label {
        Label::Random { gadget, i, j } => {
            let low = side_of(alloc, names, gadget, i)?;
            let high = side_of(alloc, names, gadget, j)?;
            Ok(Pair { gadget, low, high })
        }
        Label::Clock | Label::Public | Label::Share { .. } | Label::Inner { .. } => unreachable!(),
    }
}

// The pairs of some random bits.
fn pairs_among(
    alloc: Global,
    names: &Names,
    labels: &[Label],
    bits: &[usize],
) -> Result<List<Pair>, Memory>
    requires wires { All (λ w. w < length labels.now) bits.now }
    requires pairs { All (λ w. spec.HasPair names.now (label_at labels.now w)) bits.now }
    ensures { IfOk result (λ ps. ps ≡ map (λ w. spec.pair_for names.now (label_at labels.now w)) bits.now) }
{
    let mut pairs = List::new(alloc);
    for wire in bits {
        pairs.push(pair_of(alloc, names, labels[*wire])?)?;
    }
    Ok(pairs)
}

// Whether a port is an input port `agm_r`.
fn is_random_port(port: &Port) -> bool
    ensures { result ≡ spec.is_random_port port.now }
{
    match port.way {
        Way::Input => port.name.as_slice() == b"agm_r".as_slice(),
        Way::Output => false,
    }
}

// Adds the bits of the input ports `agm_r`.
fn add_random(wires: &mut List<usize>, ports: &[Port]) -> Result<(), Memory>
    ensures { OnOk result (wires.new ≡ wires.old ++ flat_map (λ p. p.bits) (filter spec.is_random_port ports.now)) }
{
    for port in ports {
        if is_random_port(port) {
            wires.extend(port.bits.as_slice())?;
        }
    }
    Ok(())
}

// The bits of the input ports `agm_r` but the clock's.
fn random_wires(alloc: Global, ports: &[Port], clock: Option<usize>) -> Result<List<usize>, Memory>
    requires { (c : ℕ) → clock ≡ Some c → c < length ports.now }
    ensures { IfOk result (λ wires. wires ≡ flat_map (λ p. p.bits) (filter spec.is_random_port (ports_but clock ports.now))) }
{
    let mut wires = List::new(alloc);
    match clock {
        None => add_random(&mut wires, ports)?,
        Some(number) => {
            add_random(&mut wires, &ports[..number])?;
            add_random(&mut wires, &ports[number + 1..])?;
        }
    }
    Ok(wires)
}

/// The pairs of a network's random bits.
pub(crate) fn pairs_of(
    alloc: Global,
    net: &Net,
    labels: &[Label],
    order: u32,
) -> Result<List<Pair>, Memory>
    requires network { Hpc2 (plain_of net.now) order }
    requires as_many { length labels.now ≡ length net.now.wires }
    requires labels { AreLabels (plain_of net.now) order (label_at labels.now) }
    ensures { IfOk result (λ ps. ps ≡ map (λ w. spec.pair_for net.now.wires (label_at labels.now w)) (random_bits_of (plain_of net.now))) }
{
    let names = names_of(alloc, net.wires.as_slice())?;
    let bits = random_wires(alloc, net.ports.as_slice(), net.clock)?;
    pairs_among(alloc, &names, labels, bits.as_slice())
}
