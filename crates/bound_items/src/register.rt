ghost use Rattle.std.specs.Prelude.{◌≡◌, ◌++◌, ◌∷◌, [], position, map, IfOk, Some};
ghost use Rattle.cell_library.specs.Spelled.{cell_of, pin_of};
ghost use Rattle.agm_net.specs.Formula.{formula_of};
ghost use Rattle.bound_items.specs.Items as spec;
ghost use Rattle.bound_items.specs.State.{state_of, after, Gives};

use crate::add::{add_flop, add_wire, dotted};
use crate::over::{bit_at, over};
use crate::site::Site;
use crate::{BindFault, Netlist};
use agm_bits::{Memory, Name};
use agm_net::Way;
use cell_library::{Cell, Pin, State};
use form_bits::Bit;

// Whether a pin is an output without a function, where a register known without a library has its state.
fn is_state_pin(pin: &Pin) -> bool
    ensures { result ≡ spec.is_state_pin (pin_of pin.now) }
{
    match pin.way {
        Way::Input => false,
        Way::Output => match &pin.function {
            Some(_) => false,
            None => true,
        },
    }
}

// The place of the first such pin.
fn first_state_pin(pins: &[Pin]) -> Option<usize>
    ensures { result ≡ position (λ p. spec.is_state_pin (pin_of p)) pins.now }
{
    pins.iter().position(|pin| is_state_pin(pin))
}

// The place of the pin at which a cell has its state, where there is one.
fn state_place(cell: &Cell) -> Option<usize>
    ensures { result ≡ spec.state_place (cell_of cell.now) }
{
    first_state_pin(cell.pins.as_slice())
}

/// The bit of a cell's state, where n wires stand before it.
pub(crate) fn state_bit(cell: &Cell, bits: &[Option<Bit>], n: usize) -> Option<Bit>
    ensures { result ≡ spec.state_bit (cell_of cell.now) bits.now n (cell_of cell.now).state }
{
    match &cell.state {
        Some(_) => match state_place(cell) {
            Some(place) => bit_at(bits, place),
            None => Some(Bit::Wire(n)),
        },
        None => None,
    }
}

// Adds a wire inside an instance.
fn add_inner(netlist: Netlist, instance: &Name, name: &Name) -> Result<Netlist, BindFault>
    ensures { Gives (state_of netlist) (spec.place_wires (spec.dotted instance.now name.now) None) result }
{
    let name = dotted(netlist.alloc, instance, name)?;
    add_wire(netlist, name)
}

/// Adds the wire of a state that is at no pin.
pub(crate) fn add_state_wire(
    netlist: Netlist,
    instance: &Name,
    cell: &Cell,
) -> Result<Netlist, BindFault>
    ensures { Gives (state_of netlist) (spec.state_wires instance.now (cell_of cell.now) (cell_of cell.now).state) result }
{
    match &cell.state {
        Some(state) => match state_place(cell) {
            Some(_) => Ok(netlist),
            None => add_inner(netlist, instance, &state.name),
        },
        None => Ok(netlist),
    }
}

// A bit, or 0.
fn bit_or_zero(bit: Option<Bit>) -> Bit
    ensures { result ≡ spec.bit_or_zero bit }
{
    match bit {
        Some(bit) => bit,
        None => Bit::Constant(false),
    }
}

// Adds a register for a state with a bit.
fn add_held(
    netlist: Netlist,
    bits: &[Option<Bit>],
    operands: &[Option<Bit>],
    state: &State,
    q: Bit,
) -> Result<Netlist, Memory>
    requires { operands.now ≡ bits.now ++ Some q ∷ [] }
    ensures { IfOk result (λ n. state_of n ≡ after (state_of netlist) (spec.state_flops bits.now (Some (record { name = state.now.name; clock = state.now.clock; next = formula_of state.now.next })) (Some q))) }
{
    let next = over(netlist.alloc, operands, &state.next)?;
    let clock = bit_or_zero(bit_at(bits, state.clock));
    add_flop(netlist, q, next, clock)
}

/// Adds the register of a cell with a state, where the state has a bit. The operands are the bits, and then the state's.
pub(crate) fn add_register(
    netlist: Netlist,
    site: Site<'_>,
    operands: &[Option<Bit>],
) -> Result<Netlist, Memory>
    requires { operands.now ≡ site.bits.now ++ site.state ∷ [] }
    ensures { IfOk result (λ n. state_of n ≡ after (state_of netlist) (spec.state_flops site.entry.bits.now (cell_of site.entry.cell.now).state site.entry.state)) }
{
    match &site.cell.state {
        Some(state) => match site.state {
            Some(q) => add_held(netlist, site.bits, operands, state, q),
            None => Ok(netlist),
        },
        None => Ok(netlist),
    }
}
