ghost use Rattle.std.specs.Prelude.{◌≡◌, ◌++◌, ◌∷◌, [], map, Some, None, IfOk, OnOk};
ghost use Rattle.agm_net.specs.Formula.{formula_of, f_wire, f_not, f_and, f_or, f_xor, f_mux};
ghost use Rattle.cell_library.specs.Spelled.{cell_of, pin_of, function_in};
ghost use Rattle.cell_faces.specs.Cells as spec;

use agm_bits::{List, Memory, Name};
use agm_net::{Expr, Way, not_of, xor_of};
use cell_library::{Cell, Pin, State};
use std::alloc::Global;

fn and_of(alloc: Global, x: usize, y: usize) -> Result<Expr, Memory>
    ensures { IfOk result (λ e. formula_of e ≡ f_and (f_wire x) (f_wire y)) }
{
    let x = Box::new(alloc, Expr::Wire(x))?;
    let y = Box::new(alloc, Expr::Wire(y))?;
    Ok(Expr::And(x, y))
}

fn or_of(alloc: Global, x: usize, y: usize) -> Result<Expr, Memory>
    ensures { IfOk result (λ e. formula_of e ≡ f_or (f_wire x) (f_wire y)) }
{
    let x = Box::new(alloc, Expr::Wire(x))?;
    let y = Box::new(alloc, Expr::Wire(y))?;
    Ok(Expr::Or(x, y))
}

fn mux_of(alloc: Global, s: usize, x: usize, y: usize) -> Result<Expr, Memory>
    ensures { IfOk result (λ e. formula_of e ≡ f_mux (f_wire s) (f_wire x) (f_wire y)) }
{
    let select = Box::new(alloc, Expr::Wire(s))?;
    let low = Box::new(alloc, Expr::Wire(x))?;
    let high = Box::new(alloc, Expr::Wire(y))?;
    Ok(Expr::Mux { select, low, high })
}

// Adds an input pin.
fn push_input(alloc: Global, pins: &mut List<Pin>, name: &[u8]) -> Result<(), Memory>
    ensures { OnOk result (map pin_of pins.new ≡ map pin_of pins.old ++ spec.in_pin name.now ∷ []) }
{
    let name = Name::from_slice(alloc, name)?;
    pins.push(Pin {
        name,
        way: Way::Input,
        function: None,
    })?;
    Ok(())
}

// Input pins of these names, each of one byte.
fn inputs(alloc: Global, names: &[u8]) -> Result<List<Pin>, Memory>
    ensures { IfOk result (λ pins. map pin_of pins ≡ map (λ b. spec.in_pin (b ∷ [])) names.now) }
{
    let mut pins = List::new(alloc);
    for name in names {
        push_input(alloc, &mut pins, &[*name])?;
    }
    Ok(pins)
}

// A cell with these inputs and an output Y of this function.
fn gate(alloc: Global, name: &[u8], inputs_of: &[u8], function: Expr) -> Result<Cell, Memory>
    ensures { IfOk result (λ c. cell_of c ≡ spec.gate name.now (map (λ b. spec.in_pin (b ∷ [])) inputs_of.now ++ spec.out_pin (89 ∷ []) (formula_of function) ∷ [])) }
{
    let mut pins = inputs(alloc, inputs_of)?;
    let output = Name::from_slice(alloc, b"Y")?;
    pins.push(Pin {
        name: output,
        way: Way::Output,
        function: Some(function),
    })?;
    let name = Name::from_slice(alloc, name)?;
    Ok(Cell {
        name,
        pins,
        state: None,
        barred: None,
    })
}

// A register with these inputs, the first its clock, and its state at its last pin Q.
fn flip_flop(alloc: Global, name: &[u8], inputs_of: &[u8], next: Expr) -> Result<Cell, Memory>
    ensures { IfOk result (λ c. cell_of c ≡ spec.flip_flop name.now (map (λ b. spec.in_pin (b ∷ [])) inputs_of.now ++ spec.state_pin (81 ∷ []) ∷ []) (formula_of next)) }
{
    let mut pins = inputs(alloc, inputs_of)?;
    let output = Name::from_slice(alloc, b"Q")?;
    pins.push(Pin {
        name: output,
        way: Way::Output,
        function: None,
    })?;
    let name = Name::from_slice(alloc, name)?;
    Ok(Cell {
        name,
        pins,
        state: Some(State {
            name: List::new(alloc),
            clock: 0,
            next,
        }),
        barred: None,
    })
}

// The cells without a state.
fn gates(alloc: Global) -> Result<List<Cell>, Memory>
    ensures { IfOk result (λ cells. map cell_of cells ≡ spec.known_gates) }
{
    let mut cells = List::new(alloc);
    let function = not_of(alloc, 0)?;
    cells.push(gate(alloc, b"AGM_NOT", b"A", function)?)?;
    let function = and_of(alloc, 0, 1)?;
    cells.push(gate(alloc, b"AGM_AND2", b"AB", function)?)?;
    let function = xor_of(alloc, 0, 1)?;
    cells.push(gate(alloc, b"AGM_XOR2", b"AB", function)?)?;
    let function = or_of(alloc, 0, 1)?;
    cells.push(gate(alloc, b"AGM_OR2", b"AB", function)?)?;
    let function = mux_of(alloc, 2, 0, 1)?;
    cells.push(gate(alloc, b"AGM_MUX2", b"ABS", function)?)?;
    Ok(cells)
}

/// The cells that are known without a library.
///
/// # Errors
///
/// `Memory` where memory runs out.
pub fn known_cells(alloc: Global) -> Result<List<Cell>, Memory>
    ensures { IfOk result (λ cells. map cell_of cells ≡ spec.known_cells) }
{
    let mut cells = gates(alloc)?;
    cells.push(flip_flop(alloc, b"AGM_DFF", b"CD", Expr::Wire(1))?)?;
    let next = mux_of(alloc, 2, 4, 1)?;
    cells.push(flip_flop(alloc, b"AGM_DFFE", b"CDE", next)?)?;
    Ok(cells)
}
