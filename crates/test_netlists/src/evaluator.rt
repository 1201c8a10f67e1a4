//! Nets evaluated plainly, for tests: no graph is drawn and no order worked out, but the list of equations is passed over until every
//! wire has its value.

use agm_net::{Expr, Net, Way};
use std::alloc::{AllocError, Global};

/// A net that is run cycle by cycle, without a loop of equations.
#[derive(Drop)]
pub struct Evaluator {
    // The wires of the input bits, and what the registers hold in the next cycle.
    inputs: Vec<usize>,
    held: Vec<bool>,
    row: Vec<bool>,
}

// The bit of a wire; false past the end of the row.
fn bit(row: &[bool], wire: usize) -> bool {
    match row.get(wire) {
        Some(bit) => *bit,
        None => false,
    }
}

fn set(row: &mut [bool], wire: usize, value: bool) {
    if wire < row.len() {
        row[wire] = value;
    }
}

/// The value of an expression in a row of the bits of wires; a wire past its end is 0.
pub fn value(expr: &Expr, row: &[bool]) -> bool {
    match expr {
        Expr::Zero => false,
        Expr::One => true,
        Expr::Wire(wire) => bit(row, *wire),
        Expr::Not(x) => !value(x, row),
        Expr::And(x, y) => value(x, row) && value(y, row),
        Expr::Or(x, y) => value(x, row) || value(y, row),
        Expr::Xor(x, y) => value(x, row) != value(y, row),
        Expr::Mux { select, low, high } => {
            if value(select, row) {
                value(high, row)
            } else {
                value(low, row)
            }
        }
    }
}

// Gives each wire that has an equation its value once, and tells whether one of them changed.
fn pass(net: &Net, row: &mut [bool]) -> bool {
    let mut is_changed = false;
    for equation in net.equations.as_slice() {
        let now = value(&equation.expr, row);
        if now != bit(row, equation.wire) {
            is_changed = true;
        }
        set(row, equation.wire, now);
    }
    is_changed
}

// Passes until nothing changes. Where there is no loop each pass but the last settles one equation more at least.
fn settle(net: &Net, row: &mut [bool]) {
    for _ in net.equations.as_slice() {
        if !pass(net, row) {
            return;
        }
    }
}

// What the registers take over from a row.
fn hold(net: &Net, row: &[bool], held: &mut [bool]) {
    for (k, register) in net.registers.as_slice().iter().enumerate() {
        set(held, k, value(&register.next, row));
    }
}

// Gives the outputs of registers what they hold.
fn show(net: &Net, held: &[bool], row: &mut [bool]) {
    for (register, bit) in net.registers.as_slice().iter().zip(held) {
        set(row, register.q, *bit);
    }
}

// The wires of input bits: those of input ports in port order, each from the most significant, without the clock's.
fn input_wires(alloc: Global, net: &Net) -> Result<Vec<usize>, AllocError> {
    let mut wires = Vec::new(alloc);
    for (number, port) in net.ports.as_slice().iter().enumerate() {
        if port.way == Way::Input && net.clock != Some(number) {
            for bit in port.bits.as_slice() {
                wires.push(*bit)?;
            }
        }
    }
    Ok(wires)
}

impl Evaluator {
    /// An evaluator of a net before its first cycle, whose registers hold `power_up`.
    ///
    /// # Errors
    ///
    /// `AllocError` where memory runs out.
    pub fn new(alloc: Global, net: &Net, power_up: &[bool]) -> Result<Evaluator, AllocError> {
        let mut held = vec![in alloc; false; net.registers.len()]?;
        for (k, bit) in power_up.iter().enumerate() {
            set(held.as_mut_slice(), k, *bit);
        }
        Ok(Evaluator {
            inputs: input_wires(alloc, net)?,
            held,
            row: vec![in alloc; false; net.wires.len()]?,
        })
    }

    /// The number of input bits: those of input ports in port order, each from the most significant, without the clock's.
    pub fn inputs(&self) -> usize {
        self.inputs.len()
    }

    /// Runs the next cycle of the net with these input bits. Takes time quadratic in the number of equations at worst.
    pub fn step(&mut self, net: &Net, inputs: &[bool]) {
        let row = self.row.as_mut_slice();
        for (wire, input) in self.inputs.iter().zip(inputs) {
            set(row, *wire, *input);
        }
        show(net, self.held.as_slice(), row);
        settle(net, row);
        hold(net, row, self.held.as_mut_slice());
    }

    /// The bit of a wire in the last cycle run; false before the first cycle, and where there is no such wire.
    pub fn bit(&self, wire: usize) -> bool {
        bit(self.row.as_slice(), wire)
    }
}

/// Bits that look random, by a linear congruential generator, to run nets with.
#[derive(Drop)]
pub struct Shuffled {
    state: u32,
}

impl Shuffled {
    /// The bits of a seed.
    pub fn new(seed: u32) -> Shuffled {
        Shuffled { state: seed }
    }

    /// The next bit.
    pub fn next_bit(&mut self) -> bool {
        self.state = self
            .state
            .wrapping_mul(1_664_525)
            .wrapping_add(1_013_904_223);
        self.state >= 1 << 31
    }

    /// The next so many bits.
    ///
    /// # Errors
    ///
    /// `AllocError` where memory runs out.
    pub fn bits(&mut self, alloc: Global, count: usize) -> Result<Vec<bool>, AllocError> {
        let mut bits = Vec::new(alloc);
        for _ in 0..count {
            bits.push(self.next_bit())?;
        }
        Ok(bits)
    }
}
