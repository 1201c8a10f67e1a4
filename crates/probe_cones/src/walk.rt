//! A walk along reads, from a wire to all wires that lists of reads lead to.

ghost use Rattle.std.specs.Prelude.{◌≡◌, ◌<◌, ◌≤◌, ℕ, [], OnOk, IsTrue, length, slice_index_or};
ghost use Rattle.agm_net.specs.Formula.{formula_of, reads_below};
ghost use Rattle.agm_net.specs.View.{plain_of};
ghost use Rattle.probe_cones.specs.Origins.{AreOrigins};
ghost use Rattle.probe_cones.specs.Walk as spec;

use crate::origins::Origin;
use agm_bits::Memory;
use agm_net::{Expr, Net};

// The wires that a walk has found, each once. They have the walk's stamp, and no other wire has it, so a next walk with a higher
// stamp need not clean up.
#[derive(Drop)]
pub(crate) struct Walk {
    pub(crate) stamps: Vec<usize>,
    pub(crate) stamp: usize,
    pub(crate) found: Vec<usize>,
}

impl Walk {
    // Finds a wire, where it is not found yet.
    fn note(&mut self, wire: usize) -> Result<(), Memory>
        requires { wire < length self.old.stamps.items }
        ensures noted { OnOk result (spec.state self.new ≡ spec.noted (spec.state self.old) wire) }
        ensures as_many { length self.new.stamps.items ≡ length self.old.stamps.items }
    {
        if self.stamps[wire] != self.stamp {
            self.found.push(wire)?;
            self.stamps[wire] = self.stamp;
        }
        Ok(())
    }

    // Finds the wires that stand in an expression.
    fn note_reads(&mut self, expr: &Expr) -> Result<(), Memory>
        requires { IsTrue (reads_below (length self.old.stamps.items) (formula_of expr.now)) }
        ensures noted { OnOk result (spec.state self.new ≡ spec.reads_noted (formula_of expr.now) (spec.state self.old)) }
        ensures as_many { length self.new.stamps.items ≡ length self.old.stamps.items }
    {
        match expr {
            Expr::Zero | Expr::One => Ok(()),
            Expr::Wire(wire) => self.note(*wire),
            Expr::Not(x) => self.note_reads(x),
            Expr::And(x, y) | Expr::Or(x, y) | Expr::Xor(x, y) => {
                self.note_reads(x)?;
                self.note_reads(y)
            }
            Expr::Mux { select, low, high } => {
                self.note_reads(select)?;
                self.note_reads(low)?;
                self.note_reads(high)
            }
        }
    }

    // Finds what a wire reads.
    fn turn(&mut self, net: &Net, origins: &[Origin], wire: usize) -> Result<(), Memory>
        requires as_many { length self.old.stamps.items ≡ length net.now.wires }
        requires origins { AreOrigins (plain_of net.now) origins.now }
        requires in_range { wire < length net.now.wires }
        ensures { OnOk result (spec.HasTurned (plain_of net.now) wire (spec.state self.old) (spec.state self.new)) }
    {
        match origins[wire] {
            Origin::Equation(k) => self.note_reads(&net.equations.as_slice()[k].expr),
            Origin::Source | Origin::Clock => Ok(()),
        }
    }

    // Begins a walk at a wire, with a stamp that no wire has.
    fn begin(&mut self, net: &Net, wire: usize, stamp: usize) -> Result<(), Memory>
        requires in_range { wire < length self.old.stamps.items }
        requires positive { 0 < stamp }
        requires fresh { (v : ℕ) → slice_index_or self.old.stamps.items v 0 < stamp }
        ensures { OnOk result (spec.HasBegun (plain_of net.now) wire stamp (spec.state self.old) (spec.state self.new)) }
    {
        self.stamp = stamp;
        self.found.clear();
        self.note(wire)
    }

    /// Walks from a wire, with a stamp that no wire has.
    pub(crate) fn run(
        &mut self,
        net: &Net,
        origins: &[Origin],
        wire: usize,
        stamp: usize,
    ) -> Result<(), Memory>
        requires as_many { length self.old.stamps.items ≡ length net.now.wires }
        requires origins { AreOrigins (plain_of net.now) origins.now }
        requires in_range { wire < length net.now.wires }
        requires positive { 0 < stamp }
        requires fresh { (v : ℕ) → slice_index_or self.old.stamps.items v 0 < stamp }
        ensures { OnOk result (spec.HasWalked (plain_of net.now) wire stamp (spec.state self.new)) }
    {
        self.begin(net, wire, stamp)?;
        let mut next = 0;
        while next < self.found.len() {
            let found = self.found[next];
            self.turn(net, origins, found)?;
            next += 1;
        }
        Ok(())
    }
}
