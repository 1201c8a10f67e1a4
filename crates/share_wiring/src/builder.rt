//! A net that is built call by call.

ghost use Rattle.std.specs.Prelude.{◌≡◌, ◌≢◌, [], ◌∷◌, ◌++◌, ◌<◌, ◌≤◌, ◌+◌, ◌^◌, ℕ, List, false, length, slice_index_or, IfOk, OnOk, OnErr, Some, None, replicate, codes, map, IsTrue};
ghost use Rattle.std.specs.List.{AllByRecursion, range_with_len, insert};
ghost use Rattle.std.specs.Str.{bytes_eq};
ghost use Rattle.agm_net.specs.Formula.{formula_of, value, reads_below};
ghost use Rattle.agm_net.specs.Plain.{bit_names};
ghost use Rattle.agm_net.specs.View.{plain_of};
ghost use Rattle.agm_net.specs.PlainForm.{IsPlain};
ghost use Rattle.agm_net.specs.Small.{IsCell, IsSmallNet};
ghost use Rattle.agm_net.specs.Loop.{HasNoLoop};
ghost use Rattle.agm_net.specs.Trace.{Row, IsTrace, bit_at};
ghost use Rattle.agm_net.specs.Label.{gadget_name};
ghost use Rattle.agm_net.specs.Network.{Hpc2, HasGadgets};
ghost use Rattle.share_wiring.specs.Gates.{IsGate, gate_of, gate_formula};
ghost use Rattle.share_wiring.specs.Wiring.{Wiring, IsSharing, IsPublicWire, IsRun, Keeps, names as names_of, share, net_of};
ghost use Rattle.share_wiring.specs.Own.{source_of, step_registers, input_wires, copy_wires, closed_wires};
ghost use Rattle.share_wiring.specs.Adds.{Extends, Stays, AddsStep, AreHeld, IsAlways, AddsRegisters, AddsFact, Xors, Inverts, Masks, Holds, Copies, Delays, random_bits, given_bits};
ghost use Rattle.share_wiring.specs.Cells.{IsCellSource, AreCells, AddsCells};
ghost use Rattle.share_wiring.specs.Networks.{IsNetwork, KeepsNetwork, FitsOrder, IsServed, IsRandomWire, AreNamed};
ghost use Rattle.share_wiring.specs.Built.{IsBuilt, ReadsPublic, ReadsShares, IsNewPart, IsNewPort, MayBeGiven, IsNew, clock_port, source_fits, input_uses, is_stored};

use crate::bits::{push_input_port, push_output_port};
use crate::finish::{equations, names, registers};
use crate::gate::{Gate, Source, Step, Wire};
use crate::sharing::{Sharing, ascending, close_wires, push_step};
use agm_bits::{List, Memory, Name};
use agm_net::{Expr, Net, Port, Range, Way};
use std::alloc::Global;
use std::marker::Model;

/// A net that is built call by call: named wires, each an input port's bit, an equation or a register, that read earlier ones.
///
/// Wires go by their numbers. Bits are computed on as sharings, whose wires are public or of the share of their index.
/// What a call says of its wires holds in every trace of the net from then on. After `Memory` the net is as it was.
#[derive(Drop)]
pub struct Builder {
    alloc: Global,
    ports: Vec<Port>,
    wires: Vec<Wire>,
    gadgets: usize,
    // The bits of `agm_r`.
    random: List<usize>,
    given: usize,
}

impl Model for Builder {
    ghost use Rattle.std.specs.Prelude.{◌≡◌};
    ghost use Rattle.share_wiring.specs.Wiring.{Wiring};
    ghost use Rattle.share_wiring.specs.Adds.{random_bits};
    ghost use Rattle.share_wiring.specs.Built.{IsBuilt};

    ghost Value = { Wiring };

    ghost view = { λ b. record { ports = b.ports.items; wires = b.wires.items; gadgets = b.gadgets; given = b.given } };

    ghost invariant = { λ b. IsBuilt (record { ports = b.ports.items; wires = b.wires.items; gadgets = b.gadgets; given = b.given }) × (b.random ≡ random_bits b.ports.items) };
}

impl Builder {
    /// A net whose one port is its clock `agm_clk`.
    pub fn new(alloc: Global) -> Result<Builder, Memory>
        ensures { IfOk result (λ b. b ≡ record { ports = clock_port ∷ []; wires = record { name = codes "agm_clk"; source = Source.Input } ∷ []; gadgets = 0; given = 0 }) }
    {
        let mut ports = Vec::new(alloc);
        ports.push(Port {
            name: Name::from_slice(alloc, b"agm_clk")?,
            way: Way::Input,
            range: None,
            bits: List::from_slice(alloc, &[0usize])?,
        })?;
        let mut wires = Vec::new(alloc);
        wires.push(Wire {
            name: Name::from_slice(alloc, b"agm_clk")?,
            source: Source::Input,
        })?;
        Ok(Builder {
            alloc,
            ports,
            wires,
            gadgets: 0,
            random: List::new(alloc),
            given: 0,
        })
    }

    /// The allocator that it was made with.
    pub fn alloc(&self) -> Global {
        self.alloc
    }

    /// The wire of the clock.
    pub fn clock(&self) -> usize
        ensures zero { result ≡ 0 }
        ensures within { 0 < length self.now.wires }
        ensures built { IsBuilt self.now }
    {
        let _wires = self.wires.len();
        0
    }

    // Adds the wires that a step makes.
    fn add_step<const S: usize>(
        &mut self,
        step: Step,
        x: &Sharing<S>,
        y: &Sharing<S>,
    ) -> Result<Sharing<S>, Memory>
        requires left { ReadsShares step S self.old.wires x.now.shares }
        requires right { ReadsShares step S self.old.wires y.now.shares }
        requires public { ReadsPublic self.old.wires step }
        requires size { (0 < S) × (S ≤ 16) }
        ensures extends { Extends self.old self.new }
        ensures stays { Stays self.old self.new }
        ensures made { IfOk result (λ z. AddsStep step S self.old self.new x.now.shares y.now.shares z.shares) }
        ensures shares { IfOk result (λ z. IsSharing self.new.wires S z.shares) }
        ensures named { IfOk result (λ z. AreNamed S self.new.wires z.shares) }
        ensures adds { IfOk result (λ z. AddsFact self.old self.new (λ cycles bits. (i : ℕ) → i < S → Keeps cycles bits (share z.shares i) (source_of step i (share x.now.shares i) (share y.now.shares i)))) }
        ensures cells { OnOk result (AddsCells self.old self.new) }
        ensures registers { OnOk result (AddsRegisters (step_registers step S) self.old self.new) }
        ensures network { OnOk result ((d : ℕ) → S ≤ d + 1 → KeepsNetwork d self.old self.new) }
        ensures err { OnErr result (self.new ≡ self.old) }
    {
        let first = self.wires.len();
        match push_step(self.alloc, step, x, y, &mut self.wires) {
            Ok(()) => {
                let _count = self.wires.len();
                Ok(ascending::<S>(first))
            }
            Err(Memory) => {
                self.wires.truncate(first);
                Err(Memory)
            }
        }
    }

    /// Makes an input port, which stands last. Its bits are new wires, from the most significant bit to the least.
    pub fn port_in(&mut self, name: &[u8], range: Option<Range>) -> Result<List<usize>, Memory>
        requires { IsNewPort self.old name.now range }
        ensures bits { IfOk result (λ bits. bits ≡ range_with_len (length self.old.wires) (length (bit_names name.now range))) }
        ensures made { IfOk result (λ bits. self.new ≡ record self.old { ports = self.old.ports ++ (record { name = name.now; way = Way.Input; range = range; bits = bits }) ∷ []; wires = self.old.wires ++ input_wires (bit_names name.now range) }) }
        ensures extends { Extends self.old self.new }
        ensures adds { OnOk result (AddsFact self.old self.new (λ cycles bits. Unit {0})) }
        ensures cells { OnOk result (AddsCells self.old self.new) }
        ensures registers { OnOk result (AddsRegisters 0 self.old self.new) }
        ensures network { OnOk result ((d : ℕ) → FitsOrder d name.now → KeepsNetwork d self.old self.new) }
        ensures err { OnErr result (self.new ≡ self.old) }
    {
        let wires = self.wires.len();
        let ports = self.ports.len();
        match push_input_port(
            self.alloc,
            name,
            range,
            &mut self.wires,
            &mut self.ports,
            &mut self.random,
        ) {
            Ok(bits) => Ok(bits),
            Err(Memory) => {
                self.wires.truncate(wires);
                self.ports.truncate(ports);
                Err(Memory)
            }
        }
    }

    /// Makes an output port at a place; the ports that stood there and later move up by one. Its bits are new wires, which have the
    /// bits of the given wires, from the most significant bit to the least.
    pub fn port_out(
        &mut self,
        place: usize,
        name: &[u8],
        range: Option<Range>,
        bits: &[usize],
    ) -> Result<(), Memory>
        requires port { IsNewPort self.old name.now range }
        requires other { bytes_eq name.now (codes "agm_r") ≡ false }
        requires place { (1 ≤ place) × (place ≤ length self.old.ports) }
        requires bits { length bits.now ≡ length (bit_names name.now range) }
        requires given { AllByRecursion (MayBeGiven self.old.wires name.now) bits.now }
        ensures made { OnOk result (self.new ≡ record self.old { ports = insert self.old.ports place (record { name = name.now; way = Way.Output; range = range; bits = range_with_len (length self.old.wires) (length (bit_names name.now range)) }); wires = self.old.wires ++ copy_wires (bit_names name.now range) bits.now }) }
        ensures extends { Extends self.old self.new }
        ensures value { OnOk result (AddsFact self.old self.new (λ cycles bit. (t : ℕ) → t < cycles → (i : ℕ) → i < length bits.now → bit t (length self.old.wires + i) ≡ bit t (slice_index_or bits.now i 0))) }
        ensures cells { OnOk result (AddsCells self.old self.new) }
        ensures registers { OnOk result (AddsRegisters 0 self.old self.new) }
        ensures network { OnOk result ((d : ℕ) → IsServed d self.old.wires name.now bits.now → KeepsNetwork d self.old self.new) }
        ensures err { OnErr result (self.new ≡ self.old) }
    {
        let wires = self.wires.len();
        match push_output_port(
            self.alloc,
            place,
            name,
            range,
            bits,
            &mut self.wires,
            &mut self.ports,
        ) {
            Ok(()) => Ok(()),
            Err(Memory) => {
                self.wires.truncate(wires);
                Err(Memory)
            }
        }
    }

    /// A sharing of a public wire's bit: share 0 has the bit, and the others are 0.
    pub fn public<const S: usize>(&mut self, wire: usize) -> Result<Sharing<S>, Memory>
        requires public { IsPublicWire self.old.wires wire }
        requires size { (0 < S) × (S ≤ 16) }
        ensures extends { Extends self.old self.new }
        ensures stays { Stays self.old self.new }
        ensures made { IfOk result (λ z. AddsStep Step.First S self.old self.new (replicate S wire) (replicate S wire) z.shares) }
        ensures shares { IfOk result (λ z. IsSharing self.new.wires S z.shares) }
        ensures value { IfOk result (λ z. AddsFact self.old self.new (λ cycles bits. Holds S cycles bits wire z.shares)) }
        ensures cells { OnOk result (AddsCells self.old self.new) }
        ensures registers { OnOk result (AddsRegisters 0 self.old self.new) }
        ensures network { OnOk result ((d : ℕ) → S ≤ d + 1 → KeepsNetwork d self.old self.new) }
        ensures err { OnErr result (self.new ≡ self.old) }
    {
        let all = Sharing { shares: [wire; S] };
        let sharing = self.add_step(Step::First, &all, &all)?;
        Ok(sharing)
    }

    /// The inverse of a sharing: share 0 alone is inverted.
    pub fn not<const S: usize>(&mut self, x: &Sharing<S>) -> Result<Sharing<S>, Memory>
        requires inside { IsSharing self.old.wires S x.now.shares }
        requires size { (0 < S) × (S ≤ 16) }
        ensures extends { Extends self.old self.new }
        ensures stays { Stays self.old self.new }
        ensures made { IfOk result (λ z. AddsStep Step.Not S self.old self.new x.now.shares x.now.shares z.shares) }
        ensures shares { IfOk result (λ z. IsSharing self.new.wires S z.shares) }
        ensures value { IfOk result (λ z. AddsFact self.old self.new (λ cycles bits. Inverts S cycles bits x.now.shares z.shares)) }
        ensures cells { OnOk result (AddsCells self.old self.new) }
        ensures registers { OnOk result (AddsRegisters 0 self.old self.new) }
        ensures network { OnOk result ((d : ℕ) → S ≤ d + 1 → KeepsNetwork d self.old self.new) }
        ensures err { OnErr result (self.new ≡ self.old) }
    {
        let inverse = self.add_step(Step::Not, x, x)?;
        Ok(inverse)
    }

    /// The exclusive or of two sharings, share by share.
    pub fn xor<const S: usize>(
        &mut self,
        x: &Sharing<S>,
        y: &Sharing<S>,
    ) -> Result<Sharing<S>, Memory>
        requires left { IsSharing self.old.wires S x.now.shares }
        requires right { IsSharing self.old.wires S y.now.shares }
        requires size { (0 < S) × (S ≤ 16) }
        ensures extends { Extends self.old self.new }
        ensures stays { Stays self.old self.new }
        ensures made { IfOk result (λ z. AddsStep Step.Xor S self.old self.new x.now.shares y.now.shares z.shares) }
        ensures shares { IfOk result (λ z. IsSharing self.new.wires S z.shares) }
        ensures value { IfOk result (λ z. AddsFact self.old self.new (λ cycles bits. Xors S cycles bits x.now.shares y.now.shares z.shares)) }
        ensures cells { OnOk result (AddsCells self.old self.new) }
        ensures registers { OnOk result (AddsRegisters 0 self.old self.new) }
        ensures network { OnOk result ((d : ℕ) → S ≤ d + 1 → KeepsNetwork d self.old self.new) }
        ensures err { OnErr result (self.new ≡ self.old) }
    {
        let sum = self.add_step(Step::Xor, x, y)?;
        Ok(sum)
    }

    /// The product of a public wire and a sharing.
    pub fn and_public<const S: usize>(
        &mut self,
        wire: usize,
        x: &Sharing<S>,
    ) -> Result<Sharing<S>, Memory>
        requires public { IsPublicWire self.old.wires wire }
        requires inside { IsSharing self.old.wires S x.now.shares }
        requires size { (0 < S) × (S ≤ 16) }
        ensures extends { Extends self.old self.new }
        ensures stays { Stays self.old self.new }
        ensures made { IfOk result (λ z. AddsStep (Step.And wire) S self.old self.new x.now.shares x.now.shares z.shares) }
        ensures shares { IfOk result (λ z. IsSharing self.new.wires S z.shares) }
        ensures value { IfOk result (λ z. AddsFact self.old self.new (λ cycles bits. Masks S cycles bits wire x.now.shares z.shares)) }
        ensures cells { OnOk result (AddsCells self.old self.new) }
        ensures registers { OnOk result (AddsRegisters 0 self.old self.new) }
        ensures network { OnOk result ((d : ℕ) → S ≤ d + 1 → KeepsNetwork d self.old self.new) }
        ensures err { OnErr result (self.new ≡ self.old) }
    {
        let product = self.add_step(Step::And(wire), x, x)?;
        Ok(product)
    }

    /// A sharing with the shares that another had in the cycle before, in S registers.
    pub fn delay<const S: usize>(&mut self, x: &Sharing<S>) -> Result<Sharing<S>, Memory>
        requires inside { IsSharing self.old.wires S x.now.shares }
        requires size { (0 < S) × (S ≤ 16) }
        ensures extends { Extends self.old self.new }
        ensures stays { Stays self.old self.new }
        ensures made { IfOk result (λ z. AddsStep Step.Delay S self.old self.new x.now.shares x.now.shares z.shares) }
        ensures shares { IfOk result (λ z. IsSharing self.new.wires S z.shares) }
        ensures value { IfOk result (λ z. AddsFact self.old self.new (λ cycles bits. Delays S cycles bits x.now.shares z.shares)) }
        ensures cells { OnOk result (AddsCells self.old self.new) }
        ensures registers { OnOk result (AddsRegisters S self.old self.new) }
        ensures network { OnOk result ((d : ℕ) → S ≤ d + 1 → KeepsNetwork d self.old self.new) }
        ensures err { OnErr result (self.new ≡ self.old) }
    {
        self.add_step(Step::Delay, x, x)
    }

    /// New wires with the bits of a sharing's.
    pub fn copy<const S: usize>(&mut self, x: &Sharing<S>) -> Result<Sharing<S>, Memory>
        requires inside { IsSharing self.old.wires S x.now.shares }
        requires size { (0 < S) × (S ≤ 16) }
        ensures extends { Extends self.old self.new }
        ensures stays { Stays self.old self.new }
        ensures made { IfOk result (λ z. AddsStep Step.Copy S self.old self.new x.now.shares x.now.shares z.shares) }
        ensures shares { IfOk result (λ z. IsSharing self.new.wires S z.shares) }
        ensures value { IfOk result (λ z. AddsFact self.old self.new (λ cycles bits. Copies S cycles bits x.now.shares z.shares)) }
        ensures cells { OnOk result (AddsCells self.old self.new) }
        ensures registers { OnOk result (AddsRegisters 0 self.old self.new) }
        ensures network { OnOk result ((d : ℕ) → S ≤ d + 1 → KeepsNetwork d self.old self.new) }
        ensures err { OnErr result (self.new ≡ self.old) }
    {
        self.add_step(Step::Copy, x, x)
    }

    /// A sharing of a constant: share 0 has it, and the others are 0.
    pub fn constant<const S: usize>(&mut self, bit: bool) -> Result<Sharing<S>, Memory>
        requires size { (0 < S) × (S ≤ 16) }
        ensures extends { Extends self.old self.new }
        ensures stays { Stays self.old self.new }
        ensures made { IfOk result (λ z. AddsStep (Step.Constant bit) S self.old self.new (replicate S 0) (replicate S 0) z.shares) }
        ensures shares { IfOk result (λ z. IsSharing self.new.wires S z.shares) }
        ensures value { IfOk result (λ z. AddsFact self.old self.new (λ cycles bits. IsAlways S cycles bits bit z.shares)) }
        ensures cells { OnOk result (AddsCells self.old self.new) }
        ensures registers { OnOk result (AddsRegisters 0 self.old self.new) }
        ensures network { OnOk result ((d : ℕ) → S ≤ d + 1 → KeepsNetwork d self.old self.new) }
        ensures err { OnErr result (self.new ≡ self.old) }
    {
        let none = Sharing { shares: [0; S] };
        let sharing = self.add_step(Step::Constant(bit), &none, &none)?;
        Ok(sharing)
    }

    /// S registers whose next values are yet to be given, by `close`.
    pub fn hold<const S: usize>(&mut self) -> Result<Sharing<S>, Memory>
        requires size { (0 < S) × (S ≤ 16) }
        ensures extends { Extends self.old self.new }
        ensures stays { Stays self.old self.new }
        ensures made { IfOk result (λ z. AddsStep Step.Hold S self.old self.new (replicate S 0) (replicate S 0) z.shares) }
        ensures shares { IfOk result (λ z. IsSharing self.new.wires S z.shares) }
        ensures held { IfOk result (λ z. AreHeld S self.new.wires z.shares) }
        ensures named { IfOk result (λ z. AreNamed S self.new.wires z.shares) }
        ensures value { OnOk result (AddsFact self.old self.new (λ cycles bits. Unit {0})) }
        ensures cells { OnOk result (AddsCells self.old self.new) }
        ensures registers { OnOk result (AddsRegisters S self.old self.new) }
        ensures network { OnOk result ((d : ℕ) → S ≤ d + 1 → KeepsNetwork d self.old self.new) }
        ensures err { OnErr result (self.new ≡ self.old) }
    {
        let none = Sharing { shares: [0; S] };
        let sharing = self.add_step(Step::Hold, &none, &none)?;
        Ok(sharing)
    }

    /// Gives registers that were held their next values: each has in each cycle the bit that its share of `next` had in the cycle
    /// before. What was said of the net's wires goes on holding.
    pub fn close<const S: usize>(&mut self, held: &Sharing<S>, next: &Sharing<S>)
        requires held { AreHeld S self.old.wires held.now.shares }
        requires next { IsSharing self.old.wires S next.now.shares }
        ensures made { self.new ≡ record self.old { wires = closed_wires S (share held.now.shares) (share next.now.shares) self.old.wires } }
        ensures value { AddsFact self.old self.new (λ cycles bits. Delays S cycles bits next.now.shares held.now.shares) }
        ensures network { (d : ℕ) → S ≤ d + 1 → S ≤ 16 → AreNamed S self.old.wires held.now.shares → KeepsNetwork d self.old self.new }
    {
        let _count = self.wires.len();
        close_wires(held, next, &mut self.wires);
    }

    /// How many gadgets were begun before. No wire has a name of the one that is begun.
    pub fn begin_gadget(&mut self) -> usize
        requires { self.old.gadgets < 2 ^ 32 }
        ensures number { result ≡ self.old.gadgets }
        ensures begun { self.new ≡ record self.old { gadgets = self.old.gadgets + 1 } }
        ensures unnamed { (text : List ℕ) → IsNew (names_of self.new.wires) (gadget_name result text) }
        ensures extends { Extends self.old self.new }
        ensures adds { AddsFact self.old self.new (λ cycles bits. Unit {0}) }
    {
        let number = self.gadgets;
        self.gadgets += 1;
        number
    }

    // Adds a part of a gadget.
    fn add_part(&mut self, name: &[u8], source: Source) -> Result<usize, Memory>
        requires part { IsNewPart self.old name.now }
        requires fits { IsTrue (source_fits source (length self.old.wires) (length self.old.wires)) }
        requires inner { input_uses source ≡ 0 }
        ensures extends { Extends self.old self.new }
        ensures wire { IfOk result (λ w. w ≡ length self.old.wires) }
        ensures made { OnOk result (self.new ≡ record self.old { wires = self.old.wires ++ (record { name = name.now; source = source }) ∷ [] }) }
        ensures adds { IfOk result (λ w. AddsFact self.old self.new (λ cycles bits. Keeps cycles bits w source)) }
        ensures cells { OnOk result (IsCellSource source → AddsCells self.old self.new) }
        ensures registers { OnOk result (AddsRegisters (is_stored source) self.old self.new) }
        ensures err { OnErr result (self.new ≡ self.old) }
    {
        let name = Name::from_slice(self.alloc, name)?;
        let wire = self.wires.len();
        self.wires.push(Wire { name, source })?;
        Ok(wire)
    }

    /// A part of a gadget: a wire of this name with the value of an expression, which is a constant, a wire or one operator
    /// over wires.
    pub fn equate(&mut self, name: &[u8], expr: Expr) -> Result<usize, Memory>
        requires part { IsNewPart self.old name.now }
        requires gate { IsGate (formula_of expr) }
        requires fits { IsTrue (reads_below (length self.old.wires) (formula_of expr)) }
        ensures extends { Extends self.old self.new }
        ensures stays { Stays self.old self.new }
        ensures wire { IfOk result (λ w. w ≡ length self.old.wires) }
        ensures made { OnOk result (self.new.wires ≡ self.old.wires ++ (record { name = name.now; source = Source.Equation (gate_of (formula_of expr)) }) ∷ []) }
        ensures value { IfOk result (λ w. AddsFact self.old self.new (λ cycles bits. (t : ℕ) → t < cycles → bits t w ≡ value (bits t) (formula_of expr))) }
        ensures cells { OnOk result (IsCell (formula_of expr) → AddsCells self.old self.new) }
        ensures registers { OnOk result (AddsRegisters 0 self.old self.new) }
        ensures err { OnErr result (self.new ≡ self.old) }
    {
        let gate = Gate::of(&expr);
        let wire = self.add_part(name, Source::Equation(gate))?;
        Ok(wire)
    }

    /// A part of a gadget: a register of this name with the value that a wire had in the cycle before.
    pub fn store(&mut self, name: &[u8], next: usize, clock: usize) -> Result<usize, Memory>
        requires part { IsNewPart self.old name.now }
        requires next { next < length self.old.wires }
        requires clock { clock < length self.old.wires }
        ensures extends { Extends self.old self.new }
        ensures stays { Stays self.old self.new }
        ensures wire { IfOk result (λ w. w ≡ length self.old.wires) }
        ensures made { OnOk result (self.new.wires ≡ self.old.wires ++ (record { name = name.now; source = Source.Register next clock }) ∷ []) }
        ensures value { IfOk result (λ w. AddsFact self.old self.new (λ cycles bits. (t : ℕ) → t + 1 < cycles → bits (t + 1) w ≡ bits t next)) }
        ensures cells { OnOk result (AddsCells self.old self.new) }
        ensures registers { OnOk result (AddsRegisters 1 self.old self.new) }
        ensures err { OnErr result (self.new ≡ self.old) }
    {
        let wire = self.add_part(name, Source::Register(next, clock))?;
        Ok(wire)
    }

    /// The net that was built. After `Memory` there is none.
    pub fn finish(self) -> Result<Net, Memory>
        ensures net { IfOk result (λ net. plain_of net ≡ net_of self) }
        ensures no_loop { IfOk result (λ net. HasNoLoop (plain_of net)) }
        ensures plain { IfOk result (λ net. IsPlain (plain_of net)) }
        ensures small { IfOk result (λ net. AreCells self.wires → IsSmallNet (plain_of net)) }
        ensures network { IfOk result (λ net. (d : ℕ) → IsNetwork d self → self.given ≡ length (random_bits self.ports) → Hpc2 (plain_of net) d) }
        ensures gadgets { IfOk result (λ net. (d : ℕ) → IsNetwork d self → self.given ≡ length (random_bits self.ports) → HasGadgets (plain_of net) d self.gadgets) }
        ensures runs { IfOk result (λ net. (power : Row) (tape table : List Row) → IsTrace (plain_of net) power tape table → IsRun self.wires (length table) (bit_at table)) }
    {
        let Builder {
            alloc,
            ports,
            wires,
            gadgets: _,
            random: _,
            given: _,
        } = self;
        let equations = equations(alloc, wires.as_slice())?;
        let registers = registers(alloc, wires.as_slice())?;
        let names = names(alloc, wires)?;
        Net::from_parts(
            alloc,
            List::from_vec(ports),
            names,
            equations,
            registers,
            Some(0),
        )
    }

    /// The next bit of the port `agm_r`, which was not given before.
    pub fn random(&mut self) -> Result<usize, Memory>
        requires { self.old.given < length (random_bits self.old.ports) }
        ensures given { OnOk result (self.new ≡ record self.old { given = self.old.given + 1 }) }
        ensures within { IfOk result (λ w. w < length self.new.wires) }
        ensures named { IfOk result (λ w. IsRandomWire self.new.wires w) }
        ensures next { IfOk result (λ w. given_bits self.new ≡ given_bits self.old ++ w ∷ []) }
        ensures new { IfOk result (λ w. AllByRecursion (λ b. b ≢ w) (given_bits self.old)) }
        ensures extends { Extends self.old self.new }
        ensures adds { AddsFact self.old self.new (λ cycles bits. Unit {0}) }
        ensures err { OnErr result (self.new ≡ self.old) }
    {
        let wire = self.random.as_slice()[self.given];
        self.given += 1;
        Ok(wire)
    }
}
