ghost use Rattle.std.specs.Prelude.{◌≡◌, ◌<◌, ◌↔◌, Some, IsTrue, IfOk, IfErr, length, position, slice_get};
ghost use Rattle.std.specs.Str.{bytes_eq};
ghost use Rattle.agm_net.specs.Plain.{plain};
ghost use Rattle.agm_net.specs.PlainForm.{PortNamesAreBits};
ghost use Rattle.agm_net.specs.WellFormed.{WellFormed};

use crate::checks::first_bad;
use crate::plain::{are_parts_plain, are_port_names_bits};
use crate::roles::role_of;
use crate::{Equation, Port, Register, Role};
use agm_bits::{List, Memory, Name};
use std::alloc::Global;

/// A net. Wires are the numbers below the length of `wires`, which has their names.
#[derive(Debug, Drop)]
pub struct Net {
    pub ports: List<Port>,
    pub wires: List<Name>,
    pub equations: List<Equation>,
    pub registers: List<Register>,
    /// The number of the clock's port, where there is one.
    pub clock: Option<usize>,
    // Whether each wire that has the name of a port is a bit of some port. It is found out once, with a table of names.
    port_names_are_bits: bool,
    ghost well_formed: { WellFormed (plain ports wires equations registers clock) },
    ghost told: { IsTrue port_names_are_bits ↔ PortNamesAreBits ports wires },
}

/// Why parts make no net.
#[derive(Clone, Copy, Debug, PartialEq, Eq)]
pub enum NewNet {
    /// The number of wires where a number is out of range or the ports are not right, else the first wire that has an
    /// earlier wire's name or is not exactly one of an input port's bit, an equation's wire and a register's output.
    Bad { wire: usize },
    Memory,
}

impl From<Memory> for NewNet {
    ghost use Rattle.agm_net.specs.declared.net.NewNet.TheVariants.{Memory as WantOfMemory};

    ghost from_gives = { λ _ e. e ≡ WantOfMemory };

    fn from(_: Memory) -> Self {
        NewNet::Memory
    }
}

impl Net {
    ghost use Rattle.agm_net.specs.PlainForm.{IsPlain};
    ghost use Rattle.agm_net.specs.Refusal.{Refuses};
    ghost use Rattle.agm_net.specs.Role.{HasRole};
    ghost use Rattle.agm_net.specs.View.{plain_of};

    /// A net of these parts. `clock` is the number of the clock's port, where there is one.
    ///
    /// Takes near linear time and memory in the parts' size.
    ///
    /// # Errors
    ///
    /// `Bad` where the parts make no net, and `Memory` where memory runs out.
    pub fn new(
        alloc: Global,
        ports: List<Port>,
        wires: List<Name>,
        equations: List<Equation>,
        registers: List<Register>,
        clock: Option<usize>,
    ) -> Result<Net, NewNet>
        ensures parts { IfOk result (λ net. (net.ports ≡ ports) × (net.wires ≡ wires) × (net.equations ≡ equations) × (net.registers ≡ registers) × (net.clock ≡ clock)) }
        ensures bad { IfErr result (Refuses (plain ports wires equations registers clock)) }
    {
        let bad = first_bad(
            alloc,
            ports.as_slice(),
            wires.as_slice(),
            equations.as_slice(),
            registers.as_slice(),
            clock,
        )?;
        match bad {
            Some(wire) => Err(NewNet::Bad { wire }),
            None => Ok(Net::from_parts(alloc, ports, wires, equations, registers, clock)?),
        }
    }

    /// The net of parts that make one, which isn't checked.
    ///
    /// Takes near linear time and memory in the number of ports and wires.
    ///
    /// # Errors
    ///
    /// `Memory` where memory runs out.
    pub fn from_parts(
        alloc: Global,
        ports: List<Port>,
        wires: List<Name>,
        equations: List<Equation>,
        registers: List<Register>,
        clock: Option<usize>,
    ) -> Result<Net, Memory>
        requires { WellFormed (plain ports wires equations registers clock) }
        ensures { IfOk result (λ net. (net.ports ≡ ports) × (net.wires ≡ wires) × (net.equations ≡ equations) × (net.registers ≡ registers) × (net.clock ≡ clock)) }
    {
        let port_names_are_bits = are_port_names_bits(alloc, ports.as_slice(), wires.as_slice())?;
        Ok(Net {
            ports,
            wires,
            equations,
            registers,
            clock,
            port_names_are_bits,
        })
    }

    /// The number of the wire that has a name. Walks over the names, so it takes linear time.
    pub fn wire(&self, name: &[u8]) -> Option<usize>
        ensures { result ≡ position (λ n. bytes_eq n name.now) self.now.wires }
    {
        self.wires
            .as_slice()
            .iter()
            .position(|n| n.as_slice() == name)
    }

    /// What the name of a port of a masked net says of its bits: `agm_s<i>_` and a rest, or `agm_q_s<i>`, is share `i`,
    /// which is below 2^32 and has no leading zero; `agm_r` is random; `agm_clk` is the clock; every other name is public.
    pub fn role(&self, port: usize) -> Role
        requires { port < length self.now.ports }
        ensures { (p : Port) → slice_get self.now.ports port ≡ Some p → HasRole p.name result }
    {
        role_of(self.ports.as_slice()[port].name.as_slice())
    }

    /// Whether the net is plain: each equation is a constant, a wire, or one operator over wires; each next expression is a
    /// wire, or a `Mux` of wires whose low side is the register's own output; the names of ports and wires are one or more
    /// bytes 33 to 126; range numbers are at most 65,535; and a wire that has the name of a port is a bit of some port.
    ///
    /// Takes linear time and no memory.
    pub fn is_plain(&self) -> bool
        ensures { IsTrue result ↔ IsPlain (plain_of self.now) }
    {
        are_parts_plain(
            self.ports.as_slice(),
            self.wires.as_slice(),
            self.equations.as_slice(),
            self.registers.as_slice(),
        ) && self.port_names_are_bits
    }
}
