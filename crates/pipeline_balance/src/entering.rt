//! All input ports of a masked net.

ghost use Rattle.std.specs.Prelude.{◌≡◌, ◌≤◌, ◌+◌, ◌∷◌, [], ℕ, Bool, false, not, map, count_by, codes, IfOk, OnOk};
ghost use Rattle.agm_net.specs.View.{plain_of};
ghost use Rattle.share_wiring.specs.Built.{clock_port};
ghost use Rattle.share_wiring.specs.Recombine.{port_value, is_shared};
ghost use Rattle.share_wiring.specs.Shape.{header_of, one_input, input_of_width};
ghost use Rattle.share_wiring.specs.declared.gate.Source.TheVariants as source;
ghost use Rattle.pipeline_balance.specs.Apart.{HasNames, FitsLimits};
ghost use Rattle.pipeline_balance.specs.Entered.{IsEntered};
ghost use Rattle.pipeline_balance.specs.Entering.{FitInOrder, Enters};
ghost use Rattle.pipeline_balance.specs.Ports.{FitsBeside, public_value};

use crate::initial_ports::{falling, registers_in};
use crate::input_ports::inputs_in;
use crate::values::Value;
use agm_bits::{List, Memory};
use agm_net::Net;
use share_wiring::{Builder, Report};

/// What stands in the input ports of a masked net.
#[derive(Drop)]
pub struct Entrance<const S: usize> {
    /// The wire of the load signal.
    pub load: usize,
    /// The values of the original's input bits.
    pub inputs: List<Value<S>>,
    /// The initial values of its registers.
    pub firsts: List<Value<S>>,
}

// Makes the port of the load signal. Answers its wire.
fn load_in(builder: &mut Builder) -> Result<usize, Memory>
    requires fit { FitsBeside (map header_of builder.old.ports) (one_input (codes "agm_load")) }
    ensures { IfOk result (λ load. (n : ℕ) → Enters n builder.old builder.new (one_input (codes "agm_load") ∷ []) (false ∷ []) (λ net bit. port_value net (codes "agm_load") bit) (public_value load ∷ [])) }
{
    let _clock = builder.clock();
    let bits = builder.port_in(b"agm_load", None)?;
    Ok(bits.as_slice()[0])
}

// Makes the port of the random bits, none where none is wanted.
fn random_in(builder: &mut Builder, count: usize) -> Result<(), Memory>
    requires few { count ≤ 65536 }
    requires fit { FitInOrder (map header_of builder.old.ports) (input_of_width (codes "agm_r") count) }
    ensures { OnOk result ((n : ℕ) → Enters n builder.old builder.new (input_of_width (codes "agm_r") count) [] (λ net bit. []) []) }
{
    let _clock = builder.clock();
    if count == 0 {
        return Ok(());
    }
    builder.port_in(b"agm_r", Some(falling(count)))?;
    Ok(())
}

/// Makes the input ports of a masked net behind its clock's: those of the load signal and of the random bits, of the initial values of
/// the public registers and of each share of the secret ones, and for each input of the original but its clock its own or those of its
/// shares. `shared` tells of each port of the original whether it is shared, and `secrets` of each register whether it is secret.
pub fn enter<const S: usize>(
    builder: &mut Builder,
    net: &Net,
    shared: &[bool],
    secrets: &[bool],
    report: &Report,
) -> Result<Entrance<S>, Memory>
    requires new { builder.old ≡ record { ports = clock_port ∷ []; wires = record { name = codes "agm_clk"; source = source.Input } ∷ []; gadgets = 0; given = 0 } }
    requires names { HasNames (plain_of net.now) }
    requires limits { FitsLimits report.now }
    requires order { report.now.order + 1 ≡ S }
    requires shared { shared.now ≡ map (λ p. is_shared report.now p.name) net.now.ports }
    requires publics { report.now.public_registers ≡ count_by not secrets.now }
    requires secrets { report.now.secret_registers ≡ count_by (λ s. s) secrets.now }
    ensures { IfOk result (λ e. IsEntered S (plain_of net.now) secrets.now report.now builder.new e.load e.inputs e.firsts) }
{
    let load = load_in(builder)?;
    random_in(builder, report.random)?;
    let firsts = registers_in(builder, secrets, report)?;
    let inputs = inputs_in(builder, net, shared, report)?;
    let _clock = builder.clock();
    Ok(Entrance {
        load,
        inputs,
        firsts,
    })
}
