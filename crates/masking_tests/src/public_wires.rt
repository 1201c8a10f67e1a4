//! The calls on public wires.

ghost use Rattle.std.specs.Prelude.{IfOk};
ghost use Rattle.share_wiring.specs.Wiring.{IsPublicWire};

use crate::gadgets::are_lines;
use agm_bits::Memory;
use agm_net::Net;
use share_wiring::Builder;
use std::alloc::Global;
use std::test::Fail;

// A net with the load signal, the wire 1, which is public.
fn with_load(alloc: Global) -> Result<Builder, Memory>
    ensures { IfOk result (λ b. IsPublicWire b.wires 1) }
{
    let mut builder = Builder::new(alloc)?;
    builder.port_in(b"agm_load", None)?;
    Ok(builder)
}

// The load signal in two shares, and its product with itself.
fn shared_load(alloc: Global) -> Result<Net, Memory> {
    let mut builder = with_load(alloc)?;
    let load = builder.public::<2>(1)?;
    let _product = builder.and_public(1, &load)?;
    builder.finish()
}

const LINES: [&str; 4] = [
    "Equation { wire: 2, expr: Wire(1) }",
    "Equation { wire: 3, expr: Zero }",
    "Equation { wire: 4, expr: And(Wire(1), Wire(2)) }",
    "Equation { wire: 5, expr: And(Wire(1), Wire(3)) }",
];

#[test]
fn shares_public_wires(rt: HostRuntime) -> Result<(), Fail> {
    let alloc = rt.alloc();
    let net = shared_load(alloc)?;
    assert!(rt; are_lines(alloc, net.equations.as_slice(), LINES.as_slice())?);
    Ok(())
}
