//! The multiplication on two shares, and calls of the builder, share by share.

ghost use Rattle.std.specs.Prelude.{◌≡◌, ◌≤◌, ◌+◌, ◌∷◌, [], length, IfOk};
ghost use Rattle.share_wiring.specs.Wiring.{IsSharing};
ghost use Rattle.share_wiring.specs.Adds.{random_bits};

use agm_bits::Memory;
use agm_net::{Equation, Expr, Net, Range, Register};
use hpc2_gadget::multiply;
use share_wiring::{Builder, Sharing};
use std::alloc::{AllocError, Global};
use std::test::Fail;
use test_netlists::evaluator::Evaluator;

const PAIR: Option<Range> = Some(Range { msb: 1, lsb: 0 });

const ONE: Option<Range> = Some(Range { msb: 0, lsb: 0 });

// A net with one random bit, the wire 1, and two bits in two shares: x[1] is shared in the wires 2 and 4, and x[0] in 3 and 5.
fn with_ports(alloc: Global) -> Result<Builder, Memory>
    ensures random { IfOk result (λ b. b.given + 1 ≤ length (random_bits b.ports)) }
    ensures gadgets { IfOk result (λ b. b.gadgets ≡ 0) }
    ensures first { IfOk result (λ b. IsSharing b.wires 2 (2 ∷ 4 ∷ [])) }
    ensures second { IfOk result (λ b. IsSharing b.wires 2 (3 ∷ 5 ∷ [])) }
{
    let mut builder = Builder::new(alloc)?;
    let _random = builder.port_in(b"agm_r", ONE)?;
    let _zeroth = builder.port_in(b"agm_s0_x", PAIR)?;
    let _first = builder.port_in(b"agm_s1_x", PAIR)?;
    Ok(builder)
}

// The product of two bits in two shares.
fn two_shares(alloc: Global) -> Result<Net, Memory> {
    let mut builder = with_ports(alloc)?;
    let a = Sharing { shares: [2, 4] };
    let b = Sharing { shares: [3, 5] };
    let _product = multiply(&mut builder, &a, &b)?;
    builder.finish()
}

// The inverse of the exclusive or of two bits in two shares, one cycle late.
fn late_inverse(alloc: Global) -> Result<Net, Memory> {
    let mut builder = with_ports(alloc)?;
    let a = Sharing { shares: [2, 4] };
    let b = Sharing { shares: [3, 5] };
    let sum = builder.xor(&a, &b)?;
    let inverse = builder.not(&sum)?;
    let _late = builder.delay(&inverse)?;
    builder.finish()
}

// A net run for three rows of inputs, where all registers begin with 1.
fn after(alloc: Global, net: &Net, rows: &[[bool; 5]; 3]) -> Result<Evaluator, AllocError> {
    let power_up = vec![in alloc; true; net.registers.len()]?;
    let mut run = Evaluator::new(alloc, net, power_up.as_slice())?;
    for row in rows {
        run.step(net, row.as_slice());
    }
    Ok(run)
}

fn wire(net: &Net, name: &[u8]) -> usize {
    match net.wire(name) {
        Some(wire) => wire,
        None => usize::MAX,
    }
}

// The shares of the product in cycle 2: the random bit and b are given in cycle 0, and a in cycle 1.
fn product(
    alloc: Global,
    net: &Net,
    a: [bool; 2],
    b: [bool; 2],
    r: bool,
) -> Result<[bool; 2], AllocError> {
    let rows = [
        [r, false, b[0], true, b[1]],
        [true, a[0], true, a[1], false],
        [false, true, false, true, true],
    ];
    let run = after(alloc, net, &rows)?;
    let low = run.bit(wire(net, b"agm_g0.c[0]"));
    let high = run.bit(wire(net, b"agm_g0.c[1]"));
    Ok([low, high])
}

#[test]
fn multiplies_two_shares(rt: HostRuntime) -> Result<(), Fail> {
    let alloc = rt.alloc();
    let net = two_shares(alloc)?;
    assert_eq!(rt;
        product(alloc, &net, [true, false], [false, true], true)?,
        [false, true]
    );
    for k in 0..32 {
        let [a0, a1, b0, b1, r] = [k & 1 != 0, k & 2 != 0, k & 4 != 0, k & 8 != 0, k & 16 != 0];
        let c = product(alloc, &net, [a0, a1], [b0, b1], r)?;
        let both = (a0 != a1) && (b0 != b1);
        assert_eq!(rt; c[0] != c[1], both, "at {k}");
    }
    Ok(())
}

/// The wires of the product of two bits in two shares.
const PARTS: [&str; 39] = [
    "agm_clk",
    "agm_r[0]",
    "agm_s0_x[1]",
    "agm_s0_x[0]",
    "agm_s1_x[1]",
    "agm_s1_x[0]",
    "agm_g0.clk",
    "agm_g0.a[0]",
    "agm_g0.a[1]",
    "agm_g0.b[0]",
    "agm_g0.b[1]",
    "agm_g0.na_0",
    "agm_g0.na_1",
    "agm_g0.bb_0",
    "agm_g0.mx_0",
    "agm_g0.m_0",
    "agm_g0.bb_1",
    "agm_g0.mx_1",
    "agm_g0.m_1",
    "agm_g0.r[0]",
    "agm_g0.rr_0_1",
    "agm_g0.vx_0_1",
    "agm_g0.v_0_1",
    "agm_g0.ux_0_1",
    "agm_g0.u_0_1",
    "agm_g0.wx_0_1",
    "agm_g0.w_0_1",
    "agm_g0.vx_1_0",
    "agm_g0.v_1_0",
    "agm_g0.ux_1_0",
    "agm_g0.u_1_0",
    "agm_g0.wx_1_0",
    "agm_g0.w_1_0",
    "agm_g0.s_0_1",
    "agm_g0.c[0]",
    "agm_g0.s_1_1",
    "agm_g0.c[1]",
    "agm_d0.37",
    "agm_d1.38",
];

#[test]
fn names_the_parts(rt: HostRuntime) -> Result<(), Fail> {
    let net = two_shares(rt.alloc())?;
    assert_eq!(rt; net.wires.len(), PARTS.len());
    for (wire, name) in net.wires.as_slice().iter().zip(PARTS.iter()) {
        assert_eq!(rt; wire.as_slice(), name.as_bytes());
    }
    Ok(())
}

const LATE_LINES: [&str; 4] = [
    "Equation { wire: 6, expr: Xor(Wire(2), Wire(3)) }",
    "Equation { wire: 7, expr: Xor(Wire(4), Wire(5)) }",
    "Equation { wire: 8, expr: Not(Wire(6)) }",
    "Equation { wire: 9, expr: Wire(7) }",
];

const LATE_REGISTERS: [&str; 2] = [
    "Register { q: 10, next: Wire(8), clock: 0 }",
    "Register { q: 11, next: Wire(9), clock: 0 }",
];

pub(crate) fn are_lines(
    alloc: Global,
    equations: &[Equation],
    lines: &[&str],
) -> Result<bool, AllocError> {
    for (equation, line) in equations.iter().zip(lines.iter()) {
        let text = format!(in alloc; "{equation:?}")?;
        if text.as_str() != *line {
            return Ok(false);
        }
    }
    Ok(equations.len() == lines.len())
}

fn are_stored(alloc: Global, registers: &[Register], lines: &[&str]) -> Result<bool, AllocError> {
    for (register, line) in registers.iter().zip(lines.iter()) {
        let text = format!(in alloc; "{register:?}")?;
        if text.as_str() != *line {
            return Ok(false);
        }
    }
    Ok(registers.len() == lines.len())
}

#[test]
fn adds_wires_share_by_share(rt: HostRuntime) -> Result<(), Fail> {
    let alloc = rt.alloc();
    let net = late_inverse(alloc)?;
    assert!(rt; are_lines(alloc, net.equations.as_slice(), LATE_LINES.as_slice())?);
    assert!(rt; are_stored(alloc, net.registers.as_slice(), LATE_REGISTERS.as_slice())?);
    assert_eq!(rt; wire(&net, b"agm_d1.11"), 11);
    Ok(())
}
