//! The tape of a masked net, row by row.

ghost use Rattle.std.specs.Prelude.{◌≡◌, ◌<◌, Some, IfOk, length};
ghost use Rattle.agm_net.specs.Loop.{HasNoLoop};
ghost use Rattle.agm_net.specs.View.{plain_of};
ghost use Rattle.share_wiring.specs.ReportOf.{streams_of};
ghost use Rattle.stimulus.specs.Fits.{Fits};

use agm_bits::{BitRow, List, Memory, Tape};
use agm_net::{Equation, Expr, Net, Range, Register, Way};
use logic_graph::order;
use share_wiring::{Balance, Masked, Mode, Report};
use shared_tape::share_out;
use std::alloc::Global;
use std::process::Abort;
use std::test::Fail;
use stimulus::read_stimulus;
use test_netlists::parts::{PortRow, names_of, ports_of};

// The bytes 0 to 31.
const SEED: [u8; 32] = [
    0, 1, 2, 3, 4, 5, 6, 7, 8, 9, 10, 11, 12, 13, 14, 15, 16, 17, 18, 19, 20, 21, 22, 23, 24, 25,
    26, 27, 28, 29, 30, 31,
];

const WIRES: [&str; 9] = ["clk", "x[1]", "x[0]", "p", "z", "r0", "r1", "r2", "y"];

const PORTS: [PortRow<'static>; 5] = [
    ("clk", Way::Input, None, &[0]),
    ("x", Way::Input, Some(Range { msb: 1, lsb: 0 }), &[1, 2]),
    ("p", Way::Input, None, &[3]),
    ("z", Way::Input, None, &[4]),
    ("y", Way::Output, None, &[8]),
];

// Each register stores an input bit: the first and the last one that is shared, the second one that is public.
const REGISTERS: [(usize, usize); 3] = [(5, 1), (6, 3), (7, 4)];

const TWO_STREAMS: &str =
    "{\"streams\":[{\"initial\":\"101\",\"steps\":[{\"x\":\"10\",\"p\":\"1\",\"z\":\"0\"},{\"x\":\"01\",\"p\":\"1\",\"z\":\"1\"}]},{\"initial\":\"011\",\"steps\":[{\"x\":\"11\",\"p\":\"0\",\"z\":\"0\"},{\"x\":\"00\",\"p\":\"0\",\"z\":\"1\"}]}]}";

const ONE_STREAM: &str =
    "{\"streams\":[{\"initial\":\"101\",\"steps\":[{\"x\":\"10\",\"p\":\"1\",\"z\":\"0\"},{\"x\":\"01\",\"p\":\"1\",\"z\":\"1\"}]}]}";

// In each row: the load signal; the public register; the shares of the other two; x, p and z with their shares.
const THREE_IN_FLIGHT: [&str; 9] = [
    "101111110000000000",
    "110001110011011101",
    "101000100101110110",
    "000000000010100000",
    "000000000000011001",
    "000000001100110001",
    "000000000000000011",
    "000000000000000000",
    "000000000000000000",
];

const HELD: [&str; 7] = [
    "1011000000000",
    "0000001101100",
    "0000001101100",
    "0000001101100",
    "0000001011101",
    "0000001011101",
    "0000001011101",
];

const TWO_IN_FLIGHT: [&str; 6] = [
    "1011000000000",
    "1111010111100",
    "0000000011000",
    "0000001011101",
    "0000001010010",
    "0000000000000",
];

// The original's net.
fn original(alloc: Global) -> Result<Net, Memory> {
    let mut registers = List::new(alloc);
    for (q, next) in REGISTERS {
        registers.push(Register {
            q,
            next: Expr::Wire(next),
            clock: 0,
        })?;
    }
    let mut equations = List::new(alloc);
    equations.push(Equation {
        wire: 8,
        expr: Expr::Wire(5),
    })?;
    let wires = names_of(alloc, WIRES.as_slice())?;
    let ports = ports_of(alloc, PORTS.as_slice())?;
    match Net::new(alloc, ports, wires, equations, registers, Some(0)) {
        Ok(net) => Ok(net),
        Err(_) => Err(Memory),
    }
}

// A net with a report of this order, balance and period. `share_out` reads the report alone.
fn masked(alloc: Global, order: u32, balance: Balance, period: usize) -> Result<Masked, Memory>
    requires { 0 < period }
    ensures period { IfOk result (λ m. m.report.period ≡ period) }
    ensures streams { IfOk result (λ m. m.report.streams ≡ streams_of m.report.balance m.report.period) }
{
    let report = Report {
        order,
        mode: Mode::Naive,
        balance,
        gadgets: 0,
        random: 0,
        latency: period - 1,
        period,
        streams: match balance {
            Balance::Pipe => period,
            Balance::Gate => 1,
        },
        public_registers: 1,
        secret_registers: 2,
        ports: names_of(alloc, ["x", "z", "y"].as_slice())?,
    };
    Ok(Masked {
        net: original(alloc)?,
        report,
    })
}

// The tape for a stimulus.
fn tape(alloc: Global, masked: &Masked, text: &str) -> Result<Tape, Fail>
    requires period { 0 < masked.now.report.period }
    requires streams { masked.now.report.streams ≡ streams_of masked.now.report.balance masked.now.report.period }
{
    let net = original(alloc)?;
    let Ok(_graph) = order(alloc, &net) else {
        return Err(Fail::from("a loop"));
    };
    let streams = Some(masked.report.streams);
    let Ok(stimulus) = read_stimulus(alloc, text.as_bytes(), &net, net.clock, streams) else {
        return Err(Fail::from("no stimulus"));
    };
    Ok(share_out(alloc, &net, masked, &stimulus, &SEED)?)
}

// Whether a row has these bits.
fn has_bits(row: &BitRow, text: &str) -> bool {
    let bits = text.as_bytes();
    if row.len() != bits.len() {
        return false;
    }
    for k in 0..row.len() {
        if row.get(k) != (bits[k] == b'1') {
            return false;
        }
    }
    true
}

// Holds the tape for a stimulus against rows.
fn holds(
    rt: &impl Abort,
    alloc: Global,
    order: u32,
    balance: Balance,
    period: usize,
    text: &str,
    rows: &[&str],
) -> Result<(), Fail>
    requires { 0 < period }
{
    let masked = masked(alloc, order, balance, period)?;
    let tape = tape(alloc, &masked, text)?;
    assert_eq!(rt; tape.rows.len(), rows.len());
    for (row, text) in tape.rows.as_slice().iter().zip(rows.iter()) {
        assert!(rt; has_bits(row, text));
    }
    Ok(())
}

#[test]
fn streams_in_flight_are_shared_and_filled_up(rt: HostRuntime) -> Result<(), Fail> {
    let alloc = rt.alloc();
    holds(
        &rt,
        alloc,
        2,
        Balance::Pipe,
        3,
        TWO_STREAMS,
        THREE_IN_FLIGHT.as_slice(),
    )?;
    holds(
        &rt,
        alloc,
        1,
        Balance::Pipe,
        2,
        TWO_STREAMS,
        TWO_IN_FLIGHT.as_slice(),
    )
}

#[test]
fn held_steps_are_shared_once(rt: HostRuntime) -> Result<(), Fail> {
    holds(
        &rt,
        rt.alloc(),
        1,
        Balance::Gate,
        3,
        ONE_STREAM,
        HELD.as_slice(),
    )
}
