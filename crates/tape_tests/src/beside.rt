//! Two runs side by side, printed.

ghost use Rattle.std.specs.Prelude.{◌≡◌, ◌+◌, IfOk};
ghost use Rattle.share_wiring.specs.ReportOf.{streams_of};

use agm_bits::{List, Memory};
use agm_net::{Equation, Expr, Net, Range, Way, xor_of};
use logic_graph::order;
use share_wiring::{Balance, Masked, Mode, Report};
use side_by_side::{columns, columns_text};
use std::alloc::Global;
use std::process::Abort;
use std::test::Fail;
use stimulus::read_stimulus;
use test_netlists::parts::{PortRow, names_of, ports_of};

// The bytes 0 to 31.
const SEED: [u8; 32] = [
    0, 1, 2, 3, 4, 5, 6, 7, 8, 9, 10, 11, 12, 13, 14, 15, 16, 17, 18, 19, 20, 21, 22, 23, 24, 25,
    26, 27, 28, 29, 30, 31,
];

// A secret bit and a public one, each led out.
const WIRES: [&str; 5] = ["clk", "x", "p", "y", "z"];

const PORTS: [PortRow<'static>; 5] = [
    ("clk", Way::Input, None, &[0]),
    ("x", Way::Input, None, &[1]),
    ("p", Way::Input, None, &[2]),
    ("y", Way::Output, None, &[3]),
    ("z", Way::Output, None, &[4]),
];

// The same with two shares, to each of which a random bit is added.
const MASKED_WIRES: [&str; 9] = [
    "agm_clk", "agm_load", "agm_r[0]", "agm_s0_x", "agm_s1_x", "p", "agm_s0_y", "agm_s1_y", "z",
];

const MASKED_PORTS: [PortRow<'static>; 9] = [
    ("agm_clk", Way::Input, None, &[0]),
    ("agm_load", Way::Input, None, &[1]),
    ("agm_r", Way::Input, Some(Range { msb: 0, lsb: 0 }), &[2]),
    ("agm_s0_x", Way::Input, None, &[3]),
    ("agm_s1_x", Way::Input, None, &[4]),
    ("p", Way::Input, None, &[5]),
    ("agm_s0_y", Way::Output, None, &[6]),
    ("agm_s1_y", Way::Output, None, &[7]),
    ("z", Way::Output, None, &[8]),
];

const STIMULUS: &str =
    "{\"streams\":[{\"initial\":\"\",\"steps\":[{\"x\":\"1\",\"p\":\"0\"},{\"x\":\"0\",\"p\":\"1\"},{\"x\":\"1\",\"p\":\"1\"},{\"x\":\"0\",\"p\":\"0\"},{\"x\":\"1\",\"p\":\"0\"}]}]}";

const RIGHT: &str =
    "stream 0 step 0 y=1:1 shares 1,0\nstream 0 step 0 z=0:0 shares 0\nstream 0 step 1 y=0:0 shares 1,1\nstream 0 step 1 z=1:1 shares 1\nstream 0 step 2 y=1:1 shares 0,1\nstream 0 step 2 z=1:1 shares 1\nstream 0 step 3 y=0:0 shares 0,0\nstream 0 step 3 z=0:0 shares 0\nstream 0 step 4 y=1:1 shares 1,0\nstream 0 step 4 z=0:0 shares 0\n";

// The random bit is 1 from step 2 on.
const WRONG: &str =
    "stream 0 step 0 y=1:1 shares 1,0\nstream 0 step 0 z=0:0 shares 0\nstream 0 step 1 y=0:0 shares 1,1\nstream 0 step 1 z=1:1 shares 1\nstream 0 step 2 y=1:0 shares 0,0\nstream 0 step 2 z=1:1 shares 1\nstream 0 step 3 y=0:1 shares 0,1\nstream 0 step 3 z=0:0 shares 0\nstream 0 step 4 y=1:0 shares 1,1\nstream 0 step 4 z=0:0 shares 0\n";

// The original's net.
fn original(alloc: Global) -> Result<Net, Memory> {
    let mut equations = List::new(alloc);
    for (wire, read) in [(3, 1), (4, 2)] {
        equations.push(Equation {
            wire,
            expr: Expr::Wire(read),
        })?;
    }
    let wires = names_of(alloc, WIRES.as_slice())?;
    let ports = ports_of(alloc, PORTS.as_slice())?;
    match Net::new(alloc, ports, wires, equations, List::new(alloc), Some(0)) {
        Ok(net) => Ok(net),
        Err(_) => Err(Memory),
    }
}

// Share 1 of the output, which lacks its random bit where the net is wrong.
fn last_share(alloc: Global, is_wrong: bool) -> Result<Expr, Memory> {
    if is_wrong {
        Ok(Expr::Wire(4))
    } else {
        xor_of(alloc, 4, 2)
    }
}

// The masked net.
fn masked_net(alloc: Global, is_wrong: bool) -> Result<Net, Memory> {
    let mut equations = List::new(alloc);
    equations.push(Equation {
        wire: 6,
        expr: xor_of(alloc, 3, 2)?,
    })?;
    equations.push(Equation {
        wire: 7,
        expr: last_share(alloc, is_wrong)?,
    })?;
    equations.push(Equation {
        wire: 8,
        expr: Expr::Wire(5),
    })?;
    let wires = names_of(alloc, MASKED_WIRES.as_slice())?;
    let ports = ports_of(alloc, MASKED_PORTS.as_slice())?;
    match Net::new(alloc, ports, wires, equations, List::new(alloc), Some(0)) {
        Ok(net) => Ok(net),
        Err(_) => Err(Memory),
    }
}

// The masked net with its report.
fn masked(alloc: Global, is_wrong: bool) -> Result<Masked, Memory>
    ensures period { IfOk result (λ m. m.report.period ≡ m.report.latency + 1) }
    ensures streams { IfOk result (λ m. m.report.streams ≡ streams_of m.report.balance m.report.period) }
{
    let report = Report {
        order: 1,
        mode: Mode::Naive,
        balance: Balance::Pipe,
        gadgets: 0,
        random: 1,
        latency: 0,
        period: 1,
        streams: 1,
        public_registers: 0,
        secret_registers: 0,
        ports: names_of(alloc, ["x", "y"].as_slice())?,
    };
    Ok(Masked {
        net: masked_net(alloc, is_wrong)?,
        report,
    })
}

// Holds the printed pairs against a text.
fn prints(rt: &impl Abort, alloc: Global, is_wrong: bool, text: &str) -> Result<(), Fail> {
    let net = original(alloc)?;
    let masked = masked(alloc, is_wrong)?;
    let Ok(_graph) = order(alloc, &net) else {
        return Err(Fail::from("a loop"));
    };
    let streams = Some(masked.report.streams);
    let Ok(stimulus) = read_stimulus(alloc, STIMULUS.as_bytes(), &net, net.clock, streams) else {
        return Err(Fail::from("no stimulus"));
    };
    let Ok(pairs) = columns(alloc, &net, &masked, &stimulus, &SEED) else {
        return Err(Fail::from("no pairs"));
    };
    let printed = columns_text(alloc, &net, pairs.as_slice())?;
    assert!(rt; printed.as_slice() == text.as_bytes());
    Ok(())
}

#[test]
fn both_columns_are_the_same(rt: HostRuntime) -> Result<(), Fail> {
    prints(&rt, rt.alloc(), false, RIGHT)
}

#[test]
fn a_wrong_share_is_seen(rt: HostRuntime) -> Result<(), Fail> {
    prints(&rt, rt.alloc(), true, WRONG)
}
