//! A net with wide ports, and what its simulation prints.

ghost use Rattle.agm_net.specs.Loop.{HasNoLoop};
ghost use Rattle.agm_net.specs.View.{plain_of};

use crate::designs::{Cell, equations_of, registers_of};
use crate::fitting::fits;
use crate::simulated_nets::row_of;
use agm_bits::{List, Memory, Name};
use agm_net::{Net, NewNet, Port, Range, Way};
use logic_graph::{input_bits, order};
use sim_text::sim_text;
use std::alloc::Global;
use std::test::Fail;
use stimulus::{Stimulus, Stream};

struct Bus<'b> {
    name: &'b str,
    way: Way,
    range: Option<Range>,
    bits: &'b [usize],
}

// A register of two bits, and an output of one.
const PORTS: &[Bus<'static>] = &[
    Bus {
        name: "clk",
        way: Way::Input,
        range: None,
        bits: &[0],
    },
    Bus {
        name: "q",
        way: Way::Output,
        range: Some(Range { msb: 1, lsb: 0 }),
        bits: &[3, 4],
    },
    Bus {
        name: "d",
        way: Way::Input,
        range: Some(Range { msb: 1, lsb: 0 }),
        bits: &[1, 2],
    },
    Bus {
        name: "differ",
        way: Way::Output,
        range: None,
        bits: &[5],
    },
];

const WIRES: &[&str] = &["clk", "d[1]", "d[0]", "q[1]", "q[0]", "differ"];

const EQUATIONS: &[(usize, Cell)] = &[(5, Cell::Xor(3, 4))];

const REGISTERS: &[(usize, Cell)] = &[(3, Cell::Wire(1)), (4, Cell::Wire(2))];

// A stream: the contents of the register, and what it takes over in each step.
struct Run<'r> {
    initial: &'r [bool],
    steps: &'r [[bool; 2]],
}

const RUNS: &[Run<'static>] = &[
    Run {
        initial: &[true, false],
        steps: &[[true, true], [false, true]],
    },
    Run {
        initial: &[false, false],
        steps: &[[false, true], [true, true]],
    },
];

const TEXT: &str = "stream 0 step 0 q=10 differ=1
stream 0 step 1 q=11 differ=0
stream 1 step 0 q=00 differ=0
stream 1 step 1 q=01 differ=1
";

fn ports_of(alloc: Global, buses: &[Bus]) -> Result<List<Port>, Memory> {
    let mut ports = List::new(alloc);
    for bus in buses {
        ports.push(Port {
            name: Name::from_slice(alloc, bus.name.as_bytes())?,
            way: bus.way,
            range: bus.range,
            bits: List::from_slice(alloc, bus.bits)?,
        })?;
    }
    Ok(ports)
}

fn names_of(alloc: Global, texts: &[&str]) -> Result<List<Name>, Memory> {
    let mut names = List::new(alloc);
    for text in texts {
        names.push(Name::from_slice(alloc, text.as_bytes())?)?;
    }
    Ok(names)
}

fn registered(alloc: Global) -> Result<Net, NewNet> {
    let ports = ports_of(alloc, PORTS)?;
    let wires = names_of(alloc, WIRES)?;
    let equations = equations_of(alloc, EQUATIONS)?;
    let registers = registers_of(alloc, REGISTERS)?;
    Net::new(alloc, ports, wires, equations, registers, Some(0))
}

fn stream_of(alloc: Global, run: &Run) -> Result<Stream, Memory> {
    let initial = row_of(alloc, run.initial)?;
    let mut steps = List::new(alloc);
    for inputs in run.steps {
        steps.push(row_of(alloc, inputs)?)?;
    }
    Ok(Stream { initial, steps })
}

fn stimulus_of(alloc: Global, runs: &[Run]) -> Result<Stimulus, Memory> {
    let mut streams = List::new(alloc);
    for run in runs {
        streams.push(stream_of(alloc, run)?)?;
    }
    Ok(Stimulus { streams })
}

// The text of a net without a loop, where the streams have so many steps and fit it.
fn fitting_text(alloc: Global, net: &Net, steps: usize, stimulus: &Stimulus) -> Result<Name, Fail>
    requires { HasNoLoop (plain_of net.now) }
{
    let inputs = input_bits(alloc, net)?.len();
    if !fits(net, inputs, steps, stimulus.streams.as_slice()) {
        return Err(Fail::from("no stimulus of the net"));
    }
    Ok(sim_text(alloc, net, stimulus)?)
}

// The text of any net.
fn text_of(alloc: Global, net: &Net, steps: usize, stimulus: &Stimulus) -> Result<Name, Fail> {
    let ordered = order(alloc, net);
    match ordered {
        Ok(_graph) => fitting_text(alloc, net, steps, stimulus),
        Err(_fault) => Err(Fail::from("no graph")),
    }
}

#[test]
fn lines_are_printed(rt: HostRuntime) -> Result<(), Fail> {
    let net = registered(rt.alloc()).map_err(|_| Fail::from("no net"))?;
    let stimulus = stimulus_of(rt.alloc(), RUNS)?;
    let text = text_of(rt.alloc(), &net, 2, &stimulus)?;
    assert_eq!(rt; text.as_slice(), TEXT.as_bytes());
    Ok(())
}
