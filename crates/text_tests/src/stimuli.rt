//! Stimuli.

use agm_bits::{BitRow, List, Memory};
use agm_net::{Expr, Net, NewNet, Range, Register, Way};
use std::alloc::{AllocError, Global};
use std::test::Fail;
use stimulus::{Stimulus, StimulusFault, Stream, read_stimulus};
use test_netlists::parts::{PortRow, names_of, ports_of};

const PORTS: [PortRow<'static>; 4] = [
    ("clk", Way::Input, None, &[0]),
    ("x", Way::Input, Some(Range { msb: 1, lsb: 0 }), &[1, 2]),
    ("q", Way::Output, None, &[5]),
    ("y", Way::Input, None, &[3]),
];

const WIRES: [&'static str; 6] = ["clk", "x[1]", "x[0]", "y", "p", "q"];

fn register(q: usize, next: usize) -> Register {
    Register {
        q,
        next: Expr::Wire(next),
        clock: 0,
    }
}

// A net with the clock `clk`, the inputs `x[1:0]` and `y` on either side of the output `q`, and two registers.
fn net(alloc: Global) -> Result<Net, NewNet> {
    let mut registers = List::new(alloc);
    registers.push(register(4, 1))?;
    registers.push(register(5, 3))?;
    let ports = ports_of(alloc, &PORTS)?;
    let wires = names_of(alloc, &WIRES)?;
    Net::new(alloc, ports, wires, List::new(alloc), registers, Some(0))
}

/// A text, how many streams are allowed, and what is read: its rows, or the cause with its stream and step.
const CASES: &[(&str, Option<usize>, &str)] = &[
    // Stimuli: for each stream its initial state and its rows.
    (
        "{\"streams\":[{\"initial\":\"01\",\"steps\":[{\"x\":\"10\",\"y\":\"1\"}]}]}",
        None,
        "01 101;",
    ),
    (
        "{\"streams\":[{\"initial\":\"01\",\"steps\":[{\"x\":\"10\",\"y\":\"1\"}]}]}",
        Some(1),
        "01 101;",
    ),
    (
        " {\"streams\": [ {\"steps\":[{\"y\":\"1\",\"x\":\"10\"},{\"x\":\"01\",\"y\":\"0\"}],\"initial\":\"11\"},\n {\"initial\":\"00\",\"steps\":[{\"x\":\"11\",\"y\":\"0\"},{\"x\":\"00\",\"y\":\"1\"}]} ] } ",
        Some(2),
        "11 101 010;00 110 001;",
    ),
    // Of equal keys the last one counts, and an escape is the character that it stands for.
    (
        "{\"streams\":[{\"initial\":\"01\",\"steps\":[{\"x\":\"9\",\"x\":\"10\",\"y\":\"1\"}]}]}",
        None,
        "01 101;",
    ),
    (
        "{\"streams\":[{\"initial\":\"01\",\"steps\":[{\"\\u0078\":\"\\u00310\",\"y\":\"1\"}]}]}",
        None,
        "01 101;",
    ),
    // No JSON.
    ("", None, "Json 0 0"),
    ("{\"streams\":[", None, "Json 0 0"),
    ("{\"streams\":[1e400]}", None, "Json 0 0"),
    (
        "\u{feff}{\"streams\":[{\"initial\":\"01\",\"steps\":[{\"x\":\"10\",\"y\":\"1\"}]}]}",
        None,
        "Json 0 0",
    ),
    (
        "{\"streams\":[{\"initial\":\"01\",\"steps\":[{\"x\":\"10\",\"y\":\"1\"}]}]} 1",
        None,
        "Json 0 0",
    ),
    ("{\"streams\":[\"\\ud800\"]}", None, "Json 0 0"),
    ("{'streams':[]}", None, "Json 0 0"),
    // Another key or kind.
    ("[]", None, "Shape 0 0"),
    ("1", None, "Shape 0 0"),
    ("{}", None, "Shape 0 0"),
    ("{\"streams\":{}}", None, "Shape 0 0"),
    ("{\"stream\":[]}", None, "Shape 0 0"),
    ("{\"streams\":[],\"version\":1}", None, "Shape 0 0"),
    ("{\"streams\":[1]}", None, "Shape 0 0"),
    ("{\"streams\":[{}]}", None, "Shape 0 0"),
    ("{\"streams\":[{\"initial\":\"01\"}]}", None, "Shape 0 0"),
    (
        "{\"streams\":[{\"initial\":1,\"steps\":[]}]}",
        None,
        "Shape 0 0",
    ),
    (
        "{\"streams\":[{\"initial\":\"01\",\"steps\":{}}]}",
        None,
        "Shape 0 0",
    ),
    (
        "{\"streams\":[{\"initial\":\"01\",\"steps\":[],\"more\":1}]}",
        None,
        "Shape 0 0",
    ),
    (
        "{\"streams\":[{\"Initial\":\"01\",\"steps\":[]}]}",
        None,
        "Shape 0 0",
    ),
    (
        "{\"streams\":[{\"initial\":\"01\",\"steps\":[\"x\"]}]}",
        None,
        "Shape 0 0",
    ),
    (
        "{\"streams\":[{\"initial\":\"01\",\"steps\":[{\"x\":\"10\",\"y\":1}]}]}",
        None,
        "Shape 0 0",
    ),
    (
        "{\"streams\":[{\"initial\":\"01\",\"steps\":[{\"x\":\"10\",\"y\":\"1\"}]},{\"initial\":\"01\",\"steps\":[{\"x\":null}]}]}",
        None,
        "Shape 0 0",
    ),
    // The number of streams.
    ("{\"streams\":[]}", None, "Streams 0 0"),
    (
        "{\"streams\":[{\"initial\":\"01\",\"steps\":[{\"x\":\"10\",\"y\":\"1\"}]}]}",
        Some(0),
        "Streams 0 0",
    ),
    (
        "{\"streams\":[{\"initial\":\"01\",\"steps\":[{\"x\":\"10\",\"y\":\"1\"}]},{\"initial\":\"01\",\"steps\":[{\"x\":\"10\",\"y\":\"1\"}]}]}",
        Some(1),
        "Streams 0 0",
    ),
    // The number of steps.
    (
        "{\"streams\":[{\"initial\":\"01\",\"steps\":[]}]}",
        None,
        "Steps 0 0",
    ),
    (
        "{\"streams\":[{\"initial\":\"01\",\"steps\":[]},{\"initial\":\"01\",\"steps\":[]}]}",
        None,
        "Steps 0 0",
    ),
    (
        "{\"streams\":[{\"initial\":\"01\",\"steps\":[]},{\"initial\":\"01\",\"steps\":[{\"x\":\"10\",\"y\":\"1\"}]}]}",
        None,
        "Steps 0 0",
    ),
    (
        "{\"streams\":[{\"initial\":\"01\",\"steps\":[{\"x\":\"10\",\"y\":\"1\"}]},{\"initial\":\"01\",\"steps\":[]}]}",
        None,
        "Steps 1 0",
    ),
    (
        "{\"streams\":[{\"initial\":\"01\",\"steps\":[{\"x\":\"10\",\"y\":\"1\"}]},{\"initial\":\"01\",\"steps\":[{\"x\":\"10\",\"y\":\"1\"}]},{\"initial\":\"01\",\"steps\":[{\"x\":\"10\",\"y\":\"1\"},{\"x\":\"10\",\"y\":\"1\"}]}]}",
        None,
        "Steps 2 0",
    ),
    (
        "{\"streams\":[{\"initial\":\"01\",\"steps\":[{\"x\":\"10\",\"y\":\"1\"},{\"x\":\"10\",\"y\":\"1\"}]},{\"initial\":\"01\",\"steps\":[{\"x\":\"10\",\"y\":\"1\"}]}]}",
        None,
        "Steps 1 0",
    ),
    // The initial state.
    (
        "{\"streams\":[{\"initial\":\"\",\"steps\":[{\"x\":\"10\",\"y\":\"1\"}]}]}",
        None,
        "Initial 0 0",
    ),
    (
        "{\"streams\":[{\"initial\":\"0\",\"steps\":[{\"x\":\"10\",\"y\":\"1\"}]}]}",
        None,
        "Initial 0 0",
    ),
    (
        "{\"streams\":[{\"initial\":\"010\",\"steps\":[{\"x\":\"10\",\"y\":\"1\"}]}]}",
        None,
        "Initial 0 0",
    ),
    (
        "{\"streams\":[{\"initial\":\"02\",\"steps\":[{\"x\":\"10\",\"y\":\"1\"}]}]}",
        None,
        "Initial 0 0",
    ),
    (
        "{\"streams\":[{\"initial\":\"0x\",\"steps\":[{\"x\":\"10\",\"y\":\"1\"}]}]}",
        None,
        "Initial 0 0",
    ),
    (
        "{\"streams\":[{\"initial\":\"01\",\"steps\":[{\"x\":\"10\",\"y\":\"1\"}]},{\"initial\":\"1\",\"steps\":[{\"x\":\"10\",\"y\":\"1\"}]}]}",
        None,
        "Initial 1 0",
    ),
    (
        "{\"streams\":[{\"initial\":\"0é\",\"steps\":[{\"x\":\"10\",\"y\":\"1\"}]}]}",
        None,
        "Initial 0 0",
    ),
    // The names of input ports.
    (
        "{\"streams\":[{\"initial\":\"01\",\"steps\":[{\"x\":\"10\"}]}]}",
        None,
        "Inputs 0 0",
    ),
    (
        "{\"streams\":[{\"initial\":\"01\",\"steps\":[{\"x\":\"10\",\"y\":\"1\",\"z\":\"0\"}]}]}",
        None,
        "Inputs 0 0",
    ),
    (
        "{\"streams\":[{\"initial\":\"01\",\"steps\":[{\"clk\":\"0\",\"x\":\"10\",\"y\":\"1\"}]}]}",
        None,
        "Inputs 0 0",
    ),
    (
        "{\"streams\":[{\"initial\":\"01\",\"steps\":[{\"q\":\"0\",\"x\":\"10\",\"y\":\"1\"}]}]}",
        None,
        "Inputs 0 0",
    ),
    (
        "{\"streams\":[{\"initial\":\"01\",\"steps\":[{\"x\":\"10\",\"z\":\"1\"}]}]}",
        None,
        "Inputs 0 0",
    ),
    (
        "{\"streams\":[{\"initial\":\"01\",\"steps\":[{}]}]}",
        None,
        "Inputs 0 0",
    ),
    (
        "{\"streams\":[{\"initial\":\"01\",\"steps\":[{\"X\":\"10\",\"y\":\"1\"}]}]}",
        None,
        "Inputs 0 0",
    ),
    (
        "{\"streams\":[{\"initial\":\"01\",\"steps\":[{\"x\":\"10\",\"y\":\"1\"},{\"x\":\"10\",\"y\":\"1\"}]},{\"initial\":\"01\",\"steps\":[{\"x\":\"10\",\"y\":\"1\"},{\"x\":\"10\"}]}]}",
        None,
        "Inputs 1 1",
    ),
    // The bits of input ports.
    (
        "{\"streams\":[{\"initial\":\"01\",\"steps\":[{\"x\":\"1\",\"y\":\"1\"}]}]}",
        None,
        "Bits 0 0",
    ),
    (
        "{\"streams\":[{\"initial\":\"01\",\"steps\":[{\"x\":\"100\",\"y\":\"1\"}]}]}",
        None,
        "Bits 0 0",
    ),
    (
        "{\"streams\":[{\"initial\":\"01\",\"steps\":[{\"x\":\"1z\",\"y\":\"1\"}]}]}",
        None,
        "Bits 0 0",
    ),
    (
        "{\"streams\":[{\"initial\":\"01\",\"steps\":[{\"x\":\"10\",\"y\":\"\"}]}]}",
        None,
        "Bits 0 0",
    ),
    (
        "{\"streams\":[{\"initial\":\"01\",\"steps\":[{\"x\":\"10\",\"y\":\"2\"}]}]}",
        None,
        "Bits 0 0",
    ),
    (
        "{\"streams\":[{\"initial\":\"01\",\"steps\":[{\"x\":\"\",\"y\":\"1\"}]}]}",
        None,
        "Bits 0 0",
    ),
    (
        "{\"streams\":[{\"initial\":\"01\",\"steps\":[{\"x\":\"10\",\"y\":\"1\"},{\"x\":\"10\",\"y\":\"1\"}]},{\"initial\":\"01\",\"steps\":[{\"x\":\"10\",\"y\":\"1\"},{\"x\":\"1\",\"y\":\"1\"}]}]}",
        None,
        "Bits 1 1",
    ),
    // Two causes, in either order of places: the first cause is told.
    ("[1,", None, "Json 0 0"),
    ("{\"streams\":[1],", None, "Json 0 0"),
    ("{\"streams\":[],\"more\":1}", None, "Shape 0 0"),
    ("{\"more\":1,\"streams\":[]}", None, "Shape 0 0"),
    (
        "{\"streams\":[{\"initial\":\"01\",\"steps\":[]},{\"initial\":\"01\"}]}",
        Some(1),
        "Shape 0 0",
    ),
    (
        "{\"streams\":[{\"initial\":\"01\"},{\"initial\":\"01\",\"steps\":[]}]}",
        Some(1),
        "Shape 0 0",
    ),
    (
        "{\"streams\":[{\"initial\":\"01\",\"steps\":[]},{\"initial\":\"01\",\"steps\":[{\"x\":\"10\",\"y\":\"1\"}]}]}",
        Some(1),
        "Streams 0 0",
    ),
    (
        "{\"streams\":[{\"initial\":\"01\",\"steps\":[{\"x\":\"10\",\"y\":\"1\"}]},{\"initial\":\"01\",\"steps\":[]}]}",
        Some(1),
        "Streams 0 0",
    ),
    (
        "{\"streams\":[{\"initial\":\"0\",\"steps\":[{\"x\":\"10\",\"y\":\"1\"}]},{\"initial\":\"01\",\"steps\":[]}]}",
        None,
        "Steps 1 0",
    ),
    (
        "{\"streams\":[{\"initial\":\"01\",\"steps\":[{\"x\":\"10\",\"y\":\"1\"}]},{\"initial\":\"0\",\"steps\":[]}]}",
        None,
        "Steps 1 0",
    ),
    (
        "{\"streams\":[{\"initial\":\"01\",\"steps\":[]},{\"initial\":\"0\",\"steps\":[{\"x\":\"10\",\"y\":\"1\"}]}]}",
        None,
        "Steps 0 0",
    ),
    (
        "{\"streams\":[{\"initial\":\"01\",\"steps\":[{\"x\":\"10\"}]},{\"initial\":\"0\",\"steps\":[{\"x\":\"10\",\"y\":\"1\"}]}]}",
        None,
        "Initial 1 0",
    ),
    (
        "{\"streams\":[{\"initial\":\"0\",\"steps\":[{\"x\":\"10\",\"y\":\"1\"}]},{\"initial\":\"01\",\"steps\":[{\"x\":\"10\"}]}]}",
        None,
        "Initial 0 0",
    ),
    (
        "{\"streams\":[{\"initial\":\"0\",\"steps\":[{\"x\":\"10\"}]},{\"initial\":\"01\",\"steps\":[{\"x\":\"10\",\"y\":\"1\"}]}]}",
        None,
        "Initial 0 0",
    ),
    (
        "{\"streams\":[{\"initial\":\"01\",\"steps\":[{\"x\":\"1\",\"y\":\"1\"}]},{\"initial\":\"0\",\"steps\":[{\"x\":\"10\",\"y\":\"1\"}]}]}",
        None,
        "Initial 1 0",
    ),
    (
        "{\"streams\":[{\"initial\":\"0\",\"steps\":[{\"x\":\"10\",\"y\":\"1\"}]},{\"initial\":\"01\",\"steps\":[{\"x\":\"1\",\"y\":\"1\"}]}]}",
        None,
        "Initial 0 0",
    ),
    (
        "{\"streams\":[{\"initial\":\"01\",\"steps\":[{\"x\":\"1\",\"y\":\"1\"},{\"x\":\"10\"}]}]}",
        None,
        "Inputs 0 1",
    ),
    (
        "{\"streams\":[{\"initial\":\"01\",\"steps\":[{\"x\":\"10\"},{\"x\":\"1\",\"y\":\"1\"}]}]}",
        None,
        "Inputs 0 0",
    ),
    (
        "{\"streams\":[{\"initial\":\"01\",\"steps\":[{\"x\":\"1\",\"y\":\"1\"}]},{\"initial\":\"01\",\"steps\":[{\"x\":\"10\",\"y\":\"1\",\"z\":\"0\"}]}]}",
        None,
        "Inputs 1 0",
    ),
    (
        "{\"streams\":[{\"initial\":\"01\",\"steps\":[{\"x\":\"10\",\"y\":\"1\",\"z\":\"0\"}]},{\"initial\":\"01\",\"steps\":[{\"x\":\"1\",\"y\":\"1\"}]}]}",
        None,
        "Inputs 0 0",
    ),
    (
        "{\"streams\":[{\"initial\":\"01\",\"steps\":[{\"x\":\"1\"}]}]}",
        None,
        "Inputs 0 0",
    ),
    // One cause at two places: the first place is told.
    (
        "{\"streams\":[{\"initial\":\"01\",\"steps\":[{\"x\":\"10\",\"y\":\"1\"}]},{\"initial\":\"01\",\"steps\":[]},{\"initial\":\"01\",\"steps\":[]}]}",
        None,
        "Steps 1 0",
    ),
    (
        "{\"streams\":[{\"initial\":\"0\",\"steps\":[{\"x\":\"10\",\"y\":\"1\"}]},{\"initial\":\"0\",\"steps\":[{\"x\":\"10\",\"y\":\"1\"}]}]}",
        None,
        "Initial 0 0",
    ),
    (
        "{\"streams\":[{\"initial\":\"01\",\"steps\":[{\"x\":\"10\",\"y\":\"1\"},{\"x\":\"10\"}]},{\"initial\":\"01\",\"steps\":[{\"x\":\"10\"},{\"x\":\"10\",\"y\":\"1\"}]}]}",
        None,
        "Inputs 0 1",
    ),
    (
        "{\"streams\":[{\"initial\":\"01\",\"steps\":[{\"x\":\"10\",\"y\":\"1\"},{\"x\":\"1\",\"y\":\"1\"}]},{\"initial\":\"01\",\"steps\":[{\"x\":\"1\",\"y\":\"1\"},{\"x\":\"10\",\"y\":\"1\"}]}]}",
        None,
        "Bits 0 1",
    ),
];

fn put_row(text: &mut String, row: &BitRow) -> Result<(), AllocError> {
    for k in 0..row.len() {
        text.push(if row.get(k) { '1' } else { '0' })?;
    }
    Ok(())
}

fn put_stream(text: &mut String, stream: &Stream) -> Result<(), AllocError> {
    put_row(text, &stream.initial)?;
    for row in stream.steps.as_slice() {
        text.push(' ')?;
        put_row(text, row)?;
    }
    text.push(';')
}

// The streams of a stimulus, or the cause why it is none.
fn told(alloc: Global, answer: Result<Stimulus, StimulusFault>) -> Result<String, AllocError> {
    let mut text = String::new(alloc);
    match answer {
        Ok(stimulus) => {
            for stream in stimulus.streams.as_slice() {
                put_stream(&mut text, stream)?;
            }
            Ok(text)
        }
        Err(
            StimulusFault::Bad {
                cause,
                stream,
                step,
            },
        ) => format!(in alloc; "{cause:?} {stream} {step}"),
        Err(StimulusFault::Memory) => String::from_str(alloc, "memory"),
    }
}

fn read(alloc: Global, bytes: &[u8], streams: Option<usize>) -> Result<String, Fail> {
    let net = net(alloc)?;
    let answer = read_stimulus(alloc, bytes, &net, net.clock, streams);
    Ok(told(alloc, answer)?)
}

// Fails at the first text that is read otherwise.
fn read_all(alloc: Global, cases: &[(&str, Option<usize>, &str)]) -> Result<(), Fail> {
    for (text, streams, wanted) in cases {
        if read(alloc, text.as_bytes(), *streams)?.as_str() != *wanted {
            return Err(Fail::from(*text));
        }
    }
    Ok(())
}

#[test]
fn reads_stimuli(rt: HostRuntime) -> Result<(), Fail> {
    read_all(rt.alloc(), CASES)
}

/// A text that would be a stimulus but for one byte.
const NO_UTF8: &[u8] =
    b"{\"streams\":[{\"initial\":\"01\",\"steps\":[{\"x\":\"10\",\"y\":\"1\",\"\xff\":\"\"}]}]}";

#[test]
fn other_bytes_are_no_json(rt: HostRuntime) -> Result<(), Fail> {
    let found = read(rt.alloc(), NO_UTF8, None)?;
    assert!(rt; found.as_str() == "Json 0 0");
    Ok(())
}
