//! Written netlists compute: OUT is run by `sim` at every order, for all values of the inputs and two sharings of each.

use crate::command::{NO_FAULTS, run_over, run_sim};
use std::alloc::{AllocError, Global};
use std::test::Fail;
use test_netlists::simple::{PRODUCT, SQUARE};

/// A netlist with the names of its inputs, and its output for each value of theirs.
struct Example {
    text: &'static str,
    inputs: &'static [&'static str],
    steps: &'static [(&'static str, bool)],
}

const EXAMPLES: [Example; 2] = [
    Example {
        text: PRODUCT,
        inputs: &["a", "b"],
        steps: &[("00", false), ("01", false), ("10", false), ("11", true)],
    },
    Example {
        text: SQUARE,
        inputs: &["x"],
        steps: &[("0", false), ("1", true)],
    },
];

fn step(example: &Example, k: u32) -> (&'static str, bool) {
    match example
        .steps
        .iter()
        .cycle()
        .nth(usize::try_from(k).unwrap_or(0))
    {
        Some(step) => *step,
        None => ("", false),
    }
}

fn digit(bit: bool) -> &'static str {
    if bit { "1" } else { "0" }
}

// Adds the shares of a secret bit. Of the first sharing all shares but the last are 0, of the second they alternate.
fn push_shares(
    alloc: Global,
    text: &mut String,
    order: u32,
    port: &str,
    secret: bool,
    is_second: bool,
) -> Result<(), AllocError> {
    let mut last = secret;
    for i in 0..order {
        let value = is_second && i % 2 == 0;
        let bit = digit(value);
        let member = format!(in alloc; ",\"agm_s{i}_{port}\":\"{bit}\"")?;
        text.push_str(member.as_str())?;
        last = last != value;
    }
    let bit = digit(last);
    let member = format!(in alloc; ",\"agm_s{order}_{port}\":\"{bit}\"")?;
    text.push_str(member.as_str())
}

// Random bits, of which every third is 1.
fn random_bits(alloc: Global, order: u32, cycle: u32) -> Result<String, AllocError> {
    let mut text = String::new(alloc);
    for k in 0..order.wrapping_mul(order.wrapping_add(1)) / 2 {
        text.push_str(digit(cycle.wrapping_add(k) % 3 == 0))?;
    }
    Ok(text)
}

// Adds a cycle: the load signal, random bits, and the shares of a step.
fn push_cycle(
    alloc: Global,
    text: &mut String,
    example: &Example,
    order: u32,
    cycle: u32,
    is_second: bool,
) -> Result<(), AllocError> {
    let load = digit(cycle < 3);
    let random = random_bits(alloc, order, cycle)?;
    let front = format!(in alloc; "{{\"agm_load\":\"{load}\",\"agm_r\":\"{random}\"")?;
    text.push_str(front.as_str())?;
    let (bits, _) = step(example, cycle);
    for (port, value) in example.inputs.iter().zip(bits.as_bytes()) {
        push_shares(alloc, text, order, port, *value == b'1', is_second)?;
    }
    text.push_str("}")
}

// A stimulus of eight cycles, in which all registers begin with 1.
fn stimulus_of(
    alloc: Global,
    example: &Example,
    net: &str,
    order: u32,
    is_second: bool,
) -> Result<String, AllocError> {
    let mut text = String::from_str(alloc, "{\"streams\":[{\"initial\":\"")?;
    for _ in net.matches("AGM_DFF ") {
        text.push_str("1")?;
    }
    text.push_str("\",\"steps\":[")?;
    for cycle in 0..8u32 {
        if cycle > 0 {
            text.push_str(",")?;
        }
        push_cycle(alloc, &mut text, example, order, cycle, is_second)?;
    }
    text.push_str("]}]}")?;
    Ok(text)
}

// What the shares in a printed line recombine to.
fn recombined(line: &str) -> bool {
    line.matches("=1").count() % 2 == 1
}

// Whether each step's output is right two cycles after its inputs. Cycle 0 loads, and each later cycle has the step of some stream.
fn is_right(example: &Example, printed: &str) -> bool {
    let mut cycle = 0u32;
    let mut right = printed.lines().count() == 8;
    for line in printed.lines() {
        if cycle > 2 {
            let (_, wanted) = step(example, cycle - 2);
            right = right && recombined(line) == wanted;
        }
        cycle = cycle.wrapping_add(1);
    }
    right
}

// Whether the netlist that was written for an example at an order is right for one of the sharings.
fn runs_right(
    alloc: Global,
    example: &Example,
    net: &str,
    order: u32,
    is_second: bool,
) -> Result<bool, Fail> {
    let stimulus = stimulus_of(alloc, example, net, order, is_second)?;
    let found = run_sim(alloc, "", net, stimulus.as_str(), "sim - n.v s.json")?;
    Ok(is_right(example, found.line.as_str()))
}

// Whether the netlist that is written for an example at an order is right.
fn computes(alloc: Global, example: &Example, order: u32) -> Result<bool, Fail> {
    let line = format!(in alloc; "mask - n.v {order} naive pipe o.v")?;
    let found = run_over(alloc, example.text, line.as_str(), NO_FAULTS)?;
    let net = found.net.as_str();
    Ok(
        runs_right(alloc, example, net, order, false)?
            && runs_right(alloc, example, net, order, true)?,
    )
}

/// One product with given shares: in cycle 0 a is (1, 0), b is (0, 1) and the random bit is 1. By hand, the shares of the product are
/// 0 and 0 ^ 1 two cycles later.
const SHARED_STEPS: &str =
    "\",\"steps\":[{\"agm_load\":\"1\",\"agm_r\":\"1\",\"agm_s0_a\":\"1\",\"agm_s1_a\":\"0\",\"agm_s0_b\":\"0\",\"agm_s1_b\":\"1\"},{\"agm_load\":\"0\",\"agm_r\":\"0\",\"agm_s0_a\":\"0\",\"agm_s1_a\":\"0\",\"agm_s0_b\":\"0\",\"agm_s1_b\":\"0\"},{\"agm_load\":\"0\",\"agm_r\":\"0\",\"agm_s0_a\":\"0\",\"agm_s1_a\":\"0\",\"agm_s0_b\":\"0\",\"agm_s1_b\":\"0\"}]}]}";

// Whether the shares of the product are those.
fn shares_by_hand(alloc: Global) -> Result<bool, Fail> {
    let masked = run_over(alloc, PRODUCT, "mask - n.v 1 naive pipe o.v", NO_FAULTS)?;
    let mut stimulus = String::from_str(alloc, "{\"streams\":[{\"initial\":\"")?;
    for _ in masked.net.as_str().matches("AGM_DFF ") {
        stimulus.push_str("0")?;
    }
    stimulus.push_str(SHARED_STEPS)?;
    let found = run_sim(
        alloc,
        "",
        masked.net.as_str(),
        stimulus.as_str(),
        "sim - n.v s.json",
    )?;
    Ok(
        found
            .line
            .as_str()
            .ends_with("stream 0 step 2 agm_s0_y=0 agm_s1_y=1\n"),
    )
}

#[test]
fn written_netlists_compute(rt: HostRuntime) -> Result<(), Fail> {
    for example in EXAMPLES.iter() {
        for order in 1..8u32 {
            assert!(rt;
                computes(rt.alloc(), example, order)?,
                "at {order}: {}",
                example.text
            );
        }
    }
    assert!(rt; shares_by_hand(rt.alloc())?);
    Ok(())
}
