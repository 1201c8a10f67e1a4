//! The output ports of a masked net.

ghost use Rattle.std.specs.Prelude.{◌≡◌, ◌<◌, ◌≤◌, ◌+◌, ◌^◌, ℕ, cond, false, map, length, IfOk, OnOk};
ghost use Rattle.agm_net.specs.Plain.{is_input};
ghost use Rattle.agm_net.specs.View.{plain_of};
ghost use Rattle.share_wiring.specs.Recombine.{is_shared};
ghost use Rattle.share_wiring.specs.Shape.{header_of};
ghost use Rattle.pipeline_balance.specs.Apart.{HasNames, FitsLimits};
ghost use Rattle.pipeline_balance.specs.Chained.{AreSources};
ghost use Rattle.pipeline_balance.specs.Entered.{first_headers, entered_headers};
ghost use Rattle.pipeline_balance.specs.Leaving.{made_count, is_clock as is_clock_of, ports_of_width as ports_of_width_in, CanLeave, HasLeft};
ghost use Rattle.pipeline_balance.specs.LedOut.{AreOutputs, IsLedOut};

use crate::leaving::port_led;
use crate::names::{headers_are_apart, headers_are_made};
use crate::values::Value;
use agm_bits::Memory;
use agm_net::{Net, Port, Way};
use share_wiring::{Builder, Report};

// Whether a port is an input.
fn is_in(port: &Port) -> bool
    ensures { result ≡ is_input port.now }
{
    port.way == Way::Input
}

// Whether the port of a number is the clock's.
fn is_clock(clock: Option<usize>, number: usize) -> bool
    ensures { result ≡ is_clock_of clock number }
{
    match clock {
        Some(place) => place == number,
        None => false,
    }
}

// How many ports of so many bits stand for that many names: none where there is no bit.
fn ports_of_width(width: usize, names: usize) -> usize
    ensures count { result ≡ ports_of_width_in width names }
    ensures few { result ≤ names }
{
    if width == 0 { 0 } else { names }
}

// How many ports stand before those of the original, where there are so many shares.
fn first_count(report: &Report, shares: usize) -> usize
    requires { (report.now.order + 1 ≡ shares) × (shares ≤ 16) }
    ensures { result ≡ length (first_headers report.now) }
{
    let random = ports_of_width(report.random, 1);
    let publics = ports_of_width(report.public_registers, 1);
    let secrets = ports_of_width(report.secret_registers, shares);
    2 + random + publics + secrets
}

// How many ports stand for the port of a number: none for the clock.
fn ports_for(clock: Option<usize>, number: usize, shared: bool, shares: usize) -> usize
    ensures { result ≡ cond (is_clock_of clock number) 0 (made_count shares shared) }
{
    if is_clock(clock, number) {
        0
    } else if shared {
        shares
    } else {
        1
    }
}

// The place behind so many ports. Fails where it fits no `usize`, as a list of so many ports would.
fn after(place: usize, count: usize) -> Result<usize, Memory>
    ensures { IfOk result (λ next. (next ≡ place + count) × (place + count < 2 ^ 64)) }
{
    match place.checked_add(count) {
        Some(next) => Ok(next),
        None => Err(Memory),
    }
}

// Makes the ports that stand for a port where it is an output, with the values from a number on. Answers the number of the next one.
fn leave<const S: usize>(
    builder: &mut Builder,
    place: usize,
    at: usize,
    port: &Port,
    shared: bool,
    values: &[Value<S>],
) -> Result<usize, Memory>
    requires can { is_input port.now ≡ false → CanLeave S shared port.now values.now place at builder.old }
    requires values { AreSources S builder.old values.now }
    requires size { (2 ≤ S) × (S ≤ 16) }
    ensures { IfOk result (HasLeft S shared port.now values.now place at builder.old builder.new) }
{
    if is_in(port) {
        return Ok(at);
    }
    let next = at + port.bits.len();
    port_led(builder, place, port, shared, &values[at..next])?;
    Ok(next)
}

/// Makes the output ports of a masked net, each at its place in the order of the original's ports without the clock's: a shared one as a
/// port for each share, a public one under its own name. `values` has one value for each output bit of the original.
pub fn lead_out<const S: usize>(
    builder: &mut Builder,
    net: &Net,
    shared: &[bool],
    report: &Report,
    values: &[Value<S>],
) -> Result<(), Memory>
    requires names { HasNames (plain_of net.now) }
    requires limits { FitsLimits report.now }
    requires shares { report.now.order + 1 ≡ S }
    requires shared { shared.now ≡ map (λ p. is_shared report.now p.name) (plain_of net.now).ports }
    requires entered { map header_of builder.old.ports ≡ entered_headers (plain_of net.now) report.now }
    requires outputs { AreOutputs S (plain_of net.now) report.now values.now }
    requires values { AreSources S builder.old values.now }
    ensures { OnOk result (IsLedOut S (plain_of net.now) report.now values.now builder.old builder.new) }
{
    headers_are_apart();
    headers_are_made();
    let ports = net.ports.as_slice();
    let mut place = first_count(report, S);
    let mut at = 0;
    for k in 0..ports.len() {
        let port = &ports[k];
        let next = after(place, ports_for(net.clock, k, shared[k], S))?;
        at = leave(builder, place, at, port, shared[k], values)?;
        place = next;
    }
    let _clock = builder.clock();
    Ok(())
}
