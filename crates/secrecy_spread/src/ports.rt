//! Which ports are shared, and which leak.

ghost use Rattle.std.specs.Prelude.{◌≡◌, ◌<◌, ℕ, Bool, false, true, Some, All, IfOk, MatchOption, IsTrue, length, map, slice_get};
ghost use Rattle.std.specs.List.{AllByRecursion, list_any, zip};
ghost use Rattle.agm_net.specs.declared.port.Port.{Port};
ghost use Rattle.agm_net.specs.declared.mark.Mark.{Mark};
ghost use Rattle.logic_graph.specs.Settled.{bit_of};
ghost use Rattle.secrecy_spread.specs.Wires as spec;

use agm_bits::{List, Memory};
use agm_net::{Mark, Port, Way};
use std::alloc::Global;

// Whether one of some wires is secret.
fn is_any_secret(wires: &[usize], secret: &[bool]) -> bool
    requires { All (λ w. w < length secret.now) wires.now }
    ensures { result ≡ list_any (bit_of secret.now) wires.now }
{
    for wire in wires {
        if secret[*wire] {
            return true;
        }
    }
    false
}

// Whether a port is shared: it is marked secure, or is an output with a secret bit.
fn is_shared(port: &Port, mark: Mark, secret: &[bool]) -> bool
    requires { All (λ w. w < length secret.now) port.now.bits }
    ensures { result ≡ spec.is_shared secret.now port.now mark }
{
    mark == Mark::Secure || (port.way == Way::Output && is_any_secret(port.bits.as_slice(), secret))
}

// Whether a port is an output that is marked public and has a secret bit.
fn is_leak(port: &Port, mark: Mark, secret: &[bool]) -> bool
    requires { All (λ w. w < length secret.now) port.now.bits }
    ensures { result ≡ spec.is_leak secret.now port.now mark }
{
    mark == Mark::Public && (port.way == Way::Output && is_any_secret(port.bits.as_slice(), secret))
}

/// One flag for each port: whether it is shared.
///
/// # Errors
///
/// `Memory` where memory runs out.
pub(crate) fn shared_ports(
    alloc: Global,
    ports: &[Port],
    marks: &[Mark],
    secret: &[bool],
) -> Result<List<bool>, Memory>
    requires marked { length marks.now ≡ length ports.now }
    requires within { AllByRecursion (λ p. AllByRecursion (λ w. w < length secret.now) p.bits) ports.now }
    ensures { IfOk result (λ flags. flags ≡ map (λ e. spec.is_shared secret.now e.0 e.1) (zip ports.now marks.now)) }
{
    let mut flags = List::new(alloc);
    for (n, port) in ports.iter().enumerate() {
        flags.push(is_shared(port, marks[n], secret))?;
    }
    Ok(flags)
}

/// The first port that leaks.
pub(crate) fn first_leak(ports: &[Port], marks: &[Mark], secret: &[bool]) -> Option<usize>
    requires marked { length marks.now ≡ length ports.now }
    requires within { AllByRecursion (λ p. AllByRecursion (λ w. w < length secret.now) p.bits) ports.now }
    ensures { spec.IsFirst (spec.is_leak secret.now) ports.now marks.now result }
{
    for (n, port) in ports.iter().enumerate() {
        if is_leak(port, marks[n], secret) {
            return Some(n);
        }
    }
    None
}
