//! A design with hierarchy and its flat form, run by a plain evaluator for all values of their inputs.

use crate::designs::design_of;
use agm_net::Net;
use cell_library::Library;
use net_binding::bind;
use std::alloc::{AllocError, Global};
use std::test::Fail;
use test_netlists::evaluator::Evaluator;
use test_netlists::runs::{HALVES, HALVES_FLAT};

fn net_of(alloc: Global, netlist: &str) -> Result<Net, Fail> {
    let design = design_of(alloc, netlist)?;
    let library = Library::empty(alloc);
    let bound = bind(alloc, &library, &design);
    match bound {
        Ok(net) => Ok(net),
        Err(_) => Err(Fail::from("no net")),
    }
}

// The bits of all ports in a cycle with these inputs.
fn port_bits(alloc: Global, net: &Net, inputs: &[bool]) -> Result<Vec<bool>, AllocError> {
    let mut run = Evaluator::new(alloc, net, &[])?;
    run.step(net, inputs);
    let mut bits = Vec::new(alloc);
    for port in net.ports.as_slice() {
        for wire in port.bits.as_slice() {
            bits.push(run.bit(*wire))?;
        }
    }
    Ok(bits)
}

fn inputs_of(number: u8) -> [bool; 4] {
    [
        number & 8 != 0,
        number & 4 != 0,
        number & 2 != 0,
        number & 1 != 0,
    ]
}

#[test]
fn forms_of_one_design_have_one_function(rt: HostRuntime) -> Result<(), Fail> {
    let deep = net_of(rt.alloc(), HALVES)?;
    let flat = net_of(rt.alloc(), HALVES_FLAT)?;
    for number in 0..16u8 {
        let inputs = inputs_of(number);
        let bits = port_bits(rt.alloc(), &deep, &inputs)?;
        assert_eq!(rt; bits.len(), 12);
        assert_eq!(rt;
            bits.as_slice(),
            port_bits(rt.alloc(), &flat, &inputs)?.as_slice()
        );
    }
    Ok(())
}
