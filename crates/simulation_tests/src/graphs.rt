//! Small nets, and their graphs by hand.

use crate::designs::{Cell, Design, net_of};
use agm_bits::List;
use agm_net::Net;
use logic_graph::{GraphFault, Node, order};
use std::alloc::Global;
use std::test::Fail;

// A graph, and how many operators it has.
struct Drawn<'d> {
    nodes: &'d [Node],
    sinks: &'d [usize],
    of_wire: &'d [usize],
    numbers: &'d [usize],
    operators: usize,
}

fn designed(alloc: Global, design: &Design) -> Result<Net, Fail> {
    net_of(alloc, design).map_err(|_| Fail::from("no net"))
}

const GRAPHS: &[(Design<'static>, Drawn<'static>)] = &[
    // Written from the last to the first, with a copy of a wire and operators within one equation.
    (
        Design {
            wires: 5,
            inputs: 2,
            outputs: &[2, 4],
            clock: None,
            equations: &[
                (2, Cell::NotOr(3, 1)),
                (3, Cell::Wire(4)),
                (4, Cell::And(0, 1)),
            ],
            registers: &[],
        },
        Drawn {
            nodes: &[
                Node::Zero,
                Node::One,
                Node::Input(0),
                Node::Input(1),
                Node::And(2, 3),
                Node::Not(4),
                Node::Or(5, 3),
            ],
            sinks: &[6, 4],
            of_wire: &[2, 3, 6, 4, 4],
            numbers: &[0, 0, 0, 0, 2, 0, 1],
            operators: 3,
        },
    ),
    // A clock, an enabled register and one that is fed by a register; an output straight from an input.
    (
        Design {
            wires: 6,
            inputs: 3,
            outputs: &[],
            clock: Some(0),
            equations: &[(5, Cell::One)],
            registers: &[(3, Cell::Mux(1, 3, 2)), (4, Cell::Wire(3))],
        },
        Drawn {
            nodes: &[
                Node::Zero,
                Node::One,
                Node::Input(0),
                Node::Input(1),
                Node::Q(0),
                Node::Q(1),
                Node::Mux {
                    select: 2,
                    low: 4,
                    high: 3,
                },
            ],
            sinks: &[6, 4],
            of_wire: &[0, 2, 3, 4, 5, 1],
            numbers: &[0, 0, 0, 0, 0, 0, 0],
            operators: 1,
        },
    ),
];

// A net with one loop, and its wires.
struct Looped<'d> {
    design: Design<'d>,
    wires: &'d [usize],
}

const LOOPS: &[Looped<'static>] = &[
    // A wire that reads itself, which nothing else reads.
    Looped {
        design: Design {
            wires: 3,
            inputs: 1,
            outputs: &[1],
            clock: None,
            equations: &[(1, Cell::Not(0)), (2, Cell::And(2, 0))],
            registers: &[],
        },
        wires: &[2],
    },
    // Three wires, of which an output is one; a wire that leads there is not among them.
    Looped {
        design: Design {
            wires: 6,
            inputs: 1,
            outputs: &[1],
            clock: None,
            equations: &[
                (5, Cell::Not(1)),
                (1, Cell::Mux(0, 0, 2)),
                (2, Cell::Wire(3)),
                (3, Cell::And(4, 1)),
                (4, Cell::Wire(0)),
            ],
            registers: &[],
        },
        wires: &[1, 2, 3],
    },
];

#[test]
fn graphs_are_drawn(rt: HostRuntime) -> Result<(), Fail> {
    for (design, drawn) in GRAPHS {
        let net = designed(rt.alloc(), design)?;
        let graph = order(rt.alloc(), &net).map_err(|_| Fail::from("no graph"))?;
        assert_eq!(rt; graph.nodes.as_slice(), drawn.nodes);
        assert_eq!(rt; graph.sinks.as_slice(), drawn.sinks);
        assert_eq!(rt; graph.of_wire.as_slice(), drawn.of_wire);
        assert_eq!(rt; graph.numbers.as_slice(), drawn.numbers);
        assert_eq!(rt; graph.operators(), drawn.operators);
    }
    Ok(())
}

// Whether these are the wires of a list, in any order.
fn are_wires(list: &[usize], wires: &[usize]) -> bool {
    list.len() == wires.len() && wires.iter().all(|wire| list.contains(wire))
}

// The wires of the loop that is found; none where there is a graph.
fn loop_of(alloc: Global, net: &Net) -> List<usize> {
    let ordered = order(alloc, net);
    match ordered {
        Err(GraphFault::Loop { wires }) => wires,
        Err(GraphFault::Memory) => List::new(alloc),
        Ok(_graph) => List::new(alloc),
    }
}

#[test]
fn loops_are_found(rt: HostRuntime) -> Result<(), Fail> {
    for looped in LOOPS {
        let net = designed(rt.alloc(), &looped.design)?;
        let found = loop_of(rt.alloc(), &net);
        assert!(rt; are_wires(found.as_slice(), looped.wires));
    }
    Ok(())
}
