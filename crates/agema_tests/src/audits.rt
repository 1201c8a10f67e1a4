//! Audits of networks that are written as tables: each single change is refused, with the first wire that breaks a rule.

use crate::command::{NO_FAULTS, Outcome, left_nothing, run_over};
use crate::networks::{PAIR, PAIR_PORTS, TRIPLE, TRIPLE_PORTS};
use std::alloc::{AllocError, Global};
use std::test::Fail;

/// Parts of the gadgets of the pair with another source, and the wire that is refused.
const PARTS: [(&str, &str, &str); 49] = [
    ("agm_g0.clk", "agm_load", "agm_g0.clk"),
    ("agm_g0.clk", "1'b1", "agm_g0.clk"),
    ("agm_g0.a[0]", "agm_d1.3", "agm_g0.a[0]"),
    ("agm_g0.a[0]", "! agm_d0.3", "agm_g0.a[0]"),
    ("agm_g0.a[1]", "agm_g0.vx_1_0", "agm_g0.a[1]"),
    ("agm_g0.b[1]", "agm_s0_b", "agm_g0.b[1]"),
    ("agm_g0.b[0]", "agm_s0_b @ agm_clk", "agm_g0.b[0]"),
    ("agm_g0.b[0]", "agm_r[0]", "agm_r[0]"),
    ("agm_g0.r[0]", "agm_r[1]", "agm_r[1]"),
    ("agm_g0.r[0]", "agm_load", "agm_r[0]"),
    ("agm_g0.r[0]", "! agm_r[0]", "agm_g0.r[0]"),
    ("agm_g0.rr_0_1", "agm_g0.r[0]", "agm_g0.rr_0_1"),
    ("agm_g0.rr_0_1", "agm_r[0] @ agm_g0.clk", "agm_r[0]"),
    ("agm_g0.rr_0_1", "agm_g1.r[0] @ agm_g0.clk", "agm_g0.rr_0_1"),
    ("agm_g0.bb_0", "agm_g0.b[0]", "agm_g0.bb_0"),
    ("agm_g0.bb_0", "agm_g0.b[1] @ agm_g0.clk", "agm_g0.bb_0"),
    ("agm_g0.bb_1", "agm_g0.a[1] @ agm_g0.clk", "agm_g0.bb_1"),
    ("agm_g0.na_0", "agm_g0.a[0]", "agm_g0.na_0"),
    ("agm_g0.na_1", "! agm_g0.a[0]", "agm_g0.na_1"),
    ("agm_g0.mx_0", "agm_g0.bb_0 & agm_g0.a[0]", "agm_g0.mx_0"),
    ("agm_g0.mx_0", "agm_g0.a[0] & agm_g0.b[0]", "agm_g0.mx_0"),
    ("agm_g0.mx_1", "agm_g0.a[1] | agm_g0.bb_1", "agm_g0.mx_1"),
    ("agm_g0.m_0", "agm_g0.mx_0", "agm_g0.m_0"),
    ("agm_g0.m_1", "agm_g0.mx_0 @ agm_g0.clk", "agm_g0.m_1"),
    (
        "agm_g0.vx_0_1",
        "agm_g0.b[0] ^ agm_g0.r[0]",
        "agm_g0.vx_0_1",
    ),
    (
        "agm_g0.vx_0_1",
        "agm_g0.r[0] ^ agm_g0.b[1]",
        "agm_g0.vx_0_1",
    ),
    ("agm_g0.vx_0_1", "agm_g0.b[1]", "agm_g0.vx_0_1"),
    (
        "agm_g0.vx_0_1",
        "agm_g0.b[1] & agm_g0.r[0]",
        "agm_g0.vx_0_1",
    ),
    (
        "agm_g0.vx_1_0",
        "agm_g0.b[0] ^ agm_g0.rr_0_1",
        "agm_g0.vx_1_0",
    ),
    (
        "agm_g0.vx_1_0",
        "agm_g0.b[0] ^ agm_g1.r[0]",
        "agm_g0.vx_1_0",
    ),
    ("agm_g0.v_0_1", "agm_g0.vx_0_1", "agm_g0.v_0_1"),
    ("agm_g0.v_0_1", "agm_g0.b[1] @ agm_g0.clk", "agm_g0.v_0_1"),
    ("agm_g0.v_1_0", "agm_g0.vx_0_1 @ agm_g0.clk", "agm_g0.v_1_0"),
    (
        "agm_g0.ux_0_1",
        "agm_g0.a[0] & agm_g0.rr_0_1",
        "agm_g0.ux_0_1",
    ),
    (
        "agm_g0.ux_0_1",
        "agm_g0.na_0 & agm_g0.r[0]",
        "agm_g0.ux_0_1",
    ),
    (
        "agm_g0.ux_1_0",
        "agm_g0.na_0 & agm_g0.rr_0_1",
        "agm_g0.ux_1_0",
    ),
    ("agm_g0.u_0_1", "agm_g0.ux_0_1", "agm_g0.u_0_1"),
    ("agm_g0.u_1_0", "agm_g0.ux_0_1 @ agm_g0.clk", "agm_g0.u_1_0"),
    (
        "agm_g0.wx_0_1",
        "agm_g0.a[0] & agm_g0.vx_0_1",
        "agm_g0.wx_0_1",
    ),
    (
        "agm_g0.wx_0_1",
        "agm_g0.a[0] & agm_g0.v_1_0",
        "agm_g0.wx_0_1",
    ),
    (
        "agm_g0.wx_1_0",
        "agm_g0.a[0] & agm_g0.v_1_0",
        "agm_g0.wx_1_0",
    ),
    ("agm_g0.w_0_1", "agm_g0.wx_0_1", "agm_g0.w_0_1"),
    ("agm_g0.w_1_0", "agm_g0.ux_1_0 @ agm_g0.clk", "agm_g0.w_1_0"),
    ("agm_g0.s_0_1", "agm_g0.u_0_1 ^ agm_g0.m_0", "agm_g0.s_0_1"),
    ("agm_g0.s_0_1", "agm_g0.m_0 ^ agm_g0.w_0_1", "agm_g0.s_0_1"),
    ("agm_g0.s_1_1", "agm_g0.m_1 | agm_g0.u_1_0", "agm_g0.s_1_1"),
    ("agm_g0.c[0]", "agm_g0.s_0_1 ^ agm_g0.w_1_0", "agm_g0.c[0]"),
    ("agm_g0.c[1]", "agm_g0.s_1_1", "agm_g0.c[1]"),
    ("agm_g1.c[1]", "agm_g0.s_1_1 ^ agm_g1.w_1_0", "agm_g1.c[1]"),
];

/// Random bits, clocks, public wires and wires of shares with another source.
const WIRES: [(&str, &str, &str); 25] = [
    ("agm_g1.r[0]", "agm_r[0]", "agm_r[1]"),
    ("agm_d0.5", "agm_r[0]", "agm_r[0]"),
    ("agm_p.1", "agm_r[1] @ agm_clk", "agm_r[1]"),
    ("agm_d1.2", "agm_d1.1 ^ agm_g1.r[0]", "agm_d1.2"),
    ("agm_p.1", "agm_load @ agm_g0.clk", "agm_p.1"),
    ("agm_d0.1", "agm_s0_a @ agm_load", "agm_d0.1"),
    ("agm_d1.1", "agm_s1_a @ agm_r[0]", "agm_r[0]"),
    ("agm_g0.m_0", "agm_g0.mx_0 @ agm_g1.clk", "agm_g0.m_0"),
    ("agm_g0.v_0_1", "agm_g0.vx_0_1 @ agm_s0_a", "agm_g0.v_0_1"),
    ("agm_g0.w_0_1", "agm_g0.wx_0_1 @ agm_p.2", "agm_g0.w_0_1"),
    ("agm_g1.bb_1", "agm_g1.b[1] @ agm_g1.b[1]", "agm_g1.bb_1"),
    ("agm_p.1", "agm_s0_a", "agm_p.1"),
    ("agm_p.2", "agm_p.1 & agm_g0.v_0_1", "agm_p.2"),
    ("z", "agm_d0.4", "z"),
    ("z", "agm_clk", "z"),
    ("z", "agm_g1.clk", "z"),
    ("agm_d0.1", "agm_s1_a @ agm_clk", "agm_d0.1"),
    ("agm_d0.2", "agm_d0.1 ^ agm_d1.1", "agm_d0.2"),
    ("agm_d1.3", "agm_d1.2 & agm_g0.v_1_0", "agm_d1.3"),
    ("agm_d0.4", "agm_g0.c[1]", "agm_d0.4"),
    ("agm_d0.4", "agm_g0.wx_0_1", "agm_d0.4"),
    ("agm_d1.5", "agm_g1.rr_0_1", "agm_d1.5"),
    ("agm_d0.5", "agm_g1.clk", "agm_d0.5"),
    ("agm_s0_y", "agm_d1.5", "agm_s0_y"),
    ("agm_s1_y", "agm_clk", "agm_s1_y"),
];

/// The same of parts in three shares.
const TERMS: [(&str, &str, &str); 11] = [
    ("agm_g0.r[1]", "agm_r[0]", "agm_r[1]"),
    (
        "agm_g0.vx_0_2",
        "agm_g0.b[2] ^ agm_g0.r[0]",
        "agm_g0.vx_0_2",
    ),
    (
        "agm_g0.vx_2_1",
        "agm_g0.b[1] ^ agm_g0.r[1]",
        "agm_g0.vx_2_1",
    ),
    (
        "agm_g0.ux_2_0",
        "agm_g0.na_2 & agm_g0.rr_0_1",
        "agm_g0.ux_2_0",
    ),
    (
        "agm_g0.s_0_2",
        "agm_g0.s_0_1 ^ agm_g0.u_0_1",
        "agm_g0.s_0_2",
    ),
    (
        "agm_g0.s_1_2",
        "agm_g0.s_1_1 ^ agm_g0.w_1_2",
        "agm_g0.s_1_2",
    ),
    (
        "agm_g0.s_1_3",
        "agm_g0.s_1_1 ^ agm_g0.u_1_2",
        "agm_g0.s_1_3",
    ),
    ("agm_g0.s_2_1", "agm_g0.m_2 ^ agm_g0.u_2_1", "agm_g0.s_2_1"),
    ("agm_g0.c[2]", "agm_g0.s_2_2 ^ agm_g0.w_2_1", "agm_g0.c[2]"),
    ("agm_s2_y", "agm_g0.c[1]", "agm_s2_y"),
    ("agm_g0.a[2]", "agm_s1_a", "agm_g0.a[2]"),
];

/// Other sources with which the pair is still a network.
const STILL: [(&str, &str); 6] = [
    ("agm_g0.m_0", "agm_g0.mx_0 @ agm_clk"),
    ("agm_g1.b[0]", "agm_p.1"),
    ("agm_d0.2", "agm_d0.1 ^ agm_p.2"),
    ("agm_d1.2", "agm_d1.1 @ agm_clk"),
    ("agm_s0_y", "agm_g1.c[0]"),
    ("z", "1'b0"),
];

/// What names of the pair begin with, what they begin with instead, and the wire that is refused.
const RENAMED: [(&str, &str, &str); 20] = [
    ("agm_d0.1", "agm_d2.1", "agm_d2.1"),
    ("agm_d0.1", "agm_d00.1", "agm_d00.1"),
    ("agm_d0.1", "agm_d1.x", "agm_d1.x"),
    ("agm_d0.1", "agm_p.x", "agm_p.x"),
    ("agm_p.1", "agm_d0.p", "agm_p.2"),
    ("agm_p.2", "agm_d0.p", "z"),
    ("agm_p.1", "agm_x.1", "agm_x.1"),
    ("agm_p.1", "x", "x"),
    ("agm_g0.", "agm_g00.", "agm_r[0]"),
    ("agm_g1.", "agm_g2.", "agm_g2.clk"),
    ("agm_g0.", "agm_g5.", "agm_g1.clk"),
    ("agm_g1.", "agm_g4294967295.", "agm_g4294967295.clk"),
    ("agm_g1.", "agm_g4294967296.", "agm_r[1]"),
    ("agm_g0.m_0", "agm_g0.m_2", "agm_g0.clk"),
    ("agm_g0.m_0", "agm_p.m", "agm_g0.clk"),
    ("agm_g1.s_1_1", "agm_d1.s", "agm_g1.clk"),
    ("agm_g0.clk", "agm_g0.cl", "agm_g0.cl"),
    ("agm_g0.r[0]", "agm_g0.r[1]", "agm_r[0]"),
    ("agm_g0.a[0]", "agm_g0.a[00]", "agm_g0.clk"),
    ("agm_g0.rr_0_1", "agm_g0.rr_1_0", "agm_g0.clk"),
];

/// Ports of the pair in place of its own, and the wire that is refused.
const PORTS: [(&str, &str); 5] = [
    (
        "module m(agm_clk, agm_load, agm_r, agm_s0_a, agm_s1_a, agm_s0_b, agm_s1_b, agm_s0_y, agm_s1_y, z); (* AGEMA = \"clock\" *) input agm_clk; input agm_load; output [1:0] agm_r; assign agm_r = {2{agm_s0_a}}; input agm_s0_a, agm_s1_a, agm_s0_b, agm_s1_b; output agm_s0_y, agm_s1_y, z;",
        "agm_r[1]",
    ),
    (
        "module m(agm_clk, agm_load, agm_r, agm_s0_a, agm_s1_a, agm_s0_b, agm_s1_b, agm_s0_y, agm_s1_y, z); input agm_clk; input agm_load; input [1:0] agm_r; input agm_s0_a, agm_s1_a, agm_s0_b, agm_s1_b; output agm_s0_y, agm_s1_y, z;",
        "agm_clk",
    ),
    (
        "module m(agm_clk, agm_load, agm_r, agm_s0_a, agm_s1_a, agm_s0_b, agm_s1_b, agm_s0_y, agm_s1_y, z); input agm_clk; (* AGEMA = \"clock\" *) input agm_load; input [1:0] agm_r; input agm_s0_a, agm_s1_a, agm_s0_b, agm_s1_b; output agm_s0_y, agm_s1_y, z;",
        "agm_clk",
    ),
    (
        "module m(agm_clk, agm_load, agm_r, agm_s0_a, agm_s1_a, agm_s0_b, agm_s1_b, agm_s0_y, agm_s1_y, z, agm_s2_b); (* AGEMA = \"clock\" *) input agm_clk; input agm_load; input [1:0] agm_r; input agm_s0_a, agm_s1_a, agm_s0_b, agm_s1_b, agm_s2_b; output agm_s0_y, agm_s1_y, z;",
        "agm_s2_b",
    ),
    (
        "module m(agm_clk, agm_load, agm_r, agm_s0_a, agm_s1_a, agm_s0_b, agm_s1_b, agm_s0_y, agm_s1_y, z); (* AGEMA = \"clock\" *) input agm_clk; input agm_load; input [2:0] agm_r; input agm_s0_a, agm_s1_a, agm_s0_b, agm_s1_b; output agm_s0_y, agm_s1_y, z;",
        "agm_r[2]",
    ),
];

/// Netlists that give no net without a loop over the known cells, and what is told of each.
const NO_NETS: [(&str, &str); 8] = [
    ("", "status 12 NetSyntax at=0\n"),
    ("module t(a); input a;", "status 12 NetSyntax at=21\n"),
    (
        "module m(a, y); input a; output y; INV u (.A(a), .Y(y)); endmodule",
        "status 14 UnknownCell instance=u cell=INV\n",
    ),
    (
        "module m(a, y); input a; output y; assign y = x; endmodule",
        "status 16 UnknownWire name=x\n",
    ),
    (
        "module m(y); output y; wire x; assign y = x; endmodule",
        "status 17 Driven wire=x drivers=0\n",
    ),
    (
        "module m(agm_s0_a, agm_s0_y); input agm_s0_a; output agm_s0_y; wire \\agm_d0.x ; assign \\agm_d0.x = \\agm_d0.x ; assign agm_s0_y = agm_s1_a; endmodule",
        "status 16 UnknownWire name=agm_s1_a\n",
    ),
    (
        "module m(agm_s0_y); output agm_s0_y; wire x; AGM_NOT u (.A(agm_s0_y), .Y(x)); AGM_NOT v (.A(x), .Y(agm_s0_y)); endmodule",
        "status 20 Loop wires=x,agm_s0_y\n",
    ),
    (
        "module m(agm_clk, agm_s0_y); input agm_clk; output agm_s0_y; AGM_DFF u (.C(agm_clk), .D(agm_s0_y), .Q(agm_s0_y)); endmodule",
        "status 27 NotHpc2 wire=agm_clk\n",
    ),
];

/// The wires of a network that are no inputs, each with what gives it its bit.
pub(crate) type Rows<'a> = &'a [(&'a str, &'a str)];

/// A change: this wire has this source, and names that begin so begin otherwise.
#[derive(Clone, Copy)]
pub(crate) struct Change<'a> {
    wire: &'a str,
    source: &'a str,
    front: &'a str,
    instead: &'a str,
}

pub(crate) const NONE: Change<'static> = Change {
    wire: "",
    source: "",
    front: "",
    instead: "",
};

// A name as a netlist has it, after a change: escaped where it has a dot.
fn written(alloc: Global, name: &str, change: Change<'_>) -> Result<String, AllocError> {
    let front = change.front;
    let instead = change.instead;
    let name = match name.strip_prefix(front) {
        Some(rest) => format!(in alloc; "{instead}{rest}")?,
        None => String::from_str(alloc, name)?,
    };
    if name.as_str().contains('.') {
        format!(in alloc; "\\{name} ")
    } else {
        Ok(name)
    }
}

// The cell of an operator.
fn cell_of(operator: &str) -> &'static str {
    match operator {
        "&" => "AGM_AND2",
        "|" => "AGM_OR2",
        _ => "AGM_XOR2",
    }
}

// The item of a netlist that gives a wire its bit.
fn item(
    alloc: Global,
    row: (&str, &str),
    number: usize,
    change: Change<'_>,
) -> Result<String, AllocError> {
    let y = written(alloc, row.0, change)?;
    let mut words = row.1.split_whitespace();
    let first = words.next().unwrap_or("");
    let middle = words.next().unwrap_or("");
    let last = words.next().unwrap_or("");
    if first == "!" {
        let a = written(alloc, middle, change)?;
        return format!(in alloc; "AGM_NOT i{number} (.A({a}), .Y({y}));");
    }
    let a = written(alloc, first, change)?;
    let b = written(alloc, last, change)?;
    match middle {
        "" => format!(in alloc; "assign {y} = {a};"),
        "@" => format!(in alloc; "AGM_DFF i{number} (.C({b}), .D({a}), .Q({y}));"),
        _ => {
            let cell = cell_of(middle);
            format!(in alloc; "{cell} i{number} (.A({a}), .B({b}), .Y({y}));")
        }
    }
}

// The source of a wire after a change.
fn source_of<'a>(row: (&'a str, &'a str), change: Change<'a>) -> &'a str {
    if row.0 == change.wire {
        change.source
    } else {
        row.1
    }
}

// Declares the wires that are no ports.
fn declare(
    alloc: Global,
    text: &mut String,
    rows: Rows<'_>,
    change: Change<'_>,
) -> Result<(), AllocError> {
    for row in rows {
        if row.0.contains('.') {
            let name = written(alloc, row.0, change)?;
            text.push_str(format!(in alloc; "wire {name};\n")?.as_str())?;
        }
    }
    Ok(())
}

/// The netlist of a network after a change.
pub(crate) fn netlist(
    alloc: Global,
    ports: &str,
    rows: Rows<'_>,
    change: Change<'_>,
) -> Result<String, AllocError> {
    let mut text = format!(in alloc; "{ports}\n")?;
    declare(alloc, &mut text, rows, change)?;
    for (number, row) in rows.iter().enumerate() {
        let source = source_of(*row, change);
        text.push_str(item(alloc, (row.0, source), number, change)?.as_str())?;
        text.push_str("\n")?;
    }
    text.push_str("endmodule\n")?;
    Ok(text)
}

// The audit of a network after a change.
fn audit(
    alloc: Global,
    order: u32,
    ports: &str,
    rows: Rows<'_>,
    change: Change<'_>,
) -> Result<Outcome, Fail> {
    let text = netlist(alloc, ports, rows, change)?;
    let line = format!(in alloc; "audit n.v {order}")?;
    run_over(alloc, text.as_str(), line.as_str(), NO_FAULTS)
}

// Whether a network is told so.
fn passes(found: &Outcome, printed: &str) -> bool {
    found.end.as_str() == "status 0 Done\n" && found.line.as_str() == printed
}

// Whether a wire is told as the first that breaks a rule, and nothing is printed.
fn refuses(alloc: Global, found: &Outcome, wire: &str) -> Result<bool, AllocError> {
    let end = format!(in alloc; "status 27 NotHpc2 wire={wire}\n")?;
    Ok(found.end.as_str() == end.as_str() && found.line.is_empty())
}

// Fails at the first change of a source after which the wire isn't refused.
fn refuse_sources(
    alloc: Global,
    order: u32,
    ports: &str,
    rows: Rows<'_>,
    changes: &[(&str, &str, &str)],
) -> Result<(), Fail> {
    for (wire, source, refused) in changes {
        let change = Change {
            wire,
            source,
            front: "",
            instead: "",
        };
        let found = audit(alloc, order, ports, rows, change)?;
        if !refuses(alloc, &found, refused)? {
            return Err(Fail::from(format!(in alloc; "{wire} = {source}: {}", found.end)?));
        }
    }
    Ok(())
}

// Fails at the first change of a name after which the wire isn't refused.
fn refuse_names(alloc: Global, changes: &[(&str, &str, &str)]) -> Result<(), Fail> {
    for (front, instead, refused) in changes {
        let change = Change {
            wire: "",
            source: "",
            front,
            instead,
        };
        let found = audit(alloc, 1, PAIR_PORTS, &PAIR, change)?;
        if !refuses(alloc, &found, refused)? {
            return Err(Fail::from(*instead));
        }
    }
    Ok(())
}

// Fails at the first ports with which the wire isn't refused.
fn refuse_ports(alloc: Global, changes: &[(&str, &str)]) -> Result<(), Fail> {
    for (ports, refused) in changes {
        let found = audit(alloc, 1, ports, &PAIR, NONE)?;
        if !refuses(alloc, &found, refused)? {
            return Err(Fail::from(*ports));
        }
    }
    Ok(())
}

// Fails at the first change of a source after which the pair is no network.
fn pass_sources(alloc: Global, changes: &[(&str, &str)]) -> Result<(), Fail> {
    for (wire, source) in changes {
        let change = Change {
            wire,
            source,
            front: "",
            instead: "",
        };
        let found = audit(alloc, 1, PAIR_PORTS, &PAIR, change)?;
        if !passes(&found, "hpc2 order 1 gadgets 2 random 2\n") {
            return Err(Fail::from(*source));
        }
    }
    Ok(())
}

// Fails at the first netlist that isn't refused so.
fn refuse_nets(alloc: Global, cases: &[(&str, &str)]) -> Result<(), Fail> {
    for (text, end) in cases {
        let found = run_over(alloc, text, "audit n.v 1", NO_FAULTS)?;
        if !left_nothing(&found, end) {
            return Err(Fail::from(found.end));
        }
    }
    Ok(())
}

// The pair with its wires in the opposite order.
fn backwards(alloc: Global) -> Result<Outcome, Fail> {
    let mut rows = Vec::from_slice(alloc, &PAIR)?;
    rows.reverse();
    audit(alloc, 1, PAIR_PORTS, rows.as_slice(), NONE)
}

#[test]
fn passes_networks(rt: HostRuntime) -> Result<(), Fail> {
    let alloc = rt.alloc();
    let pair = audit(alloc, 1, PAIR_PORTS, &PAIR, NONE)?;
    assert!(rt; passes(&pair, "hpc2 order 1 gadgets 2 random 2\n"));
    let triple = audit(alloc, 2, TRIPLE_PORTS, &TRIPLE, NONE)?;
    assert!(rt; passes(&triple, "hpc2 order 2 gadgets 1 random 3\n"));
    assert!(rt; passes(&backwards(alloc)?, "hpc2 order 1 gadgets 2 random 2\n"));
    pass_sources(alloc, &STILL)
}

#[test]
fn refuses_other_orders(rt: HostRuntime) -> Result<(), Fail> {
    let alloc = rt.alloc();
    let pair = audit(alloc, 2, PAIR_PORTS, &PAIR, NONE)?;
    assert!(rt; refuses(alloc, &pair, "agm_g0.clk")?);
    let triple = audit(alloc, 1, TRIPLE_PORTS, &TRIPLE, NONE)?;
    assert!(rt; refuses(alloc, &triple, "agm_r[2]")?);
    Ok(())
}

#[test]
fn refuses_single_changes(rt: HostRuntime) -> Result<(), Fail> {
    refuse_sources(rt.alloc(), 1, PAIR_PORTS, &PAIR, &PARTS)?;
    refuse_sources(rt.alloc(), 1, PAIR_PORTS, &PAIR, &WIRES)?;
    refuse_sources(rt.alloc(), 2, TRIPLE_PORTS, &TRIPLE, &TERMS)?;
    refuse_names(rt.alloc(), &RENAMED)?;
    refuse_ports(rt.alloc(), &PORTS)?;
    refuse_nets(rt.alloc(), &NO_NETS)
}
