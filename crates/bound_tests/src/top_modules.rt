//! Designs: their tops, what their modules say of ports, and clocks.

use crate::designs::design_of;
use agm_net::Way;
use std::alloc::{AllocError, Global};
use std::test::Fail;
use top_module::{Kind, MarkSet, PortFacts, TopFault, find_clock, find_top, port_facts};

/// A rule, a design that shows it, and the number of its top, or how many candidates there are.
const TOPS: [(&str, &str, Result<usize, usize>); 16] = [
    ("one module", "module a; endmodule", Ok(0)),
    (
        "a module that none instantiates",
        "module a; b u(); endmodule module b; endmodule",
        Ok(0),
    ),
    (
        "the same, in the other order",
        "module b; endmodule module a; b u(); endmodule",
        Ok(1),
    ),
    (
        "a marked module that is instantiated",
        "(* top *) module b; endmodule module a; b u(); endmodule",
        Ok(0),
    ),
    (
        "the attribute with a number",
        "module a; endmodule (* top = 0 *) module b; endmodule",
        Ok(1),
    ),
    (
        "the attribute with a text",
        "module a; endmodule (* top = \"no\" *) module b; endmodule",
        Ok(1),
    ),
    (
        "the attribute with a constant",
        "module a; endmodule (* top = 1'b0 *) module b; endmodule",
        Ok(1),
    ),
    (
        "the attribute among others, twice",
        "module a; endmodule (* keep, top *) (* top = 1 *) module b; endmodule",
        Ok(1),
    ),
    (
        "other attributes",
        "(* Top *) module a; endmodule (* topmost *) module b; a u(); endmodule",
        Ok(1),
    ),
    (
        "two marked modules, and one that none instantiates",
        "(* top *) module a; endmodule (* top *) module b; a u(); endmodule",
        Ok(1),
    ),
    (
        "two marked modules that none instantiates",
        "(* top *) module a; endmodule (* top *) module b; endmodule",
        Err(2),
    ),
    (
        "two modules that none instantiates",
        "module a; endmodule module b; endmodule module c; a u(); endmodule",
        Err(2),
    ),
    (
        "three modules that none instantiates",
        "module a; endmodule module b; x u(); endmodule module c; endmodule",
        Err(3),
    ),
    (
        "a module that instantiates itself",
        "module a; a u(); endmodule",
        Err(0),
    ),
    (
        "modules that instantiate one another",
        "module a; b u(); endmodule module b; a u(); endmodule",
        Err(0),
    ),
    (
        "a name twice",
        "module a; endmodule module a; endmodule",
        Err(2),
    ),
];

/// A rule, a module that shows it, and what is known of its ports: the way, the range and the marks.
const FACTS: [(&str, &str, &str); 14] = [
    (
        "marks of ports",
        "module m(a, y); (* AGEMA = \"secure\" *) input [3:0] a; output y; endmodule",
        " i[3:0]s o",
    ),
    (
        "a mark before a wire",
        "module m(a); input a; (* AGEMA = \"clock\" *) wire a; endmodule",
        " ic",
    ),
    (
        "a mark before the declaration, which stands behind a wire",
        "module m(a); (* AGEMA = \"public\" *) wire a; (* AGEMA = \"secure\" *) output a; endmodule",
        " osp",
    ),
    (
        "ANSI ports",
        "module m((* AGEMA = \"secure\" *) input a, b, output [1:0] y); endmodule",
        " is is o[1:0]",
    ),
    (
        "the first declaration with a way",
        "module m(a); wire [7:0] a; input [1:0] a; output a; endmodule",
        " i[1:0]",
    ),
    (
        "a port that is listed twice",
        "module m(a, b, a); (* AGEMA = \"public\" *) input a; output b; endmodule",
        " ip o ip",
    ),
    (
        "no declaration, and only a wire",
        "module m(a, b); (* AGEMA = \"secure\" *) wire b; endmodule",
        " - -s",
    ),
    (
        "no value",
        "module m(a); (* AGEMA *) input a; endmodule",
        " iu",
    ),
    (
        "a number",
        "module m(a); (* AGEMA = 1 *) input a; endmodule",
        " iu",
    ),
    (
        "a constant, and another text",
        "module m(a, b); (* AGEMA = 1'b1 *) input a; (* AGEMA = \"Clock\" *) input b; endmodule",
        " iu iu",
    ),
    (
        "each mark",
        "module m(a); (* AGEMA, AGEMA = \"clock\" *) (* AGEMA = \"public\", AGEMA = \"secure\" *) input a; endmodule",
        " ispcu",
    ),
    (
        "other attributes",
        "module m(a); (* agema = \"secure\", AGEMA_ = \"clock\", src = \"secure\" *) input a; endmodule",
        " i",
    ),
    (
        "attributes before other items",
        "module m(a); input a; (* AGEMA = \"secure\" *) assign a = a; (* AGEMA = \"clock\" *) a a(.a(a)); endmodule",
        " i",
    ),
    (
        "a name twice in a declaration",
        "module m(a, b); (* AGEMA = \"secure\" *) input a, a, b; endmodule",
        " is is",
    ),
];

/// A rule, a module that shows it, and its clock.
const CLOCKS: [(&str, &str, Option<usize>); 10] = [
    (
        "none",
        "module m(a); (* AGEMA = \"secure\" *) input a; endmodule",
        None,
    ),
    (
        "one",
        "module m(a, c); input a; (* AGEMA = \"clock\" *) input c; endmodule",
        Some(1),
    ),
    (
        "two, of which the first in the list is it",
        "module m(b, a); (* AGEMA = \"clock\" *) input a; (* AGEMA = \"clock\" *) input b; endmodule",
        Some(0),
    ),
    (
        "an output",
        "module m(a, c); (* AGEMA = \"clock\" *) output a; (* AGEMA = \"clock\" *) input c; endmodule",
        Some(1),
    ),
    (
        "a range",
        "module m(a, c); (* AGEMA = \"clock\" *) input [0:0] a; (* AGEMA = \"clock\" *) input c; endmodule",
        Some(1),
    ),
    (
        "a mark before a wire",
        "module m(a, c); input a, c; (* AGEMA = \"clock\" *) wire c; endmodule",
        Some(1),
    ),
    (
        "a mark before a wire alone",
        "module m(c); (* AGEMA = \"clock\" *) wire c; endmodule",
        None,
    ),
    (
        "with other marks",
        "module m(c); (* AGEMA = \"public\", AGEMA = \"clock\", AGEMA *) input c; endmodule",
        Some(0),
    ),
    (
        "by the first declaration with a way",
        "module m(c, d); input [1:0] c; (* AGEMA = \"clock\" *) input c, d; endmodule",
        Some(1),
    ),
    (
        "other names",
        "module m(c); input c; (* AGEMA = \"clock\" *) input d; endmodule",
        None,
    ),
];

// Fails at the first design with another top.
fn find_tops(alloc: Global, cases: &[(&str, &str, Result<usize, usize>)]) -> Result<(), Fail> {
    for (rule, text, wanted) in cases {
        let design = design_of(alloc, text)?;
        let found = match find_top(alloc, &design) {
            Ok(number) => Ok(number),
            Err(TopFault::Candidates(number)) => Err(number),
            Err(TopFault::Memory) => return Err(Fail::from("memory")),
        };
        if found != *wanted {
            return Err(Fail::from(*rule));
        }
    }
    Ok(())
}

#[test]
fn designs_have_tops(rt: HostRuntime) -> Result<(), Fail> {
    find_tops(rt.alloc(), &TOPS)
}

fn push_kind(text: &mut String, alloc: Global, kind: Option<Kind>) -> Result<(), AllocError> {
    let Some(kind) = kind else {
        return text.push('-');
    };
    match kind.way {
        Way::Input => text.push('i')?,
        Way::Output => text.push('o')?,
    }
    match kind.range {
        Some(range) => {
            let (msb, lsb) = (range.msb, range.lsb);
            let range = format!(in alloc; "[{msb}:{lsb}]")?;
            text.push_str(range.as_str())
        }
        None => Ok(()),
    }
}

fn push_marks(text: &mut String, marks: MarkSet) -> Result<(), AllocError> {
    for (is_there, letter) in [
        (marks.secure, 's'),
        (marks.public, 'p'),
        (marks.clock, 'c'),
        (marks.unknown, 'u'),
    ] {
        if is_there {
            text.push(letter)?;
        }
    }
    Ok(())
}

fn facts_text(alloc: Global, facts: &[PortFacts]) -> Result<String, AllocError> {
    let mut text = String::new(alloc);
    for port in facts {
        text.push(' ')?;
        push_kind(&mut text, alloc, port.kind)?;
        push_marks(&mut text, port.marks)?;
    }
    Ok(text)
}

// Fails at the first design whose first module says something else of its ports.
fn find_facts(alloc: Global, cases: &[(&str, &str, &str)]) -> Result<(), Fail> {
    for (rule, text, wanted) in cases {
        let design = design_of(alloc, text)?;
        let Some(unit) = design.modules.as_slice().get(0) else {
            return Err(Fail::from(*rule));
        };
        let facts = port_facts(alloc, unit)?;
        if facts_text(alloc, facts.as_slice())?.as_str() != *wanted {
            return Err(Fail::from(*rule));
        }
    }
    Ok(())
}

#[test]
fn ports_have_facts(rt: HostRuntime) -> Result<(), Fail> {
    find_facts(rt.alloc(), &FACTS)
}

// Fails at the first design whose first module has another clock.
fn find_clocks(alloc: Global, cases: &[(&str, &str, Option<usize>)]) -> Result<(), Fail> {
    for (rule, text, wanted) in cases {
        let design = design_of(alloc, text)?;
        let Some(unit) = design.modules.as_slice().get(0) else {
            return Err(Fail::from(*rule));
        };
        if find_clock(alloc, unit)? != *wanted {
            return Err(Fail::from(*rule));
        }
    }
    Ok(())
}

#[test]
fn modules_have_clocks(rt: HostRuntime) -> Result<(), Fail> {
    find_clocks(rt.alloc(), &CLOCKS)
}
