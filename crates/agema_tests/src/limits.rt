//! The limits of length and of size.

ghost use Rattle.std.specs.Prelude.{◌≡◌, None};
ghost use Rattle.agm_shelf.specs.MemoryShelf.{open_name};

use crate::command::{NO_FAULTS, Outcome, left_by, run_over};
use agm_shelf::{MemoryShelf, MemorySink};
use std::alloc::{AllocError, Global};
use std::test::Fail;

// A chain of one inverter more than it has wires between them, whose output has this mark before it.
fn chain(alloc: Global, mark: &str, wires: usize) -> Result<String, AllocError> {
    let mut text = String::from_str(
        alloc,
        "module chain(w0, y);\n(* AGEMA = \"secure\" *) input w0;\n",
    )?;
    text.push_str(mark)?;
    text.push_str("output y;\n")?;
    for before in 0..wires {
        let wire = before + 1;
        let line = format!(in alloc; "wire w{wire};\n")?;
        text.push_str(line.as_str())?;
    }
    for before in 0..wires {
        let wire = before + 1;
        let line = format!(in alloc; "AGM_NOT u{before} (.A(w{before}), .Y(w{wire}));\n")?;
        text.push_str(line.as_str())?;
    }
    let line = format!(in alloc; "AGM_NOT last (.A(w{wires}), .Y(y));\nendmodule\n")?;
    text.push_str(line.as_str())?;
    Ok(text)
}

const MARK: &str = "(* AGEMA = \"public\" *) ";

// How masking a chain at order 7 ends.
fn end_of_chain(alloc: Global, mark: &str, wires: usize, end: &str) -> Result<bool, Fail> {
    let text = chain(alloc, mark, wires)?;
    let found = run_over(
        alloc,
        text.as_str(),
        "mask - n.v 7 naive pipe o.v",
        NO_FAULTS,
    )?;
    Ok(found.end.as_str() == end)
}

/// At order 7 there are eight shares: 1,024 operators times 64 are just within the limit of size. A leak is told before the size.
#[test]
fn limits_sizes(rt: HostRuntime) -> Result<(), Fail> {
    assert!(rt; end_of_chain(rt.alloc(), "", 1023, "status 0 Done\n")?);
    assert!(rt; end_of_chain(rt.alloc(), "", 1024, "status 23 TooLarge operators=1025\n")?);
    assert!(rt; end_of_chain(rt.alloc(), MARK, 1024, "status 22 Leak port=y\n")?);
    Ok(())
}

// Lets a name hold bytes that are 0.
fn hold_blank(shelf: &mut MemoryShelf, name: &str, length: usize) -> Result<(), Fail>
    requires { open_name shelf.old ≡ None }
    ensures { open_name shelf.new ≡ None }
{
    shelf.hold_blank(name, length)?;
    Ok(())
}

// The outcome where a file is so many bytes that are 0.
fn blank(alloc: Global, name: &str, length: usize, line: &str) -> Result<Outcome, Fail> {
    let mut shelf = MemoryShelf::new(alloc);
    let mut sink = MemorySink::new(alloc);
    hold_blank(&mut shelf, name, length)?;
    left_by(alloc, line, ("o.v", "o.v.json"), &mut shelf, &mut sink)
}

// Whether that is told to be too long, and nothing is written.
fn is_too_long(found: &Outcome, end: &str) -> bool {
    found.end.as_str() == end && (found.net.as_str() == "-" && found.line.is_empty())
}

#[test]
fn limits_lengths(rt: HostRuntime) -> Result<(), Fail> {
    let found = blank(
        rt.alloc(),
        "n.v",
        268_435_457,
        "mask - n.v 1 naive pipe o.v",
    )?;
    assert!(rt; is_too_long(&found, "status 10 TooLong file=n.v\n"));
    let found = blank(
        rt.alloc(),
        "l.lib",
        268_435_457,
        "mask l.lib n.v 1 naive pipe o.v",
    )?;
    assert!(rt; is_too_long(&found, "status 10 TooLong file=l.lib\n"));
    Ok(())
}
