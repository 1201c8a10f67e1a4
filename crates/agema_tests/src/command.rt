//! A command as a line of words, over files and an output in memory, and what it left.

ghost use Rattle.std.specs.Prelude.{◌≡◌, None};
ghost use Rattle.agm_shelf.specs.MemoryShelf.{open_name};

use agema_answers::Ended;
use agema_core::run;
use agm_shelf::{MemoryShelf, MemorySink};
use std::alloc::{AllocError, Global};
use std::str::from_utf8;
use std::test::Fail;

/// Which calls fail: the shelf's of this number, and the sink's first.
#[derive(Clone, Copy)]
pub(crate) struct Faults {
    pub shelf: Option<usize>,
    pub sink: bool,
}

pub(crate) const NO_FAULTS: Faults = Faults {
    shelf: None,
    sink: false,
};

/// How a command ended, what both of its files hold, and what was printed.
#[derive(Drop)]
pub(crate) struct Outcome {
    pub end: String,
    pub net: String,
    pub report: String,
    pub line: String,
}

// The words of a line.
fn words_of(alloc: Global, line: &str) -> Result<Vec<String>, AllocError> {
    let mut words = Vec::new(alloc);
    for word in line.split_whitespace() {
        words.push(format!(in alloc; "{word}")?)?;
    }
    Ok(words)
}

// Bytes as a text.
fn text_of(alloc: Global, bytes: &[u8]) -> Result<String, Fail> {
    Ok(String::from_str(alloc, from_utf8(bytes)?)?)
}

// The line that tells an end.
fn told(alloc: Global, ended: &Ended) -> Result<String, Fail> {
    let line = ended.explain(alloc)?;
    text_of(alloc, line.as_slice())
}

// The text that a name holds, and "-" where there is none.
fn text_at(alloc: Global, shelf: &MemoryShelf, name: &str) -> Result<String, Fail> {
    match shelf.held(name) {
        Some(text) => text_of(alloc, text),
        None => text_of(alloc, b"-"),
    }
}

/// Lets a name hold a text.
pub(crate) fn hold(shelf: &mut MemoryShelf, name: &str, text: &str) -> Result<(), Fail>
    requires { open_name shelf.old ≡ None }
    ensures { open_name shelf.new ≡ None }
{
    shelf.hold(name, text.as_bytes())?;
    Ok(())
}

// Lets the calls of a shelf and a sink fail.
fn fail(shelf: &mut MemoryShelf, sink: &mut MemorySink, faults: Faults) -> Result<(), Fail>
    requires { open_name shelf.old ≡ None }
    ensures { open_name shelf.new ≡ None }
{
    if let Some(call) = faults.shelf {
        shelf.fail(call)?;
    }
    if faults.sink {
        sink.fail(0)?;
    }
    Ok(())
}

// The word of a line at a place, "" behind its end.
fn word_at(line: &str, place: usize) -> &str {
    line.split_whitespace().nth(place).unwrap_or("")
}

// Whether a netlist that was masked by the words of a line is audited, with the gadgets and random bits of the printed line.
fn is_audited(
    alloc: Global,
    line: &str,
    printed: &str,
    shelf: &mut MemoryShelf,
) -> Result<bool, Fail>
    requires { open_name shelf.old ≡ None }
{
    let order = word_at(line, 3);
    let out = word_at(line, 6);
    let gadgets = word_at(printed, 7);
    let random = word_at(printed, 9);
    let wanted = format!(in alloc; "hpc2 order {order} gadgets {gadgets} random {random}\n")?;
    let words = words_of(alloc, format!(in alloc; "audit {out} {order}")?.as_str())?;
    let mut sink = MemorySink::new(alloc);
    let ended = run(alloc, words.as_slice(), shelf, &mut sink);
    Ok(matches!(ended, Ended::Done) && sink.taken() == wanted.as_bytes())
}

// Audits a netlist that was masked over a shelf whose calls don't fail; fails where that finds no network, or other numbers than were
// printed.
fn audit_masked(
    alloc: Global,
    line: &str,
    found: &Outcome,
    faults: Faults,
    shelf: &mut MemoryShelf,
) -> Result<(), Fail>
    requires { open_name shelf.old ≡ None }
{
    let is_masked = word_at(line, 0) == "mask" && found.end.as_str() == "status 0 Done\n";
    if faults.shelf.is_some()
        || !is_masked
        || is_audited(alloc, line, found.line.as_str(), shelf)?
    {
        Ok(())
    } else {
        Err(Fail::from("a masked netlist is no network"))
    }
}

/// Runs the command of a line over a shelf and a sink, and answers what it left in the files OUT and its report.
pub(crate) fn left_by(
    alloc: Global,
    line: &str,
    out: (&str, &str),
    shelf: &mut MemoryShelf,
    sink: &mut MemorySink,
) -> Result<Outcome, Fail>
    requires { open_name shelf.old ≡ None }
    ensures { open_name shelf.new ≡ None }
{
    let words = words_of(alloc, line)?;
    let ended = run(alloc, words.as_slice(), shelf, sink);
    Ok(Outcome {
        end: told(alloc, &ended)?,
        net: text_at(alloc, shelf, out.0)?,
        report: text_at(alloc, shelf, out.1)?,
        line: text_of(alloc, sink.taken())?,
    })
}

/// The outcome of a command over a shelf that holds the netlist as `n.v`, and old texts as `o.v` and `o.v.json`.
pub(crate) fn run_over(
    alloc: Global,
    netlist: &str,
    line: &str,
    faults: Faults,
) -> Result<Outcome, Fail> {
    run_with(alloc, "", netlist, line, faults)
}

/// The same where the shelf holds a library as `l.lib` too. A netlist that is masked is audited as well.
pub(crate) fn run_with(
    alloc: Global,
    library: &str,
    netlist: &str,
    line: &str,
    faults: Faults,
) -> Result<Outcome, Fail> {
    let mut shelf = MemoryShelf::new(alloc);
    let mut sink = MemorySink::new(alloc);
    hold(&mut shelf, "l.lib", library)?;
    hold(&mut shelf, "n.v", netlist)?;
    hold(&mut shelf, "o.v", "old net")?;
    hold(&mut shelf, "o.v.json", "old report")?;
    fail(&mut shelf, &mut sink, faults)?;
    let found = left_by(alloc, line, ("o.v", "o.v.json"), &mut shelf, &mut sink)?;
    audit_masked(alloc, line, &found, faults, &mut shelf)?;
    Ok(found)
}

/// The outcome of a command over a shelf that holds the library as `l.lib`, the netlist as `n.v` and a stimulus as `s.json`.
pub(crate) fn run_sim(
    alloc: Global,
    library: &str,
    netlist: &str,
    stimulus: &str,
    line: &str,
) -> Result<Outcome, Fail> {
    let mut shelf = MemoryShelf::new(alloc);
    let mut sink = MemorySink::new(alloc);
    hold(&mut shelf, "l.lib", library)?;
    hold(&mut shelf, "n.v", netlist)?;
    hold(&mut shelf, "s.json", stimulus)?;
    left_by(alloc, line, ("o.v", "o.v.json"), &mut shelf, &mut sink)
}

/// Whether a command ended so, and left the files as they were and nothing printed.
pub(crate) fn left_nothing(found: &Outcome, end: &str) -> bool {
    found.end.as_str() == end
        && (found.net.as_str() == "old net"
            && (found.report.as_str() == "old report" && found.line.is_empty()))
}
