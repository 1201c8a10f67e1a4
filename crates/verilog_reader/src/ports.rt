ghost use Rattle.std.specs.Prelude.{◌≡◌, [], ◌∷◌, map, IfOk};
ghost use Rattle.verilog_tokens.specs.Row.{tokens_of};
ghost use Rattle.verilog_reader.specs.Grammar.{entry_name, kind_from, port_item, port_items};
ghost use Rattle.verilog_reader.specs.Reading as spec;
ghost use Rattle.verilog_reader.specs.View.{item_view, ports_view};

use crate::Item;
use crate::attributes::{attributes, copy_attributes};
use crate::names::{names, optional_range, port_way};
use crate::port::{PortEntry, PortKind, Ports};
use crate::stop::Stop;
use crate::terminals::{begins, begins_name, behind, ident, symbol};
use agm_bits::{List, Memory, Name};
use std::alloc::Global;

// `attributes way [ wire ] [ range ]`.
#[tactic(auto, unfolding(crate::specs::Reading::port_kind_at))]
fn port_kind(alloc: Global, bytes: &[u8]) -> Result<(PortKind, &[u8]), Stop>
    ensures { spec.Gives (λ x. (x.0, tokens_of x.1.now)) result (spec.port_kind_at (tokens_of bytes.now)) }
{
    let (attributes, rest) = attributes(alloc, bytes)?;
    let (way, rest) = port_way(rest)?;
    let (range, rest) = optional_range(rest)?;
    Ok((
        PortKind {
            attributes,
            way,
            range,
        },
        rest,
    ))
}

// An entry with a kind of its own.
#[tactic(auto, unfolding(crate::specs::Reading::kind_entry_at))]
fn kind_entry(alloc: Global, bytes: &[u8]) -> Result<(PortEntry, &[u8]), Stop>
    ensures { spec.Gives (λ x. (x.0, tokens_of x.1.now)) result (spec.kind_entry_at (tokens_of bytes.now)) }
{
    let (kind, rest) = port_kind(alloc, bytes)?;
    let (name, rest) = ident(rest)?;
    let name = Name::from_slice(alloc, name)?;
    Ok((
        PortEntry {
            kind: Some(kind),
            name,
        },
        rest,
    ))
}

// A name alone.
#[tactic(auto, unfolding(crate::specs::Reading::name_entry_at))]
fn name_entry(alloc: Global, bytes: &[u8]) -> Result<(PortEntry, &[u8]), Stop>
    ensures { spec.Gives (λ x. (x.0, tokens_of x.1.now)) result (spec.name_entry_at (tokens_of bytes.now)) }
{
    let (name, rest) = ident(bytes)?;
    let name = Name::from_slice(alloc, name)?;
    Ok((PortEntry { kind: None, name }, rest))
}

// An entry behind the first.
fn entry(alloc: Global, bytes: &[u8]) -> Result<(PortEntry, &[u8]), Stop>
    ensures { spec.Gives (λ x. (x.0, tokens_of x.1.now)) result (spec.entry_at (tokens_of bytes.now)) }
{
    if begins_name(bytes) {
        name_entry(alloc, bytes)
    } else {
        kind_entry(alloc, bytes)
    }
}

// `, entry`.
#[tactic(auto, unfolding(crate::specs::Reading::next_at))]
fn next_entry(alloc: Global, bytes: &[u8]) -> Result<(PortEntry, &[u8]), Stop>
    ensures { spec.Gives (λ x. (x.0, tokens_of x.1.now)) result (spec.next_at spec.entry_at (tokens_of bytes.now)) }
{
    let rest = symbol(b',', bytes)?;
    entry(alloc, rest)
}

// `, entry` as often as it comes.
fn more_entries(alloc: Global, bytes: &[u8]) -> Result<(List<PortEntry>, &[u8]), Stop>
    ensures { spec.Gives (λ x. (x.0, tokens_of x.1.now)) result (spec.more_at spec.entry_at (tokens_of bytes.now)) }
{
    let mut entries = List::new(alloc);
    let mut rest = bytes;
    for _ in 0..bytes.len() {
        if !begins(b',', rest) {
            return Ok((entries, rest));
        }
        let (next, behind) = next_entry(alloc, rest)?;
        entries.push(next)?;
        rest = behind;
    }
    Ok((entries, rest))
}

// The declaration that a port is.
fn port_item(alloc: Global, kind: &PortKind, name: &Name) -> Result<Item, Memory>
    ensures { IfOk result (λ item. item_view item ≡ port_item kind.now name.now) }
{
    let attributes = copy_attributes(alloc, &kind.attributes)?;
    let mut names = List::new(alloc);
    names.push(Name::from_slice(alloc, name.as_slice())?)?;
    Ok(Item::Declare {
        attributes,
        way: Some(kind.way),
        range: kind.range,
        names,
    })
}

// The kind of an entry: its own, or that of the entry before it.
fn kind_from<'t>(before: &'t PortKind, own: &'t Option<PortKind>) -> &'t PortKind
    ensures { result.now ≡ kind_from before.now own.now }
{
    match own {
        Some(own) => own,
        None => before,
    }
}

// The names of a first port and of entries.
fn entry_names(alloc: Global, first: &Name, entries: &[PortEntry]) -> Result<List<Name>, Memory>
    ensures { IfOk result (λ names. names ≡ first.now ∷ map entry_name entries.now) }
{
    let mut names = List::new(alloc);
    names.push(Name::from_slice(alloc, first.as_slice())?)?;
    for entry in entries {
        names.push(Name::from_slice(alloc, entry.name.as_slice())?)?;
    }
    Ok(names)
}

// The declarations that a first port and entries are.
fn declarations(
    alloc: Global,
    kind: &PortKind,
    name: &Name,
    entries: &[PortEntry],
) -> Result<List<Item>, Memory>
    ensures { IfOk result (λ items. map item_view items ≡ port_item kind.now name.now ∷ port_items kind.now entries.now) }
{
    let mut items = List::new(alloc);
    items.push(port_item(alloc, kind, name)?)?;
    let mut before = kind;
    for entry in entries {
        before = kind_from(before, &entry.kind);
        items.push(port_item(alloc, before, &entry.name)?)?;
    }
    Ok(items)
}

// ANSI ports.
#[tactic(auto, unfolding(crate::specs::Reading::ansi_at))]
fn ansi(alloc: Global, bytes: &[u8]) -> Result<(Ports, &[u8]), Stop>
    ensures { spec.Gives (λ x. (ports_view x.0, tokens_of x.1.now)) result (spec.ansi_at (tokens_of bytes.now)) }
{
    let (kind, rest) = port_kind(alloc, bytes)?;
    let (name, rest) = ident(rest)?;
    let name = Name::from_slice(alloc, name)?;
    let (more, rest) = more_entries(alloc, rest)?;
    let names = entry_names(alloc, &name, more.as_slice())?;
    let items = declarations(alloc, &kind, &name, more.as_slice())?;
    Ok((Ports { names, items }, rest))
}

// Names of ports.
#[tactic(auto, unfolding(crate::specs::Reading::plain_ports_at))]
fn plain_ports(alloc: Global, bytes: &[u8]) -> Result<(Ports, &[u8]), Stop>
    ensures { spec.Gives (λ x. (ports_view x.0, tokens_of x.1.now)) result (spec.plain_ports_at (tokens_of bytes.now)) }
{
    let (names, rest) = names(alloc, bytes)?;
    let items = List::new(alloc);
    Ok((Ports { names, items }, rest))
}

// No ports.
fn no_ports(alloc: Global) -> Ports
    ensures { ports_view result ≡ ([], []) }
{
    Ports {
        names: List::new(alloc),
        items: List::new(alloc),
    }
}

// The ports between parentheses.
fn inside(alloc: Global, bytes: &[u8]) -> Result<(Ports, &[u8]), Stop>
    ensures { spec.Gives (λ x. (ports_view x.0, tokens_of x.1.now)) result (spec.inside_at (tokens_of bytes.now)) }
{
    if begins(b')', bytes) {
        Ok((no_ports(alloc), bytes))
    } else if begins_name(bytes) {
        plain_ports(alloc, bytes)
    } else {
        ansi(alloc, bytes)
    }
}

// `ports )`, behind `(`.
#[tactic(auto, unfolding(crate::specs::Reading::parenthesis_at))]
fn parenthesis(alloc: Global, bytes: &[u8]) -> Result<(Ports, &[u8]), Stop>
    ensures { spec.Gives (λ x. (ports_view x.0, tokens_of x.1.now)) result (spec.parenthesis_at (tokens_of bytes.now)) }
{
    let (ports, rest) = inside(alloc, bytes)?;
    let rest = symbol(b')', rest)?;
    Ok((ports, rest))
}

// The ports of a module, where they are listed.
pub(crate) fn ports(alloc: Global, bytes: &[u8]) -> Result<(Ports, &[u8]), Stop>
    ensures { spec.Gives (λ x. (ports_view x.0, tokens_of x.1.now)) result (spec.ports_at (tokens_of bytes.now)) }
{
    match behind(b'(', bytes) {
        Some(rest) => parenthesis(alloc, rest),
        None => Ok((no_ports(alloc), bytes)),
    }
}
