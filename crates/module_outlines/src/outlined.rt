ghost use Rattle.std.specs.Prelude.{◌≡◌, ◌++◌, ◌∷◌, [], List, map, filter, length, not, IfOk, OnOk};
ghost use Rattle.std.specs.List.{flat_map};
ghost use Rattle.verilog_reader.specs.View.{item_view, module_view};
ghost use Rattle.module_rules.specs.Items.{is_among};
ghost use Rattle.module_outlines.specs.Outlines as spec;
ghost use Rattle.module_outlines.specs.View.{Outlines, wide_view, wides_by, way_by};
ghost use Rattle.form_bits.specs.Forms.{range_width};

use crate::{Outline, Wide};
use agm_bits::{List, Memory, Name};
use agm_net::{Range, Way};
use form_bits::{Scope, Spot};
use name_table::Names;
use std::alloc::Global;
use top_module::{Kind, PortFacts, port_facts};
use verilog_reader::{Item, Module};

fn range_of(kind: Option<Kind>) -> Option<Range>
    ensures { result ≡ spec.kind_range kind }
{
    match kind {
        Some(kind) => kind.range,
        None => None,
    }
}

fn way_of(kind: Option<Kind>) -> Way
    ensures { result ≡ spec.kind_way kind }
{
    match kind {
        Some(kind) => kind.way,
        None => Way::Input,
    }
}

// A listed port with its range.
fn port_wide(alloc: Global, name: &Name, facts: &PortFacts) -> Result<Wide, Memory>
    ensures { IfOk result (λ w. wide_view w ≡ spec.wide (spec.kind_range facts.now.kind) name.now) }
{
    let name = Name::from_slice(alloc, name.as_slice())?;
    let range = range_of(facts.kind);
    Ok(Wide { name, range })
}

// The listed ports with their ranges.
fn port_wides(alloc: Global, ports: &[Name], facts: &[PortFacts]) -> Result<List<Wide>, Memory>
    requires { length facts.now ≡ length ports.now }
    ensures { IfOk result (λ ws. map wide_view ws ≡ wides_by ports.now facts.now) }
{
    let mut wides = List::new(alloc);
    for k in 0..ports.len() {
        let wide = port_wide(alloc, &ports[k], &facts[k])?;
        wides.push(wide)?;
    }
    Ok(wides)
}

// The ways of ports.
fn ways_of(alloc: Global, facts: &[PortFacts]) -> Result<List<Way>, Memory>
    ensures { IfOk result (λ ways. ways ≡ map way_by facts.now) }
{
    let mut ways = List::new(alloc);
    for facts in facts {
        ways.push(way_of(facts.kind))?;
    }
    Ok(ways)
}

// Whether a name is in a table.
fn is_in(table: &Names, name: &Name) -> bool
    ensures { result ≡ is_among table.now name.now }
{
    table.find(name.as_slice()).is_some()
}

// Adds those of the names of a declaration that are not in a table.
fn push_own(
    alloc: Global,
    ports: &Names,
    range: Option<Range>,
    names: &[Name],
    wides: &mut List<Wide>,
) -> Result<(), Memory>
    ensures { OnOk result (map wide_view wides.new ≡ map wide_view wides.old ++ map (spec.wide range) (filter (λ n. not (is_among ports.now n)) names.now)) }
{
    for name in names {
        if !is_in(ports, name) {
            let name = Name::from_slice(alloc, name.as_slice())?;
            wides.push(Wide { name, range })?;
        }
    }
    Ok(())
}

// Adds those of the names that an item declares that are not in a table.
fn push_item(
    alloc: Global,
    ports: &Names,
    item: &Item,
    wides: &mut List<Wide>,
) -> Result<(), Memory>
    ensures { OnOk result (map wide_view wides.new ≡ map wide_view wides.old ++ spec.own_wides ports.now (item_view item.now)) }
{
    match item {
        Item::Declare { range, names, .. } => {
            push_own(alloc, ports, *range, names.as_slice(), wides)
        }
        _ => Ok(()),
    }
}

// Adds those of the names that items declare that are not in a table.
fn push_items(
    alloc: Global,
    ports: &Names,
    items: &[Item],
    wides: &mut List<Wide>,
) -> Result<(), Memory>
    ensures { OnOk result (map wide_view wides.new ≡ map wide_view wides.old ++ flat_map (spec.own_wides ports.now) (map item_view items.now)) }
{
    for item in items {
        push_item(alloc, ports, item, wides)?;
    }
    Ok(())
}

// How many bits declared names have.
fn width_of(range: Option<Range>) -> usize
    ensures { result ≡ range_width range }
{
    match range {
        None => 1,
        Some(r) => r.msb.abs_diff(r.lsb) as usize + 1,
    }
}

// Adds a name that is new to a table. One that is not is want of memory, which the caller knows not to come.
fn add_new(table: &mut Names, name: &Name) -> Result<(), Memory>
    ensures { OnOk result (table.new ≡ table.old ++ name.now ∷ []) }
{
    if table.add(name.as_slice())?.is_new {
        Ok(())
    } else {
        Err(Memory)
    }
}

// A table of the names of declared names.
fn table_of(alloc: Global, wides: &[Wide]) -> Result<Names, Memory>
    ensures { IfOk result (λ t. t ≡ map spec.wide_name (map wide_view wides.now)) }
{
    let mut table = Names::new(alloc);
    for wide in wides {
        add_new(&mut table, &wide.name)?;
    }
    Ok(table)
}

// The spots of declared names, and how many bits there are.
fn spots_of(alloc: Global, wides: &[Wide]) -> Result<(List<Spot>, usize), Memory>
    ensures { IfOk result (λ x. (x.0 ≡ spec.spots_from 0 (map wide_view wides.now)) × (x.1 ≡ spec.total_width (map wide_view wides.now))) }
{
    let mut spots = List::new(alloc);
    let mut first = 0usize;
    for wide in wides {
        spots.push(Spot {
            first,
            range: wide.range,
        })?;
        let Some(next) = first.checked_add(width_of(wide.range)) else {
            return Err(Memory);
        };
        first = next;
    }
    Ok((spots, first))
}

// The places of the bits of declared names, and how many there are.
fn scope_of(alloc: Global, wides: &[Wide]) -> Result<(Scope, usize), Memory>
    ensures { IfOk result (λ x. (x.0.names ≡ map spec.wide_name (map wide_view wides.now)) × (x.0.spots ≡ spec.spots_from 0 (map wide_view wides.now)) × (x.1 ≡ spec.total_width (map wide_view wides.now))) }
{
    let names = table_of(alloc, wides)?;
    let (spots, width) = spots_of(alloc, wides)?;
    Ok((Scope { names, spots }, width))
}

/// The outline of a module in which no name of a port is listed twice and none of a wire declared twice.
///
/// Takes near linear time.
///
/// # Errors
///
/// `Memory` where memory runs out, or where names are repeated.
pub fn outline_of(alloc: Global, unit: &Module) -> Result<Outline, Memory>
    ensures { IfOk result (Outlines (module_view unit.now)) }
{
    let facts = port_facts(alloc, unit)?;
    let ways = ways_of(alloc, facts.as_slice())?;
    let mut wides = port_wides(alloc, unit.ports.as_slice(), facts.as_slice())?;
    let (ports, _) = scope_of(alloc, wides.as_slice())?;
    push_items(alloc, &ports.names, unit.items.as_slice(), &mut wides)?;
    let (names, width) = scope_of(alloc, wides.as_slice())?;
    Ok(Outline {
        wides,
        names,
        ports,
        ways,
        width,
    })
}
