ghost use Rattle.std.specs.Prelude.{◌≡◌, ◌++◌, ◌∷◌, [], not, cond, map, IfOk, Some, None};
ghost use Rattle.module_rules.specs.Items.{declarations, declared_in, declared_by, instances_in};
ghost use Rattle.module_rules.specs.View.{scope_view};
ghost use Rattle.module_rules.specs.Rules as spec;
ghost use Rattle.verilog_reader.specs.View.{item_view};

use crate::names::{add, found, is_in};
use agm_bits::{List, Memory, Name};
use agm_net::{Range, Way};
use name_table::Names;
use std::alloc::Global;
use verilog_reader::Item;

// What the declarations of a module have declared so far: ports and wires with their ranges.
#[derive(Drop)]
pub(crate) struct Scope {
    pub(crate) ports: Names,
    pub(crate) port_ranges: List<Option<Range>>,
    pub(crate) wires: Names,
    pub(crate) wire_ranges: List<Option<Range>>,
}

impl Scope {
    ghost use Rattle.module_rules.specs.View.{scope_view};

    pub(crate) fn new(alloc: Global) -> Scope
        ensures { scope_view result ≡ spec.nothing }
    {
        Scope {
            ports: Names::new(alloc),
            port_ranges: List::new(alloc),
            wires: Names::new(alloc),
            wire_ranges: List::new(alloc),
        }
    }
}

// Whether two ranges are the same.
fn is_same_range(left: Option<Range>, right: Option<Range>) -> bool
    ensures { result ≡ spec.same_range left right }
{
    match (left, right) {
        (None, None) => true,
        (Some(left), Some(right)) => left.msb == right.msb && left.lsb == right.lsb,
        _ => false,
    }
}

// Whether a name is declared, and with another range.
fn differs(names: &Names, ranges: &[Option<Range>], name: &Name, range: Option<Range>) -> bool
    ensures { result ≡ spec.differs range (spec.range_in names.now ranges.now name.now) }
{
    match names.find(name.as_slice()) {
        Some(number) => match ranges.get(number) {
            Some(other) => !is_same_range(*other, range),
            None => false,
        },
        None => false,
    }
}

// Declares a port. The name where it clashes with what is declared.
fn declare_port(
    alloc: Global,
    scope: &mut Scope,
    name: &Name,
    range: Option<Range>,
) -> Result<Option<Name>, Memory>
    ensures { IfOk result (λ o. (o ≡ cond (spec.port_clashes (scope_view scope.old) name.now range) (Some name.now) None) × (o ≡ None → scope_view scope.new ≡ spec.add_port (scope_view scope.old) name.now range)) }
{
    if is_in(&scope.ports, name)
        || differs(&scope.wires, scope.wire_ranges.as_slice(), name, range)
    {
        return found(alloc, name);
    }
    let _ = add(&mut scope.ports, name)?;
    scope.port_ranges.push(range)?;
    Ok(None)
}

// Declares a wire. The name where it clashes with what is declared.
fn declare_wire(
    alloc: Global,
    scope: &mut Scope,
    name: &Name,
    range: Option<Range>,
) -> Result<Option<Name>, Memory>
    ensures { IfOk result (λ o. (o ≡ cond (spec.wire_clashes (scope_view scope.old) name.now range) (Some name.now) None) × (o ≡ None → scope_view scope.new ≡ spec.add_wire (scope_view scope.old) name.now range)) }
{
    if is_in(&scope.wires, name)
        || differs(&scope.ports, scope.port_ranges.as_slice(), name, range)
    {
        return found(alloc, name);
    }
    let _ = add(&mut scope.wires, name)?;
    scope.wire_ranges.push(range)?;
    Ok(None)
}

// Declares a name.
fn declare(
    alloc: Global,
    scope: &mut Scope,
    way: Option<Way>,
    range: Option<Range>,
    name: &Name,
) -> Result<Option<Name>, Memory>
    ensures { IfOk result (λ o. (o ≡ cond (spec.clashes (scope_view scope.old) way name.now range) (Some name.now) None) × (o ≡ None → scope_view scope.new ≡ spec.more (scope_view scope.old) way name.now range)) }
{
    match way {
        Some(_) => declare_port(alloc, scope, name, range),
        None => declare_wire(alloc, scope, name, range),
    }
}

// Declares the names of a declaration. The first that clashes.
fn declare_names(
    alloc: Global,
    scope: &mut Scope,
    way: Option<Way>,
    range: Option<Range>,
    names: &[Name],
) -> Result<Option<Name>, Memory>
    ensures { IfOk result (λ o. (o ≡ spec.first_clash (scope_view scope.old) (declarations way range names.now)) × (o ≡ None → scope_view scope.new ≡ spec.declared_after (scope_view scope.old) (declarations way range names.now))) }
{
    for name in names {
        if let Some(clash) = declare(alloc, scope, way, range, name)? {
            return Ok(Some(clash));
        }
    }
    Ok(None)
}

// Declares what an item declares. The first name that clashes.
fn declare_item(alloc: Global, scope: &mut Scope, item: &Item) -> Result<Option<Name>, Memory>
    ensures { IfOk result (λ o. (o ≡ spec.first_clash (scope_view scope.old) (declared_by (item_view item.now))) × (o ≡ None → scope_view scope.new ≡ spec.declared_after (scope_view scope.old) (declared_by (item_view item.now)))) }
{
    match item {
        Item::Declare {
            way,
            range,
            names,
            ..
        } => declare_names(alloc, scope, *way, *range, names.as_slice()),
        _ => Ok(None),
    }
}

// Declares what the items of a module declare. The first name that clashes.
pub(crate) fn declare_items(
    alloc: Global,
    scope: &mut Scope,
    items: &[Item],
) -> Result<Option<Name>, Memory>
    ensures { IfOk result (λ o. (o ≡ spec.first_clash (scope_view scope.old) (declared_in (map item_view items.now))) × (o ≡ None → scope_view scope.new ≡ spec.declared_after (scope_view scope.old) (declared_in (map item_view items.now)))) }
{
    for item in items {
        match declare_item(alloc, scope, item)? {
            Some(clash) => return Ok(Some(clash)),
            None => (),
        }
    }
    Ok(None)
}

// The first instance whose name is declared or an earlier instance's.
pub(crate) fn first_taken(
    alloc: Global,
    scope: &Scope,
    items: &[Item],
) -> Result<Option<Name>, Memory>
    ensures { IfOk result (λ o. o ≡ spec.first_taken (scope_view scope.now) [] (instances_in (map item_view items.now))) }
{
    let mut instances = Names::new(alloc);
    for item in items {
        if let Item::Instance { name, .. } = item {
            let is_declared = is_in(&scope.ports, name) || is_in(&scope.wires, name);
            if is_declared || !add(&mut instances, name)? {
                return found(alloc, name);
            }
        }
    }
    Ok(None)
}
