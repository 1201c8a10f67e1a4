ghost use Rattle.std.specs.Prelude.{◌≡◌, ℕ, List, [], map, replicate, length, true, IfOk};
ghost use Rattle.verilog_reader.specs.View.{item_view, module_view};
ghost use Rattle.top_module.specs.Marks.{mark_set, mark_values, is_among};
ghost use Rattle.top_module.specs.Marks as marks_spec;
ghost use Rattle.top_module.specs.Ports as spec;
ghost use Rattle.top_module.specs.Steps as steps;
ghost use Rattle.top_module.specs.declared.facts.PortFacts as facts_type;

use crate::{Kind, MarkSet, PortFacts};
use agm_bits::{List, Memory, Name};
use agm_net::{Range, Way};
use name_table::Names;
use std::alloc::Global;
use verilog_reader::{Attribute, Item, Module, Value};

const NO_MARKS: MarkSet = MarkSet {
    secure: false,
    public: false,
    clock: false,
    unknown: false,
};

const NO_FACTS: PortFacts = PortFacts {
    kind: None,
    marks: NO_MARKS,
};

// Whether the value of an attribute is this text.
fn says(word: &[u8], value: &Option<Value>) -> bool
    ensures { result ≡ marks_spec.says word.now value.now }
{
    match value {
        Some(Value::Text(text)) => text.as_slice() == word,
        _ => false,
    }
}

// The one mark that a value is.
fn mark_of(value: &Option<Value>) -> MarkSet
    ensures { result ≡ steps.mark_of value.now }
{
    let secure = says(b"secure", value);
    let public = says(b"public", value);
    let clock = says(b"clock", value);
    MarkSet {
        secure,
        public,
        clock,
        unknown: !(secure || (public || clock)),
    }
}

// The marks of two sets.
fn union(one: MarkSet, other: MarkSet) -> MarkSet
    ensures { result ≡ steps.union one other }
{
    MarkSet {
        secure: one.secure || other.secure,
        public: one.public || other.public,
        clock: one.clock || other.clock,
        unknown: one.unknown || other.unknown,
    }
}

// The marks among attributes.
fn marks_among(attributes: &[Attribute]) -> MarkSet
    ensures { result ≡ mark_set (mark_values attributes.now) }
{
    let mut marks = NO_MARKS;
    for attribute in attributes {
        if attribute.name.as_slice() == b"AGEMA".as_slice() {
            marks = union(marks, mark_of(&attribute.value));
        }
    }
    marks
}

// What is known of a name after one more declaration.
fn joined(known: PortFacts, more: PortFacts) -> PortFacts
    ensures { result ≡ steps.joined known more }
{
    PortFacts {
        kind: known.kind.or(more.kind),
        marks: union(known.marks, more.marks),
    }
}

// Adds what a declaration says to one name, if a table has it.
fn add_fact(names: &Names, facts: &mut [PortFacts], own: &Name, more: PortFacts)
    requires { length facts.old ≡ length names.now }
    ensures { (f : List ℕ → facts_type.PortFacts) → facts.old ≡ map f names.now → facts.new ≡ map (λ name. steps.joined_at own.now more (f name) name) names.now }
{
    names.differ();
    if let Some(place) = names.find(own.as_slice()) {
        facts[place] = joined(facts[place], more);
    }
}

// Adds what a declaration says to each of its names that a table has.
fn add_facts(names: &Names, facts: &mut [PortFacts], declared: &[Name], more: PortFacts)
    requires { length facts.old ≡ length names.now }
    ensures { (f : List ℕ → facts_type.PortFacts) → facts.old ≡ map f names.now → facts.new ≡ map (λ name. steps.joined_among declared.now more (f name) name) names.now }
{
    for own in declared {
        add_fact(names, facts, own, more);
    }
}

// What a declaration with these attributes, way and range says of its names.
fn said(attributes: &[Attribute], way: Option<Way>, range: Option<Range>) -> PortFacts
    ensures { result ≡ steps.said attributes.now way range }
{
    PortFacts {
        kind: way.map(|way| Kind { way, range }),
        marks: marks_among(attributes),
    }
}

// Adds what an item says to each name of a table.
fn add_item(names: &Names, facts: &mut [PortFacts], item: &Item)
    requires { length facts.old ≡ length names.now }
    ensures { (f : List ℕ → facts_type.PortFacts) → facts.old ≡ map f names.now → facts.new ≡ map (λ name. steps.joined (f name) (steps.said_at name (item_view item.now))) names.now }
{
    if let Item::Declare {
        attributes,
        way,
        range,
        names: declared,
    } = item
    {
        add_facts(
            names,
            facts,
            declared.as_slice(),
            said(attributes.as_slice(), *way, *range),
        );
    }
}

// Adds what items say to each name of a table.
fn add_items(names: &Names, facts: &mut [PortFacts], items: &[Item])
    requires { facts.old ≡ map (steps.facts_in []) names.now }
    ensures { facts.new ≡ map (steps.facts_in (map item_view items.now)) names.now }
{
    for item in items {
        add_item(names, facts, item);
    }
}

// No facts of n names.
fn blank(alloc: Global, n: usize) -> Result<Vec<PortFacts>, Memory>
    ensures { IfOk result (λ facts. facts.items ≡ replicate n steps.no_facts) }
{
    let mut facts = Vec::new(alloc);
    for _ in 0..n {
        facts.push(NO_FACTS)?;
    }
    Ok(facts)
}

/// What the declarations of a module say of each name of a table, in the table's order. Takes near linear time.
pub fn name_facts(alloc: Global, unit: &Module, names: &Names) -> Result<Vec<PortFacts>, Memory>
    ensures { IfOk result (λ facts. facts.items ≡ map (spec.facts_of (module_view unit.now)) names.now) }
{
    let mut facts = blank(alloc, names.len())?;
    add_items(names, facts.as_mut_slice(), unit.items.as_slice());
    Ok(facts)
}

// A table of names.
fn table_of(alloc: Global, names: &[Name]) -> Result<Names, Memory>
    ensures { IfOk result (λ table. (name : List ℕ) → is_among name table ≡ is_among name names.now) }
{
    let mut table = Names::new(alloc);
    for own in names {
        table.add(own.as_slice())?;
    }
    Ok(table)
}

// What is known of a name, by its place in a table.
fn facts_at(table: &Names, facts: &[PortFacts], name: &Name) -> PortFacts
    requires { length facts.now ≡ length table.now }
    ensures { (f : List ℕ → facts_type.PortFacts) → facts.now ≡ map f table.now → is_among name.now table.now ≡ true → result ≡ f name.now }
{
    match table.find(name.as_slice()) {
        Some(place) => facts[place],
        None => NO_FACTS,
    }
}

// What is known of each of these names, by their places in a table.
fn at_places(
    alloc: Global,
    table: &Names,
    facts: &[PortFacts],
    names: &[Name],
) -> Result<List<PortFacts>, Memory>
    requires long { length facts.now ≡ length table.now }
    requires among { (name : List ℕ) → is_among name table.now ≡ is_among name names.now }
    ensures { IfOk result (λ list. (f : List ℕ → facts_type.PortFacts) → facts.now ≡ map f table.now → list ≡ map f names.now) }
{
    let mut list = List::new(alloc);
    for own in names {
        list.push(facts_at(table, facts, own))?;
    }
    Ok(list)
}

/// What the declarations of a module say of each of its listed ports, in their order. Takes near linear time.
pub fn port_facts(alloc: Global, unit: &Module) -> Result<List<PortFacts>, Memory>
    ensures { IfOk result (λ facts. facts ≡ map (spec.facts_of (module_view unit.now)) unit.now.ports) }
{
    let table = table_of(alloc, unit.ports.as_slice())?;
    let facts = name_facts(alloc, unit, &table)?;
    at_places(alloc, &table, facts.as_slice(), unit.ports.as_slice())
}
