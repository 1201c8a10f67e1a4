ghost use Rattle.std.specs.Prelude.{◌≡◌, ◌++◌, ◌∷◌, [], IfOk, map, false, codes};
ghost use Rattle.std.specs.Str.{bytes_eq};
ghost use Rattle.liberty_text.specs.Tokens.{tokens_of};
ghost use Rattle.liberty_statements.specs.Reading as reading;
ghost use Rattle.cell_library.specs.Read as read;
ghost use Rattle.cell_library.specs.Steps as spec;
ghost use Rattle.cell_library.specs.Texts.{cell_texts};
ghost use Rattle.cell_library.specs.View as view;

use crate::flip::flip_body;
use crate::pin::pin_body;
use crate::raw::{FlipBody, Kinds, PinBody, RawCell, RawFlip, RawPin, Said};
use agm_bits::{List, Memory, Name};
use agm_net::Way;
use cell_function::read_function;
use liberty_statements::{
    Stop, arg_names, begins, ended, skip_args, skip_group, skip_value, start, symbol,
};
use liberty_text::place;
use std::alloc::Global;

// The way that a direction names.
fn way_of(text: &[u8]) -> Option<Way>
    ensures { result ≡ read.way_of text.now }
{
    if text == b"input".as_slice() {
        Some(Way::Input)
    } else if text == b"output".as_slice() {
        Some(Way::Output)
    } else {
        None
    }
}

fn way_in(direction: &Option<Name>) -> Option<Way>
    ensures { result ≡ read.way_in direction.now }
{
    match direction {
        Some(text) => way_of(text.as_slice()),
        None => None,
    }
}

// What a function text says.
fn said(alloc: Global, text: &[u8]) -> Result<Said, Memory>
    ensures { IfOk result (λ s. view.said_of s ≡ read.said text.now) }
{
    if text.len() > 1024 {
        return Ok(Said::Nothing);
    }
    match read_function(alloc, text)? {
        Some(function) => Ok(Said::Function(function)),
        None => Ok(Said::Nothing),
    }
}

fn said_in(alloc: Global, text: &Option<Name>) -> Result<Option<Said>, Memory>
    ensures { IfOk result (λ s. view.said_in s ≡ read.said_in text.now) }
{
    match text {
        Some(text) => Ok(Some(said(alloc, text.as_slice())?)),
        None => Ok(None),
    }
}

// A pin of a name.
fn named_pin(alloc: Global, body: &PinBody, name: &Name) -> Result<RawPin, Memory>
    ensures { IfOk result (λ p. view.raw_pin p ≡ spec.read_named (view.pin_body body.now) name.now) }
{
    Ok(RawPin {
        name: Name::from_slice(alloc, name.as_slice())?,
        way: way_in(&body.direction),
        is_three_state: body.is_three_state,
        function: said_in(alloc, &body.function)?,
    })
}

// A pin of a name behind others.
fn push_pin(
    alloc: Global,
    pins: List<RawPin>,
    body: &PinBody,
    name: &Name,
) -> Result<List<RawPin>, Memory>
    ensures { IfOk result (λ ps. map view.raw_pin ps ≡ map view.raw_pin pins ++ spec.read_named (view.pin_body body.now) name.now ∷ []) }
{
    let mut pins = pins;
    let pin = named_pin(alloc, body, name)?;
    pins.push(pin)?;
    Ok(pins)
}

// Pins of these names behind others.
fn add_pins(
    alloc: Global,
    pins: List<RawPin>,
    body: &PinBody,
    names: &[Name],
) -> Result<List<RawPin>, Memory>
    ensures { IfOk result (λ ps. map view.raw_pin ps ≡ map view.raw_pin pins ++ map (spec.read_named (view.pin_body body.now)) names.now) }
{
    let mut pins = pins;
    for name in names {
        pins = push_pin(alloc, pins, body, name)?;
    }
    Ok(pins)
}

// The arguments and statements of a `pin` group, from behind its `(` on.
fn pin_group(
    alloc: Global,
    depth: usize,
    cell: RawCell,
    text: &[u8],
) -> Result<(RawCell, &[u8]), Stop>
    ensures { reading.Gives (λ x. (view.raw_cell x.0, tokens_of x.1.now)) result (reading.as_value (spec.cell_more (view.raw_cell cell)) (reading.paren_at (reading.body_at depth) (codes "pin") (tokens_of text.now))) }
{
    let (names, rest) = arg_names(alloc, text)?;
    if !begins(b'{', rest) {
        return Ok((cell, ended(rest)));
    }
    if depth == 0 {
        return Err(Stop::Wrong(place(rest)));
    }
    let inner = symbol(b'{', rest)?;
    let (body, behind) = pin_body(alloc, depth - 1, inner)?;
    let pins = add_pins(alloc, cell.pins, &body, names.as_slice())?;
    Ok((
        RawCell {
            kinds: cell.kinds,
            flips: cell.flips,
            pins,
        },
        ended(behind),
    ))
}

// A flip-flop of these names.
fn named_flip(alloc: Global, names: List<Name>, body: FlipBody) -> Result<RawFlip, Memory>
    ensures { IfOk result (λ f. view.raw_flip f ≡ read.read_flip (record { names = names; texts = view.flip_body body })) }
{
    let next = said_in(alloc, &body.next_state)?;
    Ok(RawFlip {
        names,
        clocked_on: body.clocked_on,
        next,
        is_async: body.is_async,
        has_second_clock: body.has_second_clock,
    })
}

// The arguments and statements of an `ff` group, from behind its `(` on.
fn flip_group(
    alloc: Global,
    depth: usize,
    cell: RawCell,
    text: &[u8],
) -> Result<(RawCell, &[u8]), Stop>
    ensures { reading.Gives (λ x. (view.raw_cell x.0, tokens_of x.1.now)) result (reading.as_value (spec.cell_more (view.raw_cell cell)) (reading.paren_at (reading.body_at depth) (codes "ff") (tokens_of text.now))) }
{
    let (names, rest) = arg_names(alloc, text)?;
    if !begins(b'{', rest) {
        return Ok((cell, ended(rest)));
    }
    if depth == 0 {
        return Err(Stop::Wrong(place(rest)));
    }
    let inner = symbol(b'{', rest)?;
    let (body, behind) = flip_body(alloc, depth - 1, inner)?;
    let mut flips = cell.flips;
    let flip = named_flip(alloc, names, body)?;
    flips.push(flip)?;
    Ok((
        RawCell {
            kinds: cell.kinds,
            flips,
            pins: cell.pins,
        },
        ended(behind),
    ))
}

// The kinds with a group of a name.
fn kinds_more(kinds: Kinds, name: &[u8]) -> Kinds
    ensures { view.kinds result ≡ spec.kinds_more (view.kinds kinds) name.now }
{
    Kinds {
        has_bus: kinds.has_bus || (name == b"bus".as_slice() || name == b"bundle".as_slice()),
        has_latch: kinds.has_latch
            || (name == b"latch".as_slice() || name == b"latch_bank".as_slice()),
        has_table: kinds.has_table || name == b"statetable".as_slice(),
        has_bank: kinds.has_bank || name == b"ff_bank".as_slice(),
    }
}

// Another group or complex attribute, from behind its `(` on.
fn other_group<'t>(
    depth: usize,
    cell: RawCell,
    name: &[u8],
    text: &'t [u8],
) -> Result<(RawCell, &'t [u8]), Stop>
    requires no_pin { bytes_eq name.now (codes "pin") ≡ false }
    requires no_flip { bytes_eq name.now (codes "ff") ≡ false }
    ensures { reading.Gives (λ x. (view.raw_cell x.0, tokens_of x.1.now)) result (reading.as_value (spec.cell_more (view.raw_cell cell)) (reading.paren_at (reading.body_at depth) name.now (tokens_of text.now))) }
{
    let rest = skip_args(text)?;
    if !begins(b'{', rest) {
        return Ok((cell, ended(rest)));
    }
    let inner = symbol(b'{', rest)?;
    let behind = skip_group(depth, inner)?;
    Ok((
        RawCell {
            kinds: kinds_more(cell.kinds, name),
            flips: cell.flips,
            pins: cell.pins,
        },
        ended(behind),
    ))
}

fn is_pin(name: &[u8]) -> bool
    ensures { result ≡ bytes_eq name.now (codes "pin") }
{
    name == b"pin".as_slice()
}

fn is_flip(name: &[u8]) -> bool
    ensures { result ≡ bytes_eq name.now (codes "ff") }
{
    name == b"ff".as_slice()
}

// A statement of a cell.
fn statement(
    alloc: Global,
    depth: usize,
    cell: RawCell,
    text: &[u8],
) -> Result<(RawCell, &[u8]), Stop>
    ensures { reading.Gives (λ x. (view.raw_cell x.0, tokens_of x.1.now)) result (reading.as_value (spec.cell_more (view.raw_cell cell)) (reading.statement_at (reading.body_at depth) (tokens_of text.now))) }
{
    let ((name, is_open), rest) = start(text)?;
    if !is_open {
        let rest = skip_value(rest)?;
        Ok((cell, rest))
    } else if is_pin(name) {
        pin_group(alloc, depth, cell, rest)
    } else if is_flip(name) {
        flip_group(alloc, depth, cell, rest)
    } else {
        other_group(depth, cell, name, rest)
    }
}

/// What a `cell` group says, and what stands behind its `}`, from behind its `{` on. So many groups may nest in it.
pub(crate) fn cell_body(alloc: Global, depth: usize, text: &[u8]) -> Result<(RawCell, &[u8]), Stop>
    ensures { reading.Gives (λ x. (view.raw_cell x.0, tokens_of x.1.now)) result (reading.as_value (λ ss. read.read_cell (cell_texts ss)) (reading.statements_at (reading.body_at depth) (tokens_of text.now))) }
{
    let mut cell = RawCell {
        kinds: Kinds {
            has_bus: false,
            has_latch: false,
            has_table: false,
            has_bank: false,
        },
        flips: List::new(alloc),
        pins: List::new(alloc),
    };
    let mut rest = text;
    'statements: while !begins(b'}', rest) {
        let (more, behind) = statement(alloc, depth, cell, rest)?;
        cell = more;
        rest = behind;
    }
    let rest = symbol(b'}', rest)?;
    Ok((cell, rest))
}
