ghost use Rattle.std.specs.Prelude.{◌≡◌, map};
ghost use Rattle.verilog_tokens.specs.Row.{tokens_of};
ghost use Rattle.verilog_reader.specs.Reading as spec;
ghost use Rattle.verilog_reader.specs.View.{form_view};

use crate::Form;
use crate::stop::Stop;
use crate::terminals::{begins, begins_number, behind, ident, number, symbol};
use agm_bits::{List, Name};
use std::alloc::Global;
use verilog_tokens::{Lexeme, based_bits, decimal_bits, next};

// `]`, behind `name [ number`.
#[tactic(auto, unfolding(crate::specs::Reading::bit_at))]
fn bit<'t>(
    alloc: Global,
    name: &[u8],
    index: u32,
    bytes: &'t [u8],
) -> Result<(Form, &'t [u8]), Stop>
    ensures { spec.Gives (λ x. (form_view x.0, tokens_of x.1.now)) result (spec.bit_at name.now index (tokens_of bytes.now)) }
{
    let rest = symbol(b']', bytes)?;
    Ok((Form::Bit(Name::from_slice(alloc, name)?, index), rest))
}

// `number ]`, behind `name [ number :`.
#[tactic(auto, unfolding(crate::specs::Reading::part_at))]
fn part<'t>(
    alloc: Global,
    name: &[u8],
    high: u32,
    bytes: &'t [u8],
) -> Result<(Form, &'t [u8]), Stop>
    ensures { spec.Gives (λ x. (form_view x.0, tokens_of x.1.now)) result (spec.part_at name.now high (tokens_of bytes.now)) }
{
    let (low, rest) = number(0, bytes)?;
    let rest = symbol(b']', rest)?;
    Ok((Form::Part(Name::from_slice(alloc, name)?, high, low), rest))
}

// The end of a select, behind `name [ number`.
fn bit_or_part<'t>(
    alloc: Global,
    name: &[u8],
    index: u32,
    bytes: &'t [u8],
) -> Result<(Form, &'t [u8]), Stop>
    ensures { spec.Gives (λ x. (form_view x.0, tokens_of x.1.now)) result (spec.bit_or_part_at name.now index (tokens_of bytes.now)) }
{
    match behind(b':', bytes) {
        Some(rest) => part(alloc, name, index, rest),
        None => bit(alloc, name, index, bytes),
    }
}

// A select, behind `name [`.
#[tactic(auto, unfolding(crate::specs::Reading::index_at))]
fn index<'t>(alloc: Global, name: &[u8], bytes: &'t [u8]) -> Result<(Form, &'t [u8]), Stop>
    ensures { spec.Gives (λ x. (form_view x.0, tokens_of x.1.now)) result (spec.index_at name.now (tokens_of bytes.now)) }
{
    let (index, rest) = number(0, bytes)?;
    bit_or_part(alloc, name, index, rest)
}

// A select, where there is one, behind a name.
fn select<'t>(alloc: Global, name: &[u8], bytes: &'t [u8]) -> Result<(Form, &'t [u8]), Stop>
    ensures { spec.Gives (λ x. (form_view x.0, tokens_of x.1.now)) result (spec.select_at name.now (tokens_of bytes.now)) }
{
    match behind(b'[', bytes) {
        Some(rest) => index(alloc, name, rest),
        None => Ok((Form::Whole(Name::from_slice(alloc, name)?), bytes)),
    }
}

// A name, with a select or without.
#[tactic(auto, unfolding(crate::specs::Reading::name_at))]
fn name(alloc: Global, bytes: &[u8]) -> Result<(Form, &[u8]), Stop>
    ensures { spec.Gives (λ x. (form_view x.0, tokens_of x.1.now)) result (spec.name_at (tokens_of bytes.now)) }
{
    let (name, rest) = ident(bytes)?;
    select(alloc, name, rest)
}

// A constant or a name.
#[tactic(auto, unfolding(crate::specs::Reading::name_at))]
fn value(alloc: Global, bytes: &[u8]) -> Result<(Form, &[u8]), Stop>
    ensures { spec.Gives (λ x. (form_view x.0, tokens_of x.1.now)) result (spec.constant_or_name_at (tokens_of bytes.now)) }
{
    match next(bytes) {
        Some((Lexeme::Name(name), rest)) => select(alloc, name, rest),
        Some((Lexeme::Decimal(size, value), rest)) => {
            Ok((Form::Constant(decimal_bits(alloc, size, value)?), rest))
        }
        Some((Lexeme::Based(size, width, digits), rest)) => Ok((
            Form::Constant(based_bits(alloc, size, width, digits)?),
            rest,
        )),
        _ => name(alloc, bytes),
    }
}

// A name, or a constant where values may stand.
fn leaf(alloc: Global, values: bool, bytes: &[u8]) -> Result<(Form, &[u8]), Stop>
    ensures { spec.Gives (λ x. (form_view x.0, tokens_of x.1.now)) result (spec.leaf_at values (tokens_of bytes.now)) }
{
    if values {
        value(alloc, bytes)
    } else {
        name(alloc, bytes)
    }
}

// A form in which braces nest at most so deep; constants and replications stand where values may.
#[cycle(form)]
pub(crate) fn form(
    alloc: Global,
    values: bool,
    depth: u32,
    bytes: &[u8],
) -> Result<(Form, &[u8]), Stop>
    ensures { spec.Gives (λ x. (form_view x.0, tokens_of x.1.now)) result (spec.form_at values depth (tokens_of bytes.now)) }
{
    if depth == 0 {
        return leaf(alloc, values, bytes);
    }
    match behind(b'{', bytes) {
        Some(rest) => braces(alloc, values, depth - 1, rest),
        None => leaf(alloc, values, bytes),
    }
}

// A concatenation or a replication, behind its brace.
#[cycle(form)]
fn braces(alloc: Global, values: bool, depth: u32, bytes: &[u8]) -> Result<(Form, &[u8]), Stop>
    ensures { spec.Gives (λ x. (form_view x.0, tokens_of x.1.now)) result (spec.braces_at values (spec.form_at values depth) (tokens_of bytes.now)) }
{
    if values && begins_number(bytes) {
        repeat(alloc, values, depth, bytes)
    } else {
        join(alloc, values, depth, bytes)
    }
}

// `number { form } }`, behind a brace.
#[cycle(form)]
#[tactic(auto, unfolding(crate::specs::Reading::repeat_at))]
fn repeat(alloc: Global, values: bool, depth: u32, bytes: &[u8]) -> Result<(Form, &[u8]), Stop>
    ensures { spec.Gives (λ x. (form_view x.0, tokens_of x.1.now)) result (spec.repeat_at (spec.form_at values depth) (tokens_of bytes.now)) }
{
    let (times, rest) = number(1, bytes)?;
    let rest = symbol(b'{', rest)?;
    let (inner, rest) = form(alloc, values, depth, rest)?;
    let rest = symbol(b'}', rest)?;
    let rest = symbol(b'}', rest)?;
    Ok((Form::Repeat(times, Box::new(alloc, inner)?), rest))
}

// `form { , form } }`, behind a brace.
#[cycle(form)]
#[tactic(auto, unfolding(crate::specs::Reading::join_at))]
fn join(alloc: Global, values: bool, depth: u32, bytes: &[u8]) -> Result<(Form, &[u8]), Stop>
    ensures { spec.Gives (λ x. (form_view x.0, tokens_of x.1.now)) result (spec.join_at (spec.form_at values depth) (tokens_of bytes.now)) }
{
    let (forms, rest) = forms(alloc, values, depth, bytes)?;
    let rest = symbol(b'}', rest)?;
    Ok((Form::Join(forms), rest))
}

// `form { , form }`.
#[cycle(form)]
#[tactic(auto, unfolding(crate::specs::Reading::listed_at))]
fn forms(alloc: Global, values: bool, depth: u32, bytes: &[u8]) -> Result<(List<Form>, &[u8]), Stop>
    ensures { spec.Gives (λ x. (map form_view x.0, tokens_of x.1.now)) result (spec.listed_at (spec.form_at values depth) (tokens_of bytes.now)) }
{
    let (first, behind) = form(alloc, values, depth, bytes)?;
    let mut forms = List::new(alloc);
    forms.push(first)?;
    let mut rest = behind;
    for _ in 0..behind.len() {
        if !begins(b',', rest) {
            return Ok((forms, rest));
        }
        let (next, after) = next_form(alloc, values, depth, rest)?;
        forms.push(next)?;
        rest = after;
    }
    Ok((forms, rest))
}

// `, form`.
#[cycle(form)]
#[tactic(auto, unfolding(crate::specs::Reading::next_at))]
fn next_form(alloc: Global, values: bool, depth: u32, bytes: &[u8]) -> Result<(Form, &[u8]), Stop>
    ensures { spec.Gives (λ x. (form_view x.0, tokens_of x.1.now)) result (spec.next_at (spec.form_at values depth) (tokens_of bytes.now)) }
{
    let rest = symbol(b',', bytes)?;
    form(alloc, values, depth, rest)
}
