ghost use Rattle.std.specs.Prelude.{◌≡◌, ℕ, List, IfOk, map, true, false, codes};
ghost use Rattle.std.specs.List.{list_all};
ghost use Rattle.std.specs.Str.{bytes_eq};
ghost use Rattle.liberty_text.specs.Tokens.{tokens_of};
ghost use Rattle.liberty_statements.specs.Reading as reading;
ghost use Rattle.cell_library.specs.Answers.{IfNamed, Reads};
ghost use Rattle.cell_library.specs.Found.{raw_name};
ghost use Rattle.cell_library.specs.Judged.{PlainCell};
ghost use Rattle.cell_library.specs.Kept.{is_kept};
ghost use Rattle.cell_library.specs.Spelled.{Spelled, cell_of};
ghost use Rattle.cell_library.specs.Steps as spec;
ghost use Rattle.cell_library.specs.View as view;

use crate::build::cell;
use crate::cell::cell_body;
use crate::library::{Library, add_name};
use crate::raw::RawCell;
use crate::types::{Cell, CellCause};
use agm_bits::{List, Memory, Name};
use liberty_statements::{
    Stop, arg_names, begins, ended, skip_args, skip_group, skip_value, start, symbol,
};
use liberty_text::{Token, front, is_at_end, place};
use name_table::Names;
use std::alloc::Global;

/// Why bytes give no library.
#[derive(Debug, Drop)]
pub enum LibraryFault {
    /// The bytes spell no library. `at` is the place where the first wrong token begins, or the number of bytes.
    Syntax { at: usize },
    /// The first cell whose name an earlier cell has, or whose name is reserved.
    Cell { name: Name, cause: CellCause },
    Memory,
}

impl From<Memory> for LibraryFault {
    ghost use Rattle.cell_library.specs.declared.read.LibraryFault.TheVariants.{Memory as WantOfMemory};

    ghost from_gives = { λ _ e. e ≡ WantOfMemory };

    fn from(_: Memory) -> Self {
        LibraryFault::Memory
    }
}

/// How many groups may nest in a library, itself not counted.
const INNER_GROUPS: usize = 99;

// The cells with one more, where a name is given.
fn add_cell(
    alloc: Global,
    cells: List<Cell>,
    names: &[Name],
    raw: &RawCell,
) -> Result<List<Cell>, Memory>
    ensures { IfOk result (λ cs. map cell_of cs ≡ spec.cells_named (map cell_of cells) names.now (view.raw_cell raw.now)) }
{
    match names {
        [name, ..] => {
            let name = Name::from_slice(alloc, name.as_slice())?;
            let next = cell(alloc, name, raw)?;
            let mut cells = cells;
            cells.push(next)?;
            Ok(cells)
        }
        [] => Ok(cells),
    }
}

// The cells that a `cell` group gives, from behind its `(` on.
fn cell_group(
    alloc: Global,
    depth: usize,
    cells: List<Cell>,
    text: &[u8],
) -> Result<(List<Cell>, &[u8]), Stop>
    ensures { reading.Gives (λ x. (map cell_of x.0, tokens_of x.1.now)) result (reading.as_value (spec.cells_more (map cell_of cells)) (reading.paren_at (reading.body_at depth) (codes "cell") (tokens_of text.now))) }
{
    let (names, rest) = arg_names(alloc, text)?;
    if !begins(b'{', rest) {
        return Ok((cells, ended(rest)));
    }
    if depth == 0 {
        return Err(Stop::Wrong(place(rest)));
    }
    let inner = symbol(b'{', rest)?;
    let (body, behind) = cell_body(alloc, depth - 1, inner)?;
    let more = add_cell(alloc, cells, names.as_slice(), &body)?;
    Ok((more, ended(behind)))
}

fn is_cell(name: &[u8]) -> bool
    ensures { result ≡ bytes_eq name.now (codes "cell") }
{
    name == b"cell".as_slice()
}

// Another group or complex attribute, from behind its `(` on.
fn other_group<'t>(
    depth: usize,
    cells: List<Cell>,
    name: &[u8],
    text: &'t [u8],
) -> Result<(List<Cell>, &'t [u8]), Stop>
    requires { bytes_eq name.now (codes "cell") ≡ false }
    ensures { reading.Gives (λ x. (map cell_of x.0, tokens_of x.1.now)) result (reading.as_value (spec.cells_more (map cell_of cells)) (reading.paren_at (reading.body_at depth) name.now (tokens_of text.now))) }
{
    let rest = skip_args(text)?;
    if !begins(b'{', rest) {
        return Ok((cells, ended(rest)));
    }
    let inner = symbol(b'{', rest)?;
    let behind = skip_group(depth, inner)?;
    Ok((cells, ended(behind)))
}

// A statement of a library.
fn statement(
    alloc: Global,
    depth: usize,
    cells: List<Cell>,
    text: &[u8],
) -> Result<(List<Cell>, &[u8]), Stop>
    ensures { reading.Gives (λ x. (map cell_of x.0, tokens_of x.1.now)) result (reading.as_value (spec.cells_more (map cell_of cells)) (reading.statement_at (reading.body_at depth) (tokens_of text.now))) }
{
    let ((name, is_open), rest) = start(text)?;
    if !is_open {
        let rest = skip_value(rest)?;
        Ok((cells, rest))
    } else if is_cell(name) {
        cell_group(alloc, depth, cells, rest)
    } else {
        other_group(depth, cells, name, rest)
    }
}

// The cells of a library, and what stands behind its `}`, from behind its `{` on.
fn library_body(alloc: Global, depth: usize, text: &[u8]) -> Result<(List<Cell>, &[u8]), Stop>
    ensures { reading.Gives (λ x. (map cell_of x.0, tokens_of x.1.now)) result (reading.as_value spec.cells_in (reading.statements_at (reading.body_at depth) (tokens_of text.now))) }
{
    let mut cells = List::new(alloc);
    let mut rest = text;
    'statements: while !begins(b'}', rest) {
        let (more, behind) = statement(alloc, depth, cells, rest)?;
        cells = more;
        rest = behind;
    }
    let rest = symbol(b'}', rest)?;
    Ok((cells, rest))
}

// What stands behind the word `library` and `(`.
fn keyword(text: &[u8]) -> Result<&[u8], Stop>
    ensures { reading.Gives (λ r. tokens_of r.now) result (spec.keyword_at (tokens_of text.now)) }
{
    match front(text) {
        Some((Token::Word(word), rest)) if word == b"library".as_slice() => symbol(b'(', rest),
        _ => Err(Stop::Wrong(place(text))),
    }
}

// What stands behind `library ( args ) {`.
#[tactic(auto, unfolding(crate::specs::Steps::head_at))]
fn head(text: &[u8]) -> Result<&[u8], Stop>
    ensures { reading.Gives (λ r. tokens_of r.now) result (spec.head_at (tokens_of text.now)) }
{
    let rest = keyword(text)?;
    let rest = skip_args(rest)?;
    symbol(b'{', rest)
}

// The cells that a whole text spells.
#[tactic(auto, unfolding(crate::specs::Steps::library_at))]
fn spelled(alloc: Global, text: &[u8]) -> Result<List<Cell>, Stop>
    ensures { reading.Gives (λ cs. map cell_of cs) result (spec.library_at (tokens_of text.now)) }
{
    let inner = head(text)?;
    let (cells, behind) = library_body(alloc, INNER_GROUPS, inner)?;
    let rest = ended(behind);
    if is_at_end(rest) {
        Ok(cells)
    } else {
        Err(Stop::Wrong(place(rest)))
    }
}

// The library of these cells.
fn library(alloc: Global, cells: List<Cell>) -> Result<Library, LibraryFault>
    requires { list_all is_kept (map cell_of cells) ≡ true }
    ensures { IfNamed (map raw_name cells) cells result }
{
    let mut names = Names::new(alloc);
    for cell in cells.as_slice() {
        if let Some(cause) = add_name(&mut names, &cell.name)? {
            let name = Name::from_slice(alloc, cell.name.as_slice())?;
            return Err(LibraryFault::Cell { name, cause });
        }
    }
    Ok(Library::new(cells, names))
}

/// Reads a Liberty cell library.
///
/// Takes near linear time. Nothing is kept of what is read over.
///
/// # Errors
///
/// `Syntax` where the bytes spell no library, `Cell` where a cell's name is repeated or reserved, and `Memory` where
/// memory runs out.
pub fn read_library(alloc: Global, bytes: &[u8]) -> Result<Library, LibraryFault>
    ensures { Reads bytes.now result }
{
    match spelled(alloc, bytes) {
        Ok(cells) => library(alloc, cells),
        Err(Stop::Wrong(left)) => Err(LibraryFault::Syntax {
            at: bytes.len().saturating_sub(left),
        }),
        Err(Stop::Memory) => Err(LibraryFault::Memory),
    }
}

/// No text spells two libraries.
pub fn one_library()
    ensures { (bytes : List ℕ) (cells more : List PlainCell) → Spelled bytes cells → Spelled bytes more → cells ≡ more }
{}
