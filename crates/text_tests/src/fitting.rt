//! Whether a module can be written as a small text.

ghost use Rattle.std.specs.Prelude.{◌≡◌, true};
ghost use Rattle.std.specs.List.{list_all};
ghost use Rattle.agm_net.specs.Checks as checks;
ghost use Rattle.agm_net.specs.Writable.{is_graphic as graphic};
ghost use Rattle.small_text.specs.Grammar.{IsSmall, HasWritableNames};
ghost use Rattle.text_tests.specs.Fits as spec;

use agm_bits::Name;
use agm_net::{Mark, Range};
use small_text::{Bit, Declaration, Item, Small, Source};

const MOST: u32 = 65_535;

fn is_graphic(b: u8) -> bool
    ensures { result ≡ graphic b }
{
    33 <= b && b <= 126
}

fn are_graphic(bytes: &[u8]) -> bool
    ensures { result ≡ list_all graphic bytes.now }
{
    bytes.iter().all(|b| is_graphic(*b))
}

fn is_writable(name: &[u8]) -> bool
    ensures { result ≡ checks.is_writable name.now }
{
    !name.is_empty() && are_graphic(name)
}

fn are_writable(names: &[Name]) -> bool
    ensures { result ≡ list_all checks.is_writable names.now }
{
    names.iter().all(|n| is_writable(n.as_slice()))
}

fn index_fits(index: Option<u32>) -> bool
    ensures { result ≡ spec.index_fits index }
{
    match index {
        Some(index) => index <= MOST,
        None => true,
    }
}

fn range_fits(range: Option<Range>) -> bool
    ensures { result ≡ checks.range_fits range }
{
    match range {
        Some(range) => range.msb <= MOST && range.lsb <= MOST,
        None => true,
    }
}

fn bit_fits(bit: &Bit) -> bool
    ensures { result ≡ spec.bit_fits bit.now }
{
    is_writable(bit.name.as_slice()) && index_fits(bit.index)
}

fn source_fits(source: &Source) -> bool
    ensures { result ≡ spec.source_fits source.now }
{
    match source {
        Source::Bit(bit) => bit_fits(bit),
        Source::Constant(_) => true,
    }
}

fn mark_fits(mark: Mark) -> bool
    ensures { result ≡ spec.mark_fits mark }
{
    match mark {
        Mark::Public => false,
        _ => true,
    }
}

fn declaration_fits(declaration: &Declaration) -> bool
    ensures { result ≡ spec.declaration_fits declaration.now }
{
    match declaration {
        Declaration::Port {
            mark,
            range,
            name,
            ..
        } => mark_fits(*mark) && (range_fits(*range) && is_writable(name.as_slice())),
        Declaration::Wires(names) => !names.as_slice().is_empty() && are_writable(names.as_slice()),
    }
}

fn declarations_fit(declarations: &[Declaration]) -> bool
    ensures { result ≡ list_all spec.declaration_fits declarations.now }
{
    declarations.iter().all(|d| declaration_fits(d))
}

fn pins_fit(a: &Bit, b: &Bit, c: &Bit) -> bool
    ensures { result ≡ spec.pins_fit a.now b.now c.now }
{
    bit_fits(a) && (bit_fits(b) && bit_fits(c))
}

fn item_fits(item: &Item) -> bool
    ensures { result ≡ spec.item_fits item.now }
{
    match item {
        Item::Assign { target, source } => bit_fits(target) && source_fits(source),
        Item::Not { name, a, y } => is_writable(name.as_slice()) && (bit_fits(a) && bit_fits(y)),
        Item::Xor { name, a, b, y } => is_writable(name.as_slice()) && pins_fit(a, b, y),
        Item::And { name, a, b, y } => is_writable(name.as_slice()) && pins_fit(a, b, y),
        Item::Register { name, c, d, q } => is_writable(name.as_slice()) && pins_fit(c, d, q),
    }
}

fn items_fit(items: &[Item]) -> bool
    ensures { result ≡ list_all spec.item_fits items.now }
{
    items.iter().all(|item| item_fits(item))
}

fn parts_fit(small: &Small) -> bool
    ensures { result ≡ spec.small_fits small.now }
{
    (is_writable(small.name.as_slice()) && !small.ports.as_slice().is_empty())
        && (are_writable(small.ports.as_slice())
            && (declarations_fit(small.declarations.as_slice())
                && items_fit(small.items.as_slice())))
}

/// Whether a module is within the limits of the small form and its names can be written.
#[tactic(auto, using(crate::proofs::Fits::small_so))]
pub(crate) fn small_fits(small: &Small) -> bool
    ensures { result ≡ true → IsSmall small.now × HasWritableNames small.now }
{
    parts_fit(small)
}
