ghost use Rattle.std.specs.Prelude.{◌≡◌, [], ◌∷◌, map};
ghost use Rattle.verilog_tokens.specs.Row.{tokens_of};
ghost use Rattle.verilog_reader.specs.Reading as spec;
ghost use Rattle.verilog_reader.specs.View.{module_view, design_view};

use crate::attributes::attributes;
use crate::items::items;
use crate::ports::ports;
use crate::stop::Stop;
use crate::terminals::{ident, is_more, key, symbol};
use crate::{Design, Module};
use agm_bits::{List, Name};
use std::alloc::Global;

// A module.
#[tactic(auto, unfolding(crate::specs::Reading::module_at))]
fn module(alloc: Global, bytes: &[u8]) -> Result<(Module, &[u8]), Stop>
    ensures { spec.Gives (λ x. (module_view x.0, tokens_of x.1.now)) result (spec.module_at (tokens_of bytes.now)) }
{
    let (attributes, rest) = attributes(alloc, bytes)?;
    let rest = key(b"module", rest)?;
    let (name, rest) = ident(rest)?;
    let (ports, rest) = ports(alloc, rest)?;
    let rest = symbol(b';', rest)?;
    let (items, rest) = items(ports.items, alloc, rest)?;
    let rest = key(b"endmodule", rest)?;
    let name = Name::from_slice(alloc, name)?;
    Ok((
        Module {
            name,
            attributes,
            ports: ports.names,
            items,
        },
        rest,
    ))
}

// A first module, and further ones up to the end.
fn more_modules(alloc: Global, first: Module, bytes: &[u8]) -> Result<(List<Module>, &[u8]), Stop>
    ensures { spec.Gives (λ x. (map module_view x.0, tokens_of x.1.now)) result (spec.with_front (module_view first ∷ []) (spec.many_at spec.single spec.is_more spec.module_at (tokens_of bytes.now))) }
{
    let mut modules = List::new(alloc);
    modules.push(first)?;
    let mut rest = bytes;
    for _ in 0..bytes.len() {
        if !is_more(rest) {
            return Ok((modules, rest));
        }
        let (next, behind) = module(alloc, rest)?;
        modules.push(next)?;
        rest = behind;
    }
    Ok((modules, rest))
}

// One or more modules.
#[tactic(auto, unfolding(crate::specs::Reading::modules_at))]
fn modules(alloc: Global, bytes: &[u8]) -> Result<(List<Module>, &[u8]), Stop>
    ensures { spec.Gives (λ x. (map module_view x.0, tokens_of x.1.now)) result (spec.modules_at (tokens_of bytes.now)) }
{
    let (first, rest) = module(alloc, bytes)?;
    more_modules(alloc, first, rest)
}

// A whole design.
#[tactic(auto, unfolding(crate::specs::Reading::design_at))]
pub(crate) fn design(alloc: Global, bytes: &[u8]) -> Result<Design, Stop>
    ensures { spec.Gives design_view result (spec.design_at (tokens_of bytes.now)) }
{
    let (modules, rest) = modules(alloc, bytes)?;
    if is_more(rest) {
        return Err(Stop::Wrong(rest.len()));
    }
    Ok(Design { modules })
}
