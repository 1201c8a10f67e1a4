ghost use Rattle.std.specs.Prelude.{◌≡◌, ◌++◌, ◌∷◌, [], not, IfOk, MatchOption, Some, None, true};
ghost use Rattle.module_rules.specs.Items.{is_among};
ghost use Rattle.module_rules.specs.Rules as spec;

use agm_bits::{Memory, Name};
use name_table::Names;
use std::alloc::Global;

// Whether a name is in a table.
pub(crate) fn is_in(table: &Names, name: &Name) -> bool
    ensures { result ≡ is_among table.now name.now }
{
    table.find(name.as_slice()).is_some()
}

// Adds a name to a table, and says whether it was new.
pub(crate) fn add(table: &mut Names, name: &Name) -> Result<bool, Memory>
    ensures { IfOk result (λ b. (b ≡ not (is_among table.old name.now)) × (b ≡ true → table.new ≡ table.old ++ name.now ∷ [])) }
{
    let place = table.add(name.as_slice())?;
    Ok(place.is_new)
}

// A copy of a name, as one that was found.
pub(crate) fn found(alloc: Global, name: &Name) -> Result<Option<Name>, Memory>
    ensures { IfOk result (λ o. o ≡ Some name.now) }
{
    Ok(Some(Name::from_slice(alloc, name.as_slice())?))
}

// The first of these names that is repeated.
pub(crate) fn first_repeated(alloc: Global, names: &[Name]) -> Result<Option<Name>, Memory>
    ensures { IfOk result (λ o. o ≡ spec.first_repeated [] names.now) }
{
    let mut table = Names::new(alloc);
    for name in names {
        if !add(&mut table, name)? {
            return found(alloc, name);
        }
    }
    Ok(None)
}

// A table of names that differ.
pub(crate) fn table_of(alloc: Global, names: &[Name]) -> Result<Names, Memory>
    requires { spec.first_repeated [] names.now ≡ None }
    ensures { IfOk result (λ t. t ≡ names.now) }
{
    let mut table = Names::new(alloc);
    for name in names {
        let _ = add(&mut table, name)?;
    }
    Ok(table)
}
