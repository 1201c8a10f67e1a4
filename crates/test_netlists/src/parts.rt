//! Parts of nets, made from rows of tables.

use agm_bits::{List, Memory, Name};
use agm_net::{Port, Range, Way};
use std::alloc::Global;

/// A port: its name, way, range and bits.
pub type PortRow<'t> = (&'t str, Way, Option<Range>, &'t [usize]);

/// The names of texts.
///
/// # Errors
///
/// `Memory` where memory runs out.
pub fn names_of(alloc: Global, texts: &[&str]) -> Result<List<Name>, Memory> {
    let mut names = List::new(alloc);
    for text in texts {
        names.push(Name::from_slice(alloc, text.as_bytes())?)?;
    }
    Ok(names)
}

fn port_of(alloc: Global, row: PortRow<'_>) -> Result<Port, Memory> {
    let (name, way, range, bits) = row;
    let name = Name::from_slice(alloc, name.as_bytes())?;
    let bits = List::from_slice(alloc, bits)?;
    Ok(Port {
        name,
        way,
        range,
        bits,
    })
}

/// The ports of rows.
///
/// # Errors
///
/// `Memory` where memory runs out.
pub fn ports_of(alloc: Global, rows: &[PortRow<'_>]) -> Result<List<Port>, Memory> {
    let mut ports = List::new(alloc);
    for row in rows {
        ports.push(port_of(alloc, *row)?)?;
    }
    Ok(ports)
}
