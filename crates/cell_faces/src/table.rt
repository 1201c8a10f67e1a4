use agm_bits::List;
use form_bits::Scope;
use name_table::Names;

/// Cells by their names, each with its pins at the same place.
#[derive(Debug, Drop)]
pub struct Cells {
    pub names: Names,
    pub faces: List<Scope>,
}
