use agm_bits::Name;
use agm_net::Range;

/// A declared name with its range.
#[derive(Debug, Drop)]
pub struct Wide {
    pub name: Name,
    pub range: Option<Range>,
}
