use agm_bits::Name;
use cell_library::Cell;
use form_bits::Bit;

/// An instance of a cell, with the bit at each of its pins and that of its state, where there is one.
#[derive(Clone, Copy)]
pub(crate) struct Site<'c> {
    pub(crate) instance: &'c Name,
    pub(crate) cell: &'c Cell,
    pub(crate) bits: &'c [Option<Bit>],
    pub(crate) state: Option<Bit>,
}
