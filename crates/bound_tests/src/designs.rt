//! Designs of texts.

use std::alloc::Global;
use std::test::Fail;
use verilog_reader::{Design, read_design};

/// The design of a text, which is to have one.
pub(crate) fn design_of(alloc: Global, text: &str) -> Result<Design, Fail> {
    match read_design(alloc, text.as_bytes()) {
        Ok(design) => Ok(design),
        Err(_) => Err(Fail::from("no design")),
    }
}
