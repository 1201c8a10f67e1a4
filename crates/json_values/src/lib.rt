//! JSON values of bytes.
#![tactic(auto)]

ghost use Rattle.std.specs.Prelude.{◌≡◌, ◌⊎◌, IfOk, IfErr, Some, None};
ghost use Rattle.serde_json.specs.View.{view};
ghost use Rattle.json_values.specs.Json.{json_of};
ghost use Rattle.json_values.specs.declared.JsonFault.TheVariants as fault;

mod members;

pub use members::{only_member, two_members, whole_number};
use serde_json::Value;
use std::alloc::Global;

/// Why bytes give no JSON value.
#[derive(Clone, Copy, Debug, PartialEq, Eq)]
pub enum JsonFault {
    /// They are no JSON in UTF-8 (RFC 8259), or nest more than 127 deep.
    NoJson,
    /// Want of memory.
    Memory,
}

/// Reads the JSON value that bytes are.
///
/// # Errors
///
/// `NoJson` exactly where they are none, and `Memory` where memory runs out.
pub fn json_value(alloc: Global, bytes: &[u8]) -> Result<Value, JsonFault>
    ensures ok { IfOk result (λ v. json_of bytes.now ≡ Some (view v)) }
    ensures err { IfErr result (λ f. (f ≡ fault.Memory) ⊎ ((json_of bytes.now ≡ None) × (f ≡ fault.NoJson))) }
{
    match Value::from_slice(alloc, bytes) {
        Ok(value) => Ok(value),
        Err(error) => {
            if error.is_memory() {
                Err(JsonFault::Memory)
            } else {
                Err(JsonFault::NoJson)
            }
        }
    }
}
