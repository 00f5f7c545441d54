//! The value of a file's bytes.
ghost use Rattle.std.specs.Prelude.{◌≡◌, IfOk, option_map};
ghost use Rattle.serde_json.specs.View.{view};
ghost use Rattle.query_json.specs.Walk.{json_of};

use serde_json::Value;
use std::alloc::{AllocError, Global};

/// The value of a file's bytes, if they are JSON in UTF-8.
#[tactic(auto, using(crate::proofs::ByteLaws::text_value, crate::proofs::ByteLaws::no_value))]
pub fn value_of(alloc: Global, bytes: &[u8]) -> Result<Option<Value>, AllocError>
    ensures { IfOk result (λ o. option_map view o ≡ json_of bytes.now) }
{
    match Value::from_slice(alloc, bytes) {
        Ok(value) => Ok(Some(value)),
        Err(error) => {
            if error.is_memory() {
                return Err(AllocError);
            }
            Ok(None)
        }
    }
}
