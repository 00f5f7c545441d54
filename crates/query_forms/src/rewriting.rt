//! Rewriting a whole file.
ghost use Rattle.std.specs.Prelude.{◌≡◌, ◌≤◌, IfOk, List, Ok, false};
ghost use Rattle.serde_json.specs.Data.{depth};
ghost use Rattle.serde_json.specs.View.{view};
ghost use Rattle.serde_json.specs.Written.{has_float};
ghost use Rattle.query_json.specs.declared.entry.Entry.{Entry};
ghost use Rattle.query_json.specs.Answer.{GivesBy};
ghost use Rattle.query_json.specs.Entries.{entries_of};
ghost use Rattle.query_forms.specs.Rewriting.{rewritten, rewritten_text};

use crate::objects::{rewritten_file, write_file};
use crate::text::Text;
use json::Scratch;
use query_json::{FileFault, read_node, read_value, tree_of};
use serde_json::Value;
use std::alloc::Global;

/// The value of a workload file in version 2: the object with the members of the format that are there, and no others.
///
/// A member that is null counts as absent. A fraction [n, d] with 1 ≤ n ≤ d and d a power of ten up to 10^12 is a decimal
/// text of as many digits after the point as d has zeros, and any other is the array of its two numbers. Fails as
/// [`read_value`](query_json::read_value) does, with the first fault of the value or where there is no memory.
#[tactic(auto, unfolding(crate::specs::Rewriting::rewritten))]
pub fn rewritten(alloc: Global, value: &Value) -> Result<Value, FileFault>
    ensures value { GivesBy view result (rewritten (view value.now)) }
    ensures whole_numbers { IfOk result (λ v. has_float (view v) ≡ false) }
    ensures shallow { IfOk result (λ v. depth (view v) ≤ 6) }
{
    let _workload = read_value(alloc, value)?;
    Ok(rewritten_file(alloc, value)?)
}

/// The compact text of a workload file in version 2, which [`rewritten`] describes.
///
/// The text holds the same entries as the file, and stays as it is when it is rewritten.
/// Fails as [`read`](query_json::read) does, with the first fault of the text or where there is no memory.
#[tactic(auto, unfolding(crate::specs::Rewriting::rewritten_text, query_json::specs::Walk::json_at))]
pub fn rewrite(alloc: Global, bytes: &[u8]) -> Result<Vec<u8>, FileFault>
    ensures text { GivesBy (λ text. text.items) result (rewritten_text bytes.now) }
    ensures same { IfOk result (λ text. (entries : List Entry) × (entries_of bytes.now ≡ Ok entries) × (entries_of text.items ≡ Ok entries)) }
    ensures again { IfOk result (λ text. rewritten_text text.items ≡ Ok text.items) }
{
    let mut scratch = Scratch::new(alloc);
    let root = tree_of(alloc, bytes, &mut scratch)?;
    read_node(alloc, &root)?;
    let mut out = Text::with_capacity(alloc, bytes.len())?;
    write_file(alloc, &mut out, &root)?;
    Ok(out.into_bytes())
}
