//! The bytes of a file as a tree over its text, which contracts see as the data that `serde_json` makes of it.
ghost use Rattle.std.specs.Prelude.{◌≡◌, IfOk, option_map, option_and_then};
ghost use Rattle.json.specs.Json.{if_last, value};
ghost use Rattle.json.specs.Lex.{tokens};
ghost use Rattle.json.specs.Value.{value_view, items_view, members_view};
ghost use Rattle.serde_json.specs.Read.{max_depth, read};
ghost use Rattle.query_json.specs.Answer.{GivesBy};
ghost use Rattle.query_json.specs.Walk.Tree.{items_fit, members_fit, numbers_fit, seen};
ghost use Rattle.query_json.specs.Walk.{json_at, or_not_json};

use crate::fault::FileFault;
use crate::walk::number::fits;
use json::{Error, Reader, Scratch, Value};
use std::alloc::{AllocError, Global};

/// How deep arrays and objects may nest.
const DEPTH_MAX: usize = 127;

#[cycle(fit)]
fn numbers_fit(value: &Value) -> bool
    ensures { result ≡ numbers_fit (value_view value.now) }
{
    match value {
        Value::Number(text) => fits(*text),
        Value::Array(items) => items_fit(items),
        Value::Object(members) => members_fit(members),
        _ => true,
    }
}

#[cycle(fit)]
fn items_fit<'a>(items: &Vec<Value<'a>>) -> bool
    ensures { result ≡ items_fit (items_view items.now.items) }
{
    for item in items {
        if !numbers_fit(item) {
            return false;
        }
    }
    true
}

#[cycle(fit)]
fn members_fit<'a>(members: &Vec<(&'a str, Value<'a>)>) -> bool
    ensures { result ≡ members_fit (members_view members.now.items) }
{
    for member in members {
        if !numbers_fit(&member.1) {
            return false;
        }
    }
    true
}

// The one value of a text, if it is one that nests as deep as it may.
fn parsed<'a>(
    alloc: Global,
    text: &'a str,
    scratch: &'a mut Scratch,
) -> Result<Option<Value<'a>>, AllocError>
    ensures { IfOk result (λ o. option_map value_view o
        ≡ option_and_then (λ p. if_last p.0 p.1) (value max_depth (tokens text.now))) }
{
    let mut reader = Reader::new(text, scratch)?;
    let value = match Value::read(alloc, &mut reader, DEPTH_MAX) {
        Ok(value) => value,
        Err(Error::OutOfMemory) => return Err(AllocError),
        Err(_) => return Ok(None),
    };
    match reader.next() {
        None => Ok(Some(value)),
        Some(_) => Ok(None),
    }
}

// The tree of a text, if it has one in which each number has a value.
fn tree_in<'a>(
    alloc: Global,
    text: &'a str,
    scratch: &'a mut Scratch,
) -> Result<Value<'a>, FileFault>
    ensures { GivesBy seen result (or_not_json (read text.now)) }
{
    let Some(value) = parsed(alloc, text, scratch)? else {
        return Err(FileFault::NotJson);
    };
    if !numbers_fit(&value) {
        return Err(FileFault::NotJson);
    }
    Ok(value)
}

/// The tree of a file's bytes. A string without escapes is a part of the bytes, and any other is one of the scratch.
#[tactic(auto, using(crate::proofs::JsonLaws::json_text, crate::proofs::JsonLaws::json_none))]
pub fn tree_of<'a>(
    alloc: Global,
    bytes: &'a [u8],
    scratch: &'a mut Scratch,
) -> Result<Value<'a>, FileFault>
    ensures { GivesBy seen result (json_at bytes.now) }
{
    match simdutf8::compat::from_utf8(bytes) {
        Ok(text) => tree_in(alloc, text, scratch),
        Err(_) => Err(FileFault::NotJson),
    }
}
