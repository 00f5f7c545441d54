//! The members of an object that is written anew.
ghost use Rattle.std.specs.Prelude.{◌≡◌, ◌++◌, IfOk, OnOk, map, option_map};
ghost use Rattle.serde_json.specs.Data.{Data};
ghost use Rattle.serde_json.specs.Find.{get};
ghost use Rattle.serde_json.specs.View.{view, items_of, items_view, members_view};
ghost use Rattle.query_forms.specs.Forms.{count_in, each_item, list_in, text_in, with_member};
ghost use Rattle.query_forms.specs.Tokens.{tokens_of, tokens_of_items, tokens_of_member};

use crate::text::Text;
use query_json::Node;
use serde_json::{Map, Value};
use std::alloc::{AllocError, Global};

/// A kind of object of the format.
pub trait Object: Drop {
    ghost rewrites: { Data → Data };

    /// Writes the object in version 2.
    fn write<N: Node>(alloc: Global, out: &mut Text, node: &N) -> Result<(), AllocError>
    where
        Self: Sized,
        ensures { OnOk result (out.new ≡ out.old ++ tokens_of (rewrites (N.as_data node.now))) };

    /// The object in version 2.
    fn rewrite(alloc: Global, value: &Value) -> Result<Value, AllocError>
    where
        Self: Sized,
        ensures { IfOk result (λ v. view v ≡ rewrites (view value.now)) };
}

/// Puts a member in, where there is one.
pub fn put_member(
    members: &mut Map<String, Value>,
    alloc: Global,
    key: &str,
    value: Option<Value>,
) -> Result<(), AllocError>
    ensures { OnOk result (members_view members.new.entries
        ≡ with_member key.now (option_map view value) (members_view members.old.entries)) }
{
    match value {
        Some(value) => serde_json::put(members, alloc, key, value),
        None => Ok(()),
    }
}

/// The text that stands at a member, if one does.
pub fn text_in(alloc: Global, member: Option<&Value>) -> Result<Option<Value>, AllocError>
    ensures { IfOk result (λ o. option_map view o ≡ text_in (option_map (λ v. view v.now) member.entry)) }
{
    let Some(value) = member else {
        return Ok(None);
    };
    match value.as_str() {
        Some(text) => Ok(Some(Value::try_from_str(alloc, text)?)),
        None => Ok(None),
    }
}

/// The whole number that stands at a member, if one does.
pub fn count_in(member: Option<&Value>) -> Option<Value>
    ensures { option_map view result ≡ count_in (option_map (λ v. view v.now) member.entry) }
{
    let Some(value) = member else {
        return None;
    };
    match value.as_u64() {
        Some(count) => Some(Value::from(count)),
        None => None,
    }
}

fn each_item<T: Object>(alloc: Global, items: &[Value]) -> Result<Vec<Value>, AllocError>
    ensures { IfOk result (λ v. items_view v.items ≡ each_item T.rewrites (items_view items.now)) }
{
    let mut rewritten = Vec::with_capacity(alloc, items.len())?;
    for item in items {
        let object = T::rewrite(alloc, item)?;
        rewritten.push(object)?;
    }
    Ok(rewritten)
}

/// The list of objects that stands at a member, if one does.
pub fn list_in<T: Object>(
    alloc: Global,
    member: Option<&Value>,
) -> Result<Option<Value>, AllocError>
    ensures { IfOk result
        (λ o. option_map view o ≡ list_in T.rewrites (option_map (λ v. view v.now) member.entry)) }
{
    let Some(value) = member else {
        return Ok(None);
    };
    match value.as_array() {
        Some(items) => Ok(Some(Value::Array(each_item::<T>(alloc, items)?))),
        None => Ok(None),
    }
}

/// Writes the member of a name, where a text stands at it.
pub fn write_text<N: Node>(out: &mut Text, name: &str, node: &N) -> Result<(), AllocError>
    ensures { OnOk result (out.new
        ≡ out.old ++ tokens_of_member name.now (text_in (get name.now (N.as_data node.now)))) }
{
    let Some(member) = node.member(name) else {
        return Ok(());
    };
    let Some(text) = member.text() else {
        return Ok(());
    };
    out.key(name)?;
    out.string(text)
}

/// Writes the member of a name, where a whole number stands at it.
pub fn write_count<N: Node>(out: &mut Text, name: &str, node: &N) -> Result<(), AllocError>
    ensures { OnOk result (out.new
        ≡ out.old ++ tokens_of_member name.now (count_in (get name.now (N.as_data node.now)))) }
{
    let Some(member) = node.member(name) else {
        return Ok(());
    };
    let Some(count) = member.whole() else {
        return Ok(());
    };
    out.key(name)?;
    out.number(count)
}

fn write_items<T: Object, N: Node>(
    alloc: Global,
    out: &mut Text,
    items: &[N],
) -> Result<(), AllocError>
    ensures { OnOk result (out.new
        ≡ out.old ++ tokens_of_items (each_item T.rewrites (items_of (map N.as_data items.now)))) }
{
    for item in items {
        T::write(alloc, out, item)?;
    }
    out.end_array()?;
    Ok(())
}

/// Writes the member of a name, where a list stands at it.
pub fn write_list<T: Object, N: Node>(
    alloc: Global,
    out: &mut Text,
    name: &str,
    node: &N,
) -> Result<(), AllocError>
    ensures { OnOk result (out.new
        ≡ out.old ++ tokens_of_member name.now (list_in T.rewrites (get name.now (N.as_data node.now)))) }
{
    let Some(member) = node.member(name) else {
        return Ok(());
    };
    let Some(items) = member.items() else {
        return Ok(());
    };
    out.key(name)?;
    out.begin_array()?;
    write_items::<T, N>(alloc, out, items)
}
