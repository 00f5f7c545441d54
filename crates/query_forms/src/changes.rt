//! Files of changes: a workload, and new numbers of rows for tables of it.
ghost use Rattle.std.specs.Prelude.{◌≡◌, ◌<◌, ◌≤◌, [], IfOk, IfSome, codes, length, option_and_then, option_map};
ghost use Rattle.std.specs.List.{All, filter, range_with_len};
ghost use Rattle.dpe_base.specs.Queries.{relations};
ghost use Rattle.serde_json.specs.Find.{at, get};
ghost use Rattle.serde_json.specs.View.{items_view, view};
ghost use Rattle.query_json.specs.Entries.{entries_of_value};
ghost use Rattle.query_json.specs.Walk.Places.{items_in};
ghost use Rattle.query_forms.specs.Changes.{ChangesBy, IsWithin, all_changes, as_change, change_at, changed_of, changes_from, changes_in, has_table, is_on, most_changes, or_workload, relations_at, says, uses_from, uses_in};

use crate::bytes::value_of;
use dpe_base::{INPUT_CAP, Name};
use query_json::{FileFault, Items, Part, Workload, is_name, read_value};
use serde_json::Value;
use std::alloc::{AllocError, AllocFailed, Global};

/// The most changes of a file.
const CHANGES_MAX: usize = 16;

/// Why a file of changes is refused: the first of these that holds.
#[derive(Debug, Drop)]
pub enum ChangeFault {
    /// The bytes aren't UTF-8, or `serde_json` has no reading of them.
    NotJson,
    /// The file is no object with a member `workload` and a member `changes` that is an array of at most 16 objects, each
    /// with the name of a table and its rows, at most [`INPUT_CAP`](dpe_base::INPUT_CAP).
    BadChanges,
    /// The first fault of the workload, with places from its own root.
    Workload(FileFault),
    /// The first change, counted from 0, whose table isn't in the workload.
    UnknownTable(u32),
    /// Memory ran out, which says nothing of the file.
    NoMemory,
}

impl From<AllocError> for ChangeFault {
    ghost use Rattle.std.specs.Prelude.{◌≡◌};
    ghost use Rattle.query_forms.specs.declared.changes.ChangeFault.TheVariants.{NoMemory};

    ghost from_gives = { λ _ e. e ≡ NoMemory };

    fn from(_: AllocError) -> Self {
        ChangeFault::NoMemory
    }
}

impl<T: Drop> From<AllocFailed<T>> for ChangeFault {
    ghost use Rattle.std.specs.Prelude.{◌≡◌};
    ghost use Rattle.query_forms.specs.declared.changes.ChangeFault.TheVariants.{NoMemory};

    ghost from_gives = { λ _ e. e ≡ NoMemory };

    fn from(_: AllocFailed<T>) -> Self {
        ChangeFault::NoMemory
    }
}

/// A change as the file has it: the name of a table, and its new rows.
#[derive(Drop)]
pub(crate) struct Asked {
    table: Name,
    rows: u64,
}

/// New rows of a table, and where the workload's queries use it.
#[derive(Drop)]
pub struct Change {
    /// How many rows the table has now.
    pub rows: u64,
    /// For each query the numbers of its relations on the table, in ascending order: none where the query is refused.
    pub uses: Items<Items<u8>>,
}

/// A workload, and the changes in the file's order.
#[derive(Drop)]
pub struct Changed {
    /// The workload before all changes.
    pub workload: Workload,
    /// The changes.
    pub changes: Items<Change>,
}

/// The change that a value asks for.
fn as_change(alloc: Global, value: &Value) -> Result<Option<Asked>, AllocError>
    ensures { IfOk result (λ o. o ≡ as_change (view value.now)) }
{
    let Some(table) = value.get("table") else {
        return Ok(None);
    };
    let Some(name) = table.as_str() else {
        return Ok(None);
    };
    if !is_name(name) {
        return Ok(None);
    }
    let Some(member) = value.get("rows") else {
        return Ok(None);
    };
    match member.as_u64() {
        Some(rows) if rows <= INPUT_CAP => Ok(Some(Asked {
            table: Name::of(String::from_str(alloc, name)?),
            rows,
        })),
        _ => Ok(None),
    }
}

#[tactic(auto, using(crate::proofs::ChangeLaws::nothing_in_front, crate::proofs::ChangeLaws::one_in_front, crate::proofs::ChangeLaws::none_in_front))]
fn all_changes(alloc: Global, items: &[Value]) -> Result<Option<Vec<Asked>>, AllocError>
    ensures few { IfOk result (λ o. IfSome o (λ v. length v.items ≤ length items.now)) }
    ensures value { IfOk result (λ o. option_map (λ v. v.items) o ≡ all_changes (items_view items.now)) }
{
    let mut changes = Vec::with_capacity(alloc, items.len())?;
    'items: for item in items {
        let Some(change) = as_change(alloc, item)? else {
            return Ok(None);
        };
        changes.push(change)?;
    }
    Ok(Some(changes))
}

/// The changes that stand at a member.
#[tactic(auto, using(crate::proofs::ChangeLaws::item_count_view))]
fn changes_in(alloc: Global, member: Option<&Value>) -> Result<Option<Vec<Asked>>, AllocError>
    ensures few { IfOk result (λ o. IfSome o (λ v. length v.items ≤ most_changes)) }
    ensures value { IfOk result
        (λ o. option_map (λ v. v.items) o ≡ changes_in (option_map (λ v. view v.now) member.entry)) }
{
    let Some(value) = member else {
        return Ok(None);
    };
    match value.as_array() {
        Some(items) if items.len() <= CHANGES_MAX => all_changes(alloc, items),
        _ => Ok(None),
    }
}

/// Whether a member is this text.
fn says(name: &str, member: Option<&Value>) -> bool
    ensures { result ≡ says name.now (option_map (λ v. view v.now) member.entry) }
{
    let Some(value) = member else {
        return false;
    };
    match value.as_str() {
        Some(text) => name == text,
        None => false,
    }
}

fn has_table(name: &str, tables: &[Value]) -> bool
    ensures { result ≡ has_table name.now (items_view tables.now) }
{
    'tables: for table in tables {
        if says(name, table.get("name")) {
            return true;
        }
    }
    false
}

fn is_known(name: &str, workload: &Value) -> bool
    ensures { result ≡ has_table name.now (items_in (get (codes "tables") (view workload.now))) }
{
    let Some(tables) = workload.get("tables") else {
        return false;
    };
    match tables.as_array() {
        Some(tables) => has_table(name, tables),
        None => false,
    }
}

fn is_on(table: &str, relations: Option<&Value>, r: usize) -> bool
    ensures { result ≡ is_on table.now (option_map (λ v. view v.now) relations.entry) r }
{
    let Some(relations) = relations else {
        return false;
    };
    match relations.get(r) {
        Some(relation) => says(table, relation.get("table")),
        None => false,
    }
}

fn relations_at(workload: &Value, i: usize) -> Option<&Value>
    ensures { option_map (λ v. view v.now) result ≡ relations_at (view workload.now) i }
{
    workload.get("queries")?.get(i)?.get("relations")
}

/// The numbers of the first n relations that are on the table.
#[tactic(auto, using(crate::proofs::ChangeLaws::kept_here, crate::proofs::ChangeLaws::passed_here))]
fn relations_on(
    alloc: Global,
    table: &str,
    relations: Option<&Value>,
    n: u8,
) -> Result<Vec<u8>, AllocError>
    ensures { IfOk result (λ v. v.items
        ≡ filter (is_on table.now (option_map (λ v. view v.now) relations.entry)) (range_with_len 0 n)) }
{
    let mut found = Vec::new(alloc);
    'relations: for r in 0..n {
        if is_on(table, relations, r as usize) {
            found.push(r)?;
        }
    }
    Ok(found)
}

fn uses_in(
    alloc: Global,
    table: &str,
    relations: Option<&Value>,
    part: &Part,
) -> Result<Items<u8>, AllocError>
    ensures { IfOk result
        (λ uses. uses ≡ uses_in table.now (option_map (λ v. view v.now) relations.entry) part.now) }
{
    match part {
        Part::Accepted(named) => {
            let n = named.query.n();
            Ok(Items::from_vec(relations_on(alloc, table, relations, n)?))
        }
        Part::Refused(_) => Ok(Items::from_vec(Vec::new(alloc))),
    }
}

fn uses_of(
    alloc: Global,
    table: &str,
    value: &Value,
    workload: &Workload,
) -> Result<Items<Items<u8>>, AllocError>
    ensures { IfOk result (λ uses. uses ≡ uses_from table.now (view value.now) 0 workload.now) }
{
    let mut all = Vec::with_capacity(alloc, workload.len())?;
    'queries: for i in 0..workload.len() {
        let relations = relations_at(value, i);
        let uses = uses_in(alloc, table, relations, &workload.entry(i).part)?;
        all.push(uses)?;
    }
    Ok(Items::from_vec(all))
}

fn change_at(
    alloc: Global,
    value: &Value,
    workload: &Workload,
    j: u32,
    asked: &Asked,
) -> Result<Change, ChangeFault>
    ensures { ChangesBy (λ x. x) result (change_at (view value.now) workload.now j asked.now) }
{
    let table = asked.table.text();
    if !is_known(table, value) {
        return Err(ChangeFault::UnknownTable(j));
    }
    Ok(Change {
        rows: asked.rows,
        uses: uses_of(alloc, table, value, workload)?,
    })
}

fn changes_of(
    alloc: Global,
    value: &Value,
    workload: &Workload,
    asked: &[Asked],
) -> Result<Items<Change>, ChangeFault>
    requires { length asked.now ≤ most_changes }
    ensures { ChangesBy (λ x. x) result (changes_from (view value.now) workload.now 0 asked.now) }
{
    let mut changes = Vec::with_capacity(alloc, asked.len())?;
    'asked: for (j, one) in asked.iter().enumerate() {
        let change = change_at(alloc, value, workload, j as u32, one)?;
        changes.push(change)?;
    }
    Ok(Items::from_vec(changes))
}

/// The entries of the workload.
fn workload_of(alloc: Global, value: &Value) -> Result<Workload, ChangeFault>
    ensures { ChangesBy (λ x. x) result (or_workload (entries_of_value (view value.now))) }
{
    match read_value(alloc, value) {
        Ok(workload) => Ok(workload),
        Err(FileFault::NoMemory) => Err(ChangeFault::NoMemory),
        Err(fault) => Err(ChangeFault::Workload(fault)),
    }
}

/// Reads the text of a file of changes: an object with `workload`, a workload file's object, and with `changes`, an array of
/// at most 16 objects with `table`, the name of one of its tables, and `rows`, the table's new rows.
///
/// Fails with the first fault of the text, in the order of [`ChangeFault`]. Fails also where there is no memory.
#[tactic(auto, unfolding(crate::specs::Changes::changed_of))]
pub fn read_changes(alloc: Global, bytes: &[u8]) -> Result<Changed, ChangeFault>
    ensures read { ChangesBy (λ x. x) result (changed_of bytes.now) }
    ensures within { IfOk result (λ file. All (IsWithin file.workload) file.changes) }
{
    let Some(value) = value_of(alloc, bytes)? else {
        return Err(ChangeFault::NotJson);
    };
    let Some(asked) = changes_in(alloc, value.get("changes"))? else {
        return Err(ChangeFault::BadChanges);
    };
    let Some(member) = value.get("workload") else {
        return Err(ChangeFault::BadChanges);
    };
    let workload = workload_of(alloc, member)?;
    let changes = changes_of(alloc, member, &workload, asked.as_slice())?;
    Ok(Changed { workload, changes })
}
