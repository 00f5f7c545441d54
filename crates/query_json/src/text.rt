//! Places and refusals as they are printed.
ghost use Rattle.std.specs.Prelude.{◌≡◌, ◌++◌, OnOk, string_bytes};
ghost use Rattle.query_json.specs.Texts.{frac_place_text, path_of, refusal_text};

use crate::place::{Place, Site};
use crate::refusal::{FracPlace, QueryRefusal};
use dpe_base::{N_MAX, Name};
use std::alloc::AllocError;

/// Writes a place as a path from the root of the file, like `$.queries[0].joins[2].left`, at the end of `out`.
///
/// Fails where there is no memory. What `out` then holds is left open.
pub fn write_path(out: &mut String, place: Place) -> Result<(), AllocError>
    ensures { OnOk result (string_bytes out.new ≡ string_bytes out.old ++ path_of place) }
{
    let Place { site, i, j } = place;
    match site {
        Site::Root => write!(out, "$"),
        Site::Version => write!(out, "$.version"),
        Site::Tables => write!(out, "$.tables"),
        Site::Table => write!(out, "$.tables[{i}]"),
        Site::TableName => write!(out, "$.tables[{i}].name"),
        Site::TableRows => write!(out, "$.tables[{i}].rows"),
        Site::Columns => write!(out, "$.tables[{i}].columns"),
        Site::Column => write!(out, "$.tables[{i}].columns[{j}]"),
        Site::ColumnName => write!(out, "$.tables[{i}].columns[{j}].name"),
        Site::Distinct => write!(out, "$.tables[{i}].columns[{j}].distinct"),
        Site::Queries => write!(out, "$.queries"),
        Site::QueryItem => write!(out, "$.queries[{i}]"),
        Site::QueryName => write!(out, "$.queries[{i}].name"),
        Site::Relations => write!(out, "$.queries[{i}].relations"),
        Site::Relation => write!(out, "$.queries[{i}].relations[{j}]"),
        Site::Alias => write!(out, "$.queries[{i}].relations[{j}].alias"),
        Site::TableRef => write!(out, "$.queries[{i}].relations[{j}].table"),
        Site::Filter => write!(out, "$.queries[{i}].relations[{j}].filter"),
        Site::Joins => write!(out, "$.queries[{i}].joins"),
        Site::JoinItem => write!(out, "$.queries[{i}].joins[{j}]"),
        Site::Left => write!(out, "$.queries[{i}].joins[{j}].left"),
        Site::Right => write!(out, "$.queries[{i}].joins[{j}].right"),
        Site::LeftColumn => write!(out, "$.queries[{i}].joins[{j}].left_column"),
        Site::RightColumn => write!(out, "$.queries[{i}].joins[{j}].right_column"),
        Site::Selectivity => write!(out, "$.queries[{i}].joins[{j}].selectivity"),
    }
}

fn write_name(out: &mut String, before: &str, name: &Name) -> Result<(), AllocError>
    ensures { OnOk result (string_bytes out.new ≡ string_bytes out.old ++ (before.now ++ name.now)) }
{
    let name = name.text();
    write!(out, "{before}{name}")
}

fn write_names(
    out: &mut String,
    before: &str,
    name: &Name,
    between: &str,
    other: &Name,
) -> Result<(), AllocError>
    ensures { OnOk result (string_bytes out.new
        ≡ string_bytes out.old ++ (before.now ++ (name.now ++ (between.now ++ other.now)))) }
{
    let name = name.text();
    let other = other.text();
    write!(out, "{before}{name}{between}{other}")
}

fn write_around(out: &mut String, before: &str, name: &Name, after: &str) -> Result<(), AllocError>
    ensures { OnOk result (string_bytes out.new
        ≡ string_bytes out.old ++ (before.now ++ (name.now ++ after.now))) }
{
    let name = name.text();
    write!(out, "{before}{name}{after}")
}

fn write_frac_place(out: &mut String, before: &str, place: FracPlace) -> Result<(), AllocError>
    ensures { OnOk result (string_bytes out.new ≡ string_bytes out.old ++ (before.now ++ frac_place_text place)) }
{
    match place {
        FracPlace::Relation(j) => write!(out, "{before}relation {j}"),
        FracPlace::Join(j) => write!(out, "{before}join {j}"),
    }
}

/// Writes a refusal in words, at the end of `out`.
///
/// Fails where there is no memory. What `out` then holds is left open.
#[tactic(auto, unfolding(crate::specs::Texts::refusal_text))]
pub fn write_refusal(out: &mut String, refusal: &QueryRefusal) -> Result<(), AllocError>
    ensures { OnOk result (string_bytes out.new ≡ string_bytes out.old ++ refusal_text refusal.now) }
{
    match refusal {
        QueryRefusal::NoRelations => write!(out, "no relations"),
        QueryRefusal::TooManyRelations(n) => write!(out, "{n} relations, at most {N_MAX}"),
        QueryRefusal::DuplicateAlias(alias) => write_around(out, "alias ", alias, " twice"),
        QueryRefusal::UnknownTable(table) => write_name(out, "unknown table ", table),
        QueryRefusal::UnknownAlias(alias) => write_name(out, "unknown alias ", alias),
        QueryRefusal::UnknownColumn(alias, column) => {
            write_names(out, "unknown column ", alias, ".", column)
        }
        QueryRefusal::SelfJoin(alias) => write_around(out, "join of ", alias, " with itself"),
        QueryRefusal::BadFraction(place) => write_frac_place(out, "bad fraction at ", *place),
        QueryRefusal::Disconnected(alias) => {
            write_around(out, "relation ", alias, " is not connected")
        }
    }
}
