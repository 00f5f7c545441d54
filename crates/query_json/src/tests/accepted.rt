use super::{EXAMPLE, outcome, repeated};
use crate::{Items, QUERIES_MAX, TABLES_MAX};
use dpe_base::PREDS_MAX;
use std::alloc::{AllocError, Global};
use std::test::Fail;

#[test]
fn accepted_queries(rt: HostRuntime) -> Result<(), Fail> {
    let alloc = rt.alloc();
    let rows = [
        (EXAMPLE, "both: a 1000 1/1 b 1000 1/1 0-1 1/100 0-1 1/10\n"),
        (r#"{"tables":[],"queries":[]}"#, ""),
        (
            r#"{"version":1,"owner":1.5,"tables":[{"name":"t","rows":0,"columns":[
            {"name":"k","distinct":0},{"name":"m","distinct":7},{"name":"m","distinct":9}]}],"queries":[
            {"name":"q","relations":[{"alias":"x","table":"t","filter":null},{"alias":"y","table":"t","filter":[1,3]}],
            "joins":[{"left":"y","right":"x","left_column":"k","right_column":"k"},
            {"left":"y","right":"x","left_column":"m","right_column":"k","selectivity":null},
            {"left":"x","right":"y","left_column":"m","right_column":null,"selectivity":[2,2]}]},
            {"name":"q","relations":[{"alias":"x","table":"t"}],"joins":null}]}"#,
            "q: x 0 1/1 y 0 1/3 0-1 1/1 0-1 1/7 0-1 2/2\nq: x 0 1/1\n",
        ),
    ];
    for (file, entries) in rows {
        let found = outcome(alloc, file.as_bytes())?;
        assert_eq!(rt; found.as_str(), entries);
    }
    Ok(())
}

// Texts around each number from 0, with a comma between each two.
fn numbered(alloc: Global, before: &str, after: &str, n: usize) -> Result<String, AllocError> {
    let mut out = String::new(alloc);
    for i in 0..n {
        if i > 0 {
            out.push_str(",")?;
        }
        write!(out, "{before}{i}{after}")?;
    }
    Ok(out)
}

#[test]
fn a_file_with_all_tables_that_it_may_have(rt: HostRuntime) -> Result<(), Fail> {
    let alloc = rt.alloc();
    let tables = numbered(alloc, r#"{"name":"t"#, r#"","rows":7}"#, TABLES_MAX)?;
    let last = TABLES_MAX - 1;
    let file = format!(in alloc;
        "{{\"tables\":[{tables}],\"queries\":[{{\"name\":\"q\",\"relations\":[{{\"alias\":\"a\",\"table\":\"t{last}\"}}]}}]}}"
    )?;
    let found = outcome(alloc, file.as_bytes())?;
    assert_eq!(rt; found.as_str(), "q: a 7 1/1\n");
    Ok(())
}

#[test]
fn a_file_with_all_queries_that_it_may_have(rt: HostRuntime) -> Result<(), Fail> {
    let alloc = rt.alloc();
    let queries = repeated(
        alloc,
        r#"{"name":"q","relations":[{"alias":"a","table":"t"}]}"#,
        QUERIES_MAX,
    )?;
    let file = format!(in alloc;
        "{{\"tables\":[{{\"name\":\"t\",\"rows\":9}}],\"queries\":[{queries}]}}"
    )?;
    let found = outcome(alloc, file.as_bytes())?;
    let mut wanted = String::new(alloc);
    for _ in 0..QUERIES_MAX {
        wanted.push_str("q: a 9 1/1\n")?;
    }
    assert_eq!(rt; found.as_str(), wanted.as_str());
    Ok(())
}

#[test]
fn a_query_with_all_joins_that_it_may_have(rt: HostRuntime) -> Result<(), Fail> {
    let alloc = rt.alloc();
    let joins = repeated(
        alloc,
        r#"{"left":"b","right":"a","selectivity":[1,2]}"#,
        PREDS_MAX,
    )?;
    let file = format!(in alloc;
        "{{\"tables\":[{{\"name\":\"t\",\"rows\":9}}],\"queries\":[{{\"name\":\"q\",\"relations\":[{{\"alias\":\"a\",\"table\":\"t\"}},{{\"alias\":\"b\",\"table\":\"t\"}}],\"joins\":[{joins}]}}]}}"
    )?;
    let found = outcome(alloc, file.as_bytes())?;
    let mut wanted = String::from_str(alloc, "q: a 9 1/1 b 9 1/1")?;
    for _ in 0..PREDS_MAX {
        wanted.push_str(" 0-1 1/2")?;
    }
    wanted.push('\n')?;
    assert_eq!(rt; found.as_str(), wanted.as_str());
    Ok(())
}

#[test]
fn a_vector_there_and_back(rt: HostRuntime) -> Result<(), Fail> {
    let alloc = rt.alloc();
    let bytes = EXAMPLE.as_bytes();
    let items = Items::from_vec(bytes.to_vec(alloc)?);
    assert_eq!(rt; items.len(), bytes.len());
    assert_eq!(rt; items.as_slice(), bytes);
    let back = items.into_vec();
    assert_eq!(rt; back.as_slice(), bytes);
    Ok(())
}
