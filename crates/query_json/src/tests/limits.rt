use super::{outcome, repeated};
use crate::{COLUMNS_MAX, QUERIES_MAX, TABLES_MAX};
use dpe_base::PREDS_MAX;
use std::test::Fail;

#[test]
fn too_many_tables_or_queries(rt: HostRuntime) -> Result<(), Fail> {
    let alloc = rt.alloc();
    let table = r#"{"name":"a","rows":1}"#;
    let query = r#"{"name":"q","relations":[]}"#;
    for (t, q, wanted) in [
        (TABLES_MAX + 1, QUERIES_MAX + 1, "too many tables"),
        (TABLES_MAX, QUERIES_MAX + 1, "too many queries"),
        (TABLES_MAX, QUERIES_MAX, "table a twice"),
    ] {
        let tables = repeated(alloc, table, t)?;
        let queries = repeated(alloc, query, q)?;
        let file = format!(in alloc; "{{\"tables\":[{tables}],\"queries\":[{queries}]}}")?;
        let found = outcome(alloc, file.as_bytes())?;
        assert_eq!(rt; found.as_str(), wanted);
    }
    Ok(())
}

#[test]
fn too_many_columns_of_a_table(rt: HostRuntime) -> Result<(), Fail> {
    let alloc = rt.alloc();
    for (n, wanted) in [(COLUMNS_MAX, ""), (COLUMNS_MAX + 1, "$.tables[0].columns")] {
        let columns = repeated(alloc, r#"{"name":"k","distinct":1}"#, n)?;
        let file = format!(in alloc;
            "{{\"tables\":[{{\"name\":\"a\",\"rows\":1,\"columns\":[{columns}]}}],\"queries\":[]}}"
        )?;
        let found = outcome(alloc, file.as_bytes())?;
        assert_eq!(rt; found.as_str(), wanted, "at {n}");
    }
    Ok(())
}

#[test]
fn too_many_joins_of_a_query(rt: HostRuntime) -> Result<(), Fail> {
    let alloc = rt.alloc();
    for (n, wanted) in [
        (PREDS_MAX, "q: 1 no relations\n"),
        (PREDS_MAX + 1, "$.queries[0].joins"),
    ] {
        let joins = repeated(alloc, r#"{"left":"a","right":"b","selectivity":[1,2]}"#, n)?;
        let file = format!(in alloc;
            "{{\"tables\":[],\"queries\":[{{\"name\":\"q\",\"relations\":[],\"joins\":[{joins}]}}]}}"
        )?;
        let found = outcome(alloc, file.as_bytes())?;
        assert_eq!(rt; found.as_str(), wanted, "at {n}");
    }
    Ok(())
}
