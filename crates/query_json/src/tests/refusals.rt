use super::{outcome, repeated};
use dpe_base::N_MAX;
use std::test::Fail;

// One relation more than a query may have.
const MANY: usize = N_MAX + 1;

#[test]
fn the_first_refusal_counts(rt: HostRuntime) -> Result<(), Fail> {
    let alloc = rt.alloc();
    let items = repeated(alloc, r#"{"alias":"a","table":"x"}"#, MANY)?;
    let many = format!(in alloc; "[{items}]")?;
    let rows = [
        (
            r#"[],"joins":[{"left":"z","right":"z","selectivity":[2,1]}]"#,
            "1 no relations",
        ),
        (
            r#"[{"alias":"a","table":"t"},{"alias":"b","table":"x"},{"alias":"a","table":"t"}]"#,
            "3 alias a twice",
        ),
        (
            r#"[{"alias":"a","table":"t"},{"alias":"b","table":"x"}],"joins":[{"left":"z","right":"a","selectivity":[1,2]}]"#,
            "4 unknown table x",
        ),
        (
            r#"[{"alias":"a","table":"t"},{"alias":"b","table":"t"}],"joins":[
            {"left":"a","right":"b","left_column":"n","right_column":"n"},{"left":"y","right":"z","selectivity":[1,2]}]"#,
            "5 unknown alias y",
        ),
        (
            r#"[{"alias":"a","table":"t"},{"alias":"b","table":"t"}],"joins":[
            {"left":"a","right":"a","selectivity":[2,1]},{"left":"a","right":"b","right_column":"n","selectivity":[1,2]}]"#,
            "6 unknown column b.n",
        ),
        (
            r#"[{"alias":"a","table":"t"},{"alias":"b","table":"t"}],"joins":[
            {"left":"b","right":"a","left_column":"n","right_column":"m","selectivity":[1,2]}]"#,
            "6 unknown column b.n",
        ),
        (
            r#"[{"alias":"a","table":"t","filter":[0,1]},{"alias":"b","table":"t"}],"joins":[
            {"left":"a","right":"b","selectivity":[1,2]},{"left":"b","right":"b","selectivity":[1,2]}]"#,
            "7 join of b with itself",
        ),
        (
            r#"[{"alias":"a","table":"t"},{"alias":"b","table":"t","filter":[3,2]},{"alias":"c","table":"t"}],"joins":[
            {"left":"a","right":"b","selectivity":[0,1]}]"#,
            "8 bad fraction at relation 1",
        ),
        (
            r#"[{"alias":"a","table":"t"},{"alias":"b","table":"t"},{"alias":"c","table":"t"}],"joins":[
            {"left":"a","right":"b","selectivity":[1,1]},{"left":"a","right":"b","selectivity":[1,18446744073709551615]}]"#,
            "8 bad fraction at join 1",
        ),
        (
            r#"[{"alias":"a","table":"t"},{"alias":"d","table":"t"},{"alias":"c","table":"t"},{"alias":"b","table":"t"}],"joins":[
            {"left":"b","right":"a","selectivity":[1,2]},{"left":"c","right":"d","selectivity":[1,2]}]"#,
            "9 relation d is not connected",
        ),
        (many.as_str(), "2 21 relations, at most 20"),
    ];
    for (relations, refusal) in rows {
        let file = format!(in alloc;
            "{{\"tables\":[{{\"name\":\"t\",\"rows\":9}}],\"queries\":[{{\"name\":\"q\",\"relations\":{relations}}}]}}"
        )?;
        let found = outcome(alloc, file.as_bytes())?;
        let wanted = format!(in alloc; "q: {refusal}\n")?;
        assert_eq!(rt; found.as_str(), wanted.as_str());
    }
    Ok(())
}
