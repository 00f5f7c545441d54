use super::outcome;
use std::test::Fail;

#[test]
fn each_site_has_its_place(rt: HostRuntime) -> Result<(), Fail> {
    let alloc = rt.alloc();
    let file = ("", "");
    let table = (r#"{"tables":[{"name":"a","rows":1},"#, r#"],"queries":[]}"#);
    let column = (
        r#"{"tables":[{"name":"a","rows":1,"columns":[{"name":"k","distinct":1},"#,
        r#"]}],"queries":[]}"#,
    );
    let query = (
        r#"{"tables":[],"queries":[{"name":"q","relations":[]},"#,
        "]}",
    );
    let relation = (
        r#"{"tables":[],"queries":[{"name":"q","relations":[{"alias":"a","table":"a"},"#,
        "]}]}",
    );
    let join = (
        r#"{"tables":[],"queries":[{"name":"q","relations":[],"joins":[{"left":"a","right":"b","selectivity":[1,2]},"#,
        "]}]}",
    );
    let rows = [
        (file, "[]", "$"),
        (
            file,
            r#"{"version":3,"tables":[],"queries":[]}"#,
            "$.version",
        ),
        (
            file,
            r#"{"version":null,"tables":{},"queries":[]}"#,
            "$.tables",
        ),
        (file, r#"{"tables":[]}"#, "$.queries"),
        (table, "null", "$.tables[1]"),
        (table, r#"{"name":"","rows":1}"#, "$.tables[1].name"),
        (table, r#"{"name":"b","rows":1.0}"#, "$.tables[1].rows"),
        (
            table,
            r#"{"name":"b","rows":1,"columns":{}}"#,
            "$.tables[1].columns",
        ),
        (column, "[]", "$.tables[0].columns[1]"),
        (column, r#"{"distinct":1}"#, "$.tables[0].columns[1].name"),
        (
            column,
            r#"{"name":"k","distinct":-0}"#,
            "$.tables[0].columns[1].distinct",
        ),
        (query, "\"q\"", "$.queries[1]"),
        (query, r#"{"relations":[]}"#, "$.queries[1].name"),
        (
            query,
            r#"{"name":"q","relations":null}"#,
            "$.queries[1].relations",
        ),
        (
            query,
            r#"{"name":"q","relations":[],"joins":{}}"#,
            "$.queries[1].joins",
        ),
        (relation, "1", "$.queries[0].relations[1]"),
        (
            relation,
            r#"{"table":"a"}"#,
            "$.queries[0].relations[1].alias",
        ),
        (
            relation,
            r#"{"alias":"b"}"#,
            "$.queries[0].relations[1].table",
        ),
        (
            relation,
            r#"{"alias":"b","table":"a","filter":[1]}"#,
            "$.queries[0].relations[1].filter",
        ),
        (join, "[]", "$.queries[0].joins[1]"),
        (
            join,
            r#"{"right":"b","selectivity":[1,2]}"#,
            "$.queries[0].joins[1].left",
        ),
        (
            join,
            r#"{"left":"a","right":"\u007f","selectivity":[1,2]}"#,
            "$.queries[0].joins[1].right",
        ),
        (
            join,
            r#"{"left":"a","right":"b","left_column":1,"selectivity":[1,2]}"#,
            "$.queries[0].joins[1].left_column",
        ),
        (
            join,
            r#"{"left":"a","right":"b","right_column":"","selectivity":[1,2]}"#,
            "$.queries[0].joins[1].right_column",
        ),
        (
            join,
            r#"{"left":"a","right":"b","left_column":"k","right_column":null}"#,
            "$.queries[0].joins[1].selectivity",
        ),
    ];
    for (around, text, place) in rows {
        let (before, after) = around;
        let file = format!(in alloc; "{before}{text}{after}")?;
        let found = outcome(alloc, file.as_bytes())?;
        assert_eq!(rt; found.as_str(), place, "of {text}");
    }
    Ok(())
}
