use super::{EXAMPLE, outcome, repeated};
use std::alloc::{AllocError, Global};
use std::test::Fail;

#[test]
fn the_first_fault_counts(rt: HostRuntime) -> Result<(), Fail> {
    let alloc = rt.alloc();
    let name = repeated(alloc, "n", 64)?;
    let rows = [
        (r#"{"tables":7,"tables":[],"queries":[]}"#, ""),
        (r#"{"tables":[],"queries":[],"queries":7}"#, "$.queries"),
        (r#"{"tables":1e309,"tables":[],"queries":[]}"#, "not JSON"),
        (r#"{"tables":[],"queries":[],"note":"\ud800"}"#, "not JSON"),
        (r#"{"tables":[],"queries":[]} x"#, "not JSON"),
        (
            r#"{"tables":[{"name":"a","rows":1e3}],"queries":[]}"#,
            "$.tables[0].rows",
        ),
        (
            r#"{"tables":[{"name":"a","rows":-0}],"queries":[]}"#,
            "$.tables[0].rows",
        ),
        (
            r#"{"tables":[{"name":"a","rows":1099511627776}],"queries":[]}"#,
            "",
        ),
        (
            r#"{"tables":[{"name":"a","rows":1099511627777}],"queries":[]}"#,
            "$.tables[0].rows",
        ),
        (
            r#"{"tables":[{"name":"\u001f","rows":1}],"queries":[]}"#,
            "$.tables[0].name",
        ),
        (
            r#"{"tables":[{"name":" \u0080~","rows":1}],"queries":[]}"#,
            "",
        ),
        (r#"{"version":0,"tables":[],"queries":[]}"#, "$.version"),
        (
            r#"{"queries":7,"tables":[{"name":"a","rows":1,"columns":[{"name":"k","distinct":-1}]},{"name":""}]}"#,
            "$.tables[0].columns[0].distinct",
        ),
        (
            r#"{"tables":[],"queries":[{"name":"q","relations":[{}],"joins":{}},{"name":""}]}"#,
            "$.queries[0].relations[0].alias",
        ),
        (
            r#"{"tables":[],"queries":[{"name":"q","relations":[],"joins":[{}]},{"name":""}]}"#,
            "$.queries[0].joins[0].left",
        ),
        (
            r#"{"tables":[{"name":"\u0041","rows":1},{"name":"A","rows":1}],"queries":[]}"#,
            "table A twice",
        ),
        (
            r#"{"tables":[{"name":"b","rows":1},{"name":"a","rows":1},{"name":"a","rows":1},{"name":"b","rows":1}],"queries":[]}"#,
            "table a twice",
        ),
    ];
    for (file, wanted) in rows {
        let found = outcome(alloc, file.as_bytes())?;
        assert_eq!(rt; found.as_str(), wanted, "of {file}");
    }
    // 128 bytes of a name, and 129
    for (end, wanted) in [("n", ""), ("nn", "$.tables[0].name")] {
        let file = format!(in alloc;
            "{{\"tables\":[{{\"name\":\"{name}{end}\",\"rows\":1}}],\"queries\":[]}}"
        )?;
        let found = outcome(alloc, file.as_bytes())?;
        assert_eq!(rt; found.as_str(), wanted);
    }
    let broken = b"{\"tables\":[{\"name\":\"a\xff\",\"rows\":1}],\"queries\":[]}";
    let found = outcome(alloc, broken)?;
    assert_eq!(rt; found.as_str(), "not JSON");
    Ok(())
}

fn nested(alloc: Global, depth: u32) -> Result<String, AllocError> {
    let mut out = String::from_str(alloc, "{\"tables\":[],\"queries\":[],\"note\":")?;
    for _ in 0..depth {
        out.push_str("[")?;
    }
    for _ in 0..depth {
        out.push_str("]")?;
    }
    out.push_str("}")?;
    Ok(out)
}

#[test]
fn deep_nesting_is_not_json(rt: HostRuntime) -> Result<(), Fail> {
    let alloc = rt.alloc();
    for (depth, wanted) in [(126, ""), (127, "not JSON"), (200, "not JSON")] {
        let file = nested(alloc, depth)?;
        let found = outcome(alloc, file.as_bytes())?;
        assert_eq!(rt; found.as_str(), wanted, "at {depth}");
    }
    Ok(())
}

#[test]
fn no_prefix_is_json(rt: HostRuntime) -> Result<(), Fail> {
    let alloc = rt.alloc();
    let bytes = EXAMPLE.as_bytes();
    for n in 0..bytes.len() {
        let found = outcome(alloc, &bytes[..n])?;
        assert_eq!(rt; found.as_str(), "not JSON", "at {n}");
    }
    Ok(())
}
