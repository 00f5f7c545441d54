use super::{EXAMPLE, outcome, write_outcome};
use crate::read_value;
use serde_json::Value;
use std::alloc::{AllocError, Global};
use std::test::Fail;

// What the value of the text holds, or that the text has none.
fn outcome_of_value(alloc: Global, text: &str) -> Result<String, AllocError> {
    let mut out = String::new(alloc);
    match Value::from_str(alloc, text) {
        Ok(value) => write_outcome(&mut out, read_value(alloc, &value))?,
        Err(_) => write!(out, "not JSON")?,
    }
    Ok(out)
}

#[test]
fn a_value_holds_what_its_text_holds(rt: HostRuntime) -> Result<(), Fail> {
    let alloc = rt.alloc();
    for text in [
        EXAMPLE,
        "7",
        "{}",
        r#"{"version":2,"tables":[{"name":"t","rows":9}],"queries":[
        {"name":"q","relations":[{"alias":"a","table":"t","filter":"0.25"},{"alias":"b","table":"t","filter":"1.5"}]},
        {"name":"\u00e9","relations":[{"alias":"a\u0020b","table":"t","filter":"0.25"}]}]}"#,
        r#"{"tables":[{"name":"t","rows":9}],"queries":[{"name":"q","relations":[{"alias":"a","table":"t","filter":"0.25"}]}]}"#,
        r#"{"tables":7,"tables":[],"queries":[],"note":[1.5,-1,1e308,{"a":null}]}"#,
        r#"{"tables":[{"name":"t","rows":-0}],"queries":[]}"#,
        r#"{"tables":[{"name":"t","rows":18446744073709551616}],"queries":[]}"#,
        r#"{"tables":[{"name":"t","rows":1,"rows":1e400}],"queries":[]}"#,
        r#"{"tables":[{"name":"t","rows":1},{"name":"\u0074","rows":1}],"queries":[]}"#,
        r#"{"tables":[],"queries":[]"#,
    ] {
        let of_text = outcome(alloc, text.as_bytes())?;
        let of_value = outcome_of_value(alloc, text)?;
        assert_eq!(rt; of_text.as_str(), of_value.as_str(), "of {text}");
    }
    Ok(())
}
