use super::outcome;
use std::alloc::{AllocError, Global};
use std::test::Fail;

// A file with a filter and a selectivity, in the version that the first member says.
fn file(
    alloc: Global,
    version: &str,
    filter: &str,
    selectivity: &str,
) -> Result<String, AllocError> {
    let tables = r#""tables":[{"name":"t","rows":10}]"#;
    let relations = r#"[{"alias":"a","table":"t"},{"alias":"b","table":"t","filter":"#;
    let joins = r#"[{"left":"a","right":"b","selectivity":"#;
    format!(in alloc;
        "{{{version}{tables},\"queries\":[{{\"name\":\"q\",\"relations\":{relations}{filter}}}],\"joins\":{joins}{selectivity}}}]}}]}}"
    )
}

const FILTER: &str = "$.queries[0].relations[1].filter";

const BAD_FILTER: &str = "q: 8 bad fraction at relation 1\n";

#[test]
fn a_decimal_text_is_a_fraction_in_version_two(rt: HostRuntime) -> Result<(), Fail> {
    let alloc = rt.alloc();
    let rows = [
        (r#""0.05""#, "q: a 10 1/1 b 10 5/100 0-1 1/2\n"),
        (r#""1""#, "q: a 10 1/1 b 10 1/1 0-1 1/2\n"),
        (r#""1.00""#, "q: a 10 1/1 b 10 100/100 0-1 1/2\n"),
        (r#""0.00500""#, "q: a 10 1/1 b 10 500/100000 0-1 1/2\n"),
        (r#""0.\u0035""#, "q: a 10 1/1 b 10 5/10 0-1 1/2\n"),
        // twelve digits
        (
            r#""0.999999999999""#,
            "q: a 10 1/1 b 10 999999999999/1000000000000 0-1 1/2\n",
        ),
        (
            r#""0.000000000001""#,
            "q: a 10 1/1 b 10 1/1000000000000 0-1 1/2\n",
        ),
        (r#""0""#, BAD_FILTER),
        (r#""0.0""#, BAD_FILTER),
        (r#""0.000000000000""#, BAD_FILTER),
        (r#""1.5""#, BAD_FILTER),
        (r#""1.000000000001""#, BAD_FILTER),
        // thirteen
        (r#""0.5000000000000""#, FILTER),
        (r#""""#, FILTER),
        (r#"".5""#, FILTER),
        (r#""1.""#, FILTER),
        (r#"".""#, FILTER),
        (r#""2""#, FILTER),
        (r#""01""#, FILTER),
        (r#""00.5""#, FILTER),
        (r#""0.5.5""#, FILTER),
        (r#""0,5""#, FILTER),
        (r#""5e-1""#, FILTER),
        (r#""0.5e0""#, FILTER),
        (r#""+0.5""#, FILTER),
        (r#""-0.5""#, FILTER),
        (r#"" 0.5""#, FILTER),
        (r#""0.5 ""#, FILTER),
        (r#""0. 5""#, FILTER),
        (r#""0.5\u0000""#, FILTER),
        (r#""０.５""#, FILTER),
        (r#""0.５""#, FILTER),
        (r#""0．5""#, FILTER),
        ("0.5", FILTER),
        (r#"["0.5","1"]"#, FILTER),
        (r#"[1,"2"]"#, FILTER),
    ];
    for (filter, wanted) in rows {
        let two = file(alloc, r#""version":2,"#, filter, "[1,2]")?;
        let found = outcome(alloc, two.as_bytes())?;
        assert_eq!(rt; found.as_str(), wanted, "of {filter}");
        let one = file(alloc, r#""version":1,"#, filter, "[1,2]")?;
        let found = outcome(alloc, one.as_bytes())?;
        assert_eq!(rt; found.as_str(), FILTER, "of {filter} in version 1");
    }
    Ok(())
}

#[test]
fn a_selectivity_may_be_a_decimal_text(rt: HostRuntime) -> Result<(), Fail> {
    let alloc = rt.alloc();
    for (selectivity, wanted) in [
        (r#""0.5""#, "q: a 10 1/1 b 10 1/3 0-1 5/10\n"),
        ("[5,100]", "q: a 10 1/1 b 10 1/3 0-1 5/100\n"),
        (r#""1.5""#, "q: 8 bad fraction at join 0\n"),
        (r#""5""#, "$.queries[0].joins[0].selectivity"),
        ("null", "$.queries[0].joins[0].selectivity"),
    ] {
        let file = file(alloc, r#""version":2,"#, "[1,3]", selectivity)?;
        let found = outcome(alloc, file.as_bytes())?;
        assert_eq!(rt; found.as_str(), wanted, "of {selectivity}");
    }
    Ok(())
}

#[test]
fn the_version_decides_whether_a_text_may_stand(rt: HostRuntime) -> Result<(), Fail> {
    let alloc = rt.alloc();
    let array = "q: a 10 1/1 b 10 1/2 0-1 1/2\n";
    let text = "q: a 10 1/1 b 10 5/10 0-1 1/2\n";
    for (version, of_array, of_text) in [
        ("", array, FILTER),
        (r#""version":null,"#, array, FILTER),
        (r#""version":1,"#, array, FILTER),
        (r#""version":2,"#, array, text),
        (r#""version":1,"version":2,"#, array, text),
        (r#""version":2,"version":1,"#, array, FILTER),
        (r#""version":0,"#, "$.version", "$.version"),
        (r#""version":3,"#, "$.version", "$.version"),
        (r#""version":-1,"#, "$.version", "$.version"),
        (r#""version":2.0,"#, "$.version", "$.version"),
        (r#""version":"2","#, "$.version", "$.version"),
        (r#""version":[2],"#, "$.version", "$.version"),
    ] {
        let with_array = file(alloc, version, "[1,2]", "[1,2]")?;
        let found = outcome(alloc, with_array.as_bytes())?;
        assert_eq!(rt; found.as_str(), of_array, "of an array and {version}");
        let with_text = file(alloc, version, r#""0.5""#, "[1,2]")?;
        let found = outcome(alloc, with_text.as_bytes())?;
        assert_eq!(rt; found.as_str(), of_text, "of a text and {version}");
    }
    Ok(())
}

// Files without a decimal text, after their first bracket.
const BODIES: [&str; 12] = [
    r#""tables":[],"queries":[]}"#,
    r#""tables":[{"name":"a","rows":1e3}],"queries":[]}"#,
    r#""tables":[{"name":"a","rows":1},{"name":"a","rows":1}],"queries":[]}"#,
    r#""tables":[],"queries":[{"name":"q","relations":[]}]}"#,
    r#""tables":[],"queries":[{"name":"q","relations":[{"alias":"a","table":"x"}]}]}"#,
    r#""tables":[],"queries":[{"name":"q","relations":[{"alias":"a"}]}]}"#,
    r#""tables":[{"name":"t","rows":5,"columns":[{"name":"k","distinct":2}]}],"queries":[{"name":"q",
    "relations":[{"alias":"a","table":"t","filter":[1,4]},{"alias":"b","table":"t"}],
    "joins":[{"left":"b","right":"a","left_column":"k","right_column":"k"}]}]}"#,
    r#""tables":[{"name":"t","rows":5}],"queries":[{"name":"q","relations":[{"alias":"a","table":"t","filter":[2,1]}]}]}"#,
    r#""tables":[{"name":"t","rows":5}],"queries":[{"name":"q","relations":[{"alias":"a","table":"t","filter":[1]}]}]}"#,
    r#""tables":[{"name":"t","rows":5}],"queries":[{"name":"q","relations":[{"alias":"a","table":"t"},{"alias":"b","table":"t"}]}]}"#,
    r#""tables":[{"name":"é\n","rows":5}],"queries":[]}"#,
    r#""tables":[],"queries":7}"#,
];

#[test]
fn a_file_without_decimal_texts_is_the_same_in_both_versions(rt: HostRuntime) -> Result<(), Fail> {
    let alloc = rt.alloc();
    for body in BODIES {
        let one = format!(in alloc; "{{{body}")?;
        let two = format!(in alloc; "{{\"version\":2,{body}")?;
        let first = outcome(alloc, one.as_bytes())?;
        let second = outcome(alloc, two.as_bytes())?;
        assert_eq!(rt; first.as_str(), second.as_str(), "of {body}");
    }
    Ok(())
}
