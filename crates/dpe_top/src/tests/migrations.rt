use super::answer;
use crate::Status;
use std::test::Fail;

const EXAMPLE: &str = r#"{"tables":[
  {"name":"a","rows":1000,"columns":[{"name":"k","distinct":100}]},
  {"name":"b","rows":1000,"columns":[{"name":"k","distinct":50}]}],
 "queries":[
  {"name":"both",
   "relations":[{"alias":"a","table":"a"},{"alias":"b","table":"b"}],
   "joins":[
    {"left":"a","right":"b","left_column":"k","right_column":"k"},
    {"left":"a","right":"b","selectivity":[1,10]}]}]}"#;

const EXAMPLE_IN_TWO: &str =
    "{\"queries\":[{\"joins\":[{\"left\":\"a\",\"left_column\":\"k\",\"right\":\"b\",\"right_column\":\"k\"},{\"left\":\"a\",\"right\":\"b\",\"selectivity\":\"0.1\"}],\"name\":\"both\",\"relations\":[{\"alias\":\"a\",\"table\":\"a\"},{\"alias\":\"b\",\"table\":\"b\"}]}],\"tables\":[{\"columns\":[{\"distinct\":100,\"name\":\"k\"}],\"name\":\"a\",\"rows\":1000},{\"columns\":[{\"distinct\":50,\"name\":\"k\"}],\"name\":\"b\",\"rows\":1000}],\"version\":2}\n";

#[test]
fn files_are_migrated(rt: HostRuntime) -> Result<(), Fail> {
    let alloc = rt.alloc();
    let cases: [(&[&str], &str, Status, &str); 6] = [
        (
            &["--mode", "migrate"],
            EXAMPLE,
            Status::Done,
            EXAMPLE_IN_TWO,
        ),
        (
            &["--mode=migrate", "--format", "json", "--stats", "on"],
            EXAMPLE_IN_TWO,
            Status::Done,
            EXAMPLE_IN_TWO,
        ),
        // a query that is refused
        (
            &["--mode", "migrate"],
            r#"{"queries":[{"name":"q","relations":[]}],"tables":[]}"#,
            Status::Done,
            "{\"queries\":[{\"name\":\"q\",\"relations\":[]}],\"tables\":[],\"version\":2}\n",
        ),
        (
            &["--mode", "migrate"],
            r#"{"queries":[],"tables":[],"version":3}"#,
            Status::Input,
            "input: bad shape at $.version\n",
        ),
        (
            &["--mode", "migrate"],
            "{",
            Status::Input,
            "input: not JSON\n",
        ),
        (
            &["--mode", "plan"],
            EXAMPLE_IN_TWO,
            Status::Done,
            "query both\ncost 4000 rows 1000 pairs 1\nhash rows 1000 cost 4000\n  scan a rows 1000\n  scan b rows 1000\n",
        ),
    ];
    for (words, file, status, wanted) in cases {
        let found = answer(&rt, alloc, words, file.as_bytes().to_vec(alloc)?)?;
        assert!(rt; found.0 == status);
        assert_eq!(rt; found.1.as_slice(), wanted.as_bytes());
    }
    Ok(())
}
