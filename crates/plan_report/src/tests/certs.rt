use crate::{Cert, CertFault, read_certs, write_certs};
use cost_model::ModelKind;
use join_tree::Tree;
use query_json::Items;
use serde_json::json;
use std::alloc::Global;
use std::process::Abort;
use std::test::Fail;

// A file with a certificate of a hundred rows joined to a thousand by a key.
const PAIR: &str =
    r#"{"certificates":[{"bounds":[0,0,0,1300],"plan":[0,0,1]}],"model":"ops","workload":{"queries":[{"joins":[{"left":"a","right":"b","selectivity":"0.001"}],"name":"pair","relations":[{"alias":"a","table":"a"},{"alias":"b","table":"b"}]}],"tables":[{"name":"a","rows":100},{"name":"b","rows":1000}],"version":2}}"#;

// Three queries: of two relations, refused, and of one relation.
const WORKLOAD: &str = r#"{"tables":[{"name":"a","rows":10},{"name":"b","rows":10}],"queries":[
 {"name":"pair","relations":[{"alias":"a","table":"a"},{"alias":"b","table":"b"}],"joins":[{"left":"a","right":"b","selectivity":[1,10]}]},
 {"name":"none","relations":[]},
 {"name":"one","relations":[{"alias":"a","table":"a"}]}]}"#;

fn joined(alloc: Global, left: Tree, right: Tree) -> Result<Tree, Fail> {
    Ok(Tree::Join {
        op: 2,
        left: Box::new(alloc, left)?,
        right: Box::new(alloc, right)?,
    })
}

// How a text is answered.
fn answer(alloc: Global, text: &str) -> &'static str {
    match read_certs(alloc, text.as_bytes()) {
        Ok(_) => "read",
        Err(CertFault::NotJson) => "not JSON",
        Err(CertFault::BadCertificates) => "bad",
        Err(CertFault::Workload(_)) => "workload",
        Err(CertFault::NoMemory) => "no memory",
    }
}

// How a file with these three members over the workload is answered.
fn answer_to_members(alloc: Global, members: &str) -> Result<&'static str, Fail> {
    let mut text = String::from_str(alloc, r#"{"model":"cout","certificates":"#)?;
    text.push_str(members)?;
    text.push_str(r#","workload":"#)?;
    text.push_str(WORKLOAD)?;
    text.push_str("}")?;
    Ok(answer(alloc, text.as_str()))
}

#[test]
fn a_file_has_the_members_that_were_written(rt: HostRuntime) -> Result<(), Fail> {
    let alloc = rt.alloc();
    let tree = joined(
        alloc,
        joined(alloc, Tree::Leaf(1), Tree::Leaf(31))?,
        Tree::Leaf(0),
    )?;
    let bounds = Items::from_vec(vec![in alloc; 0u64, u64::MAX]?);
    let mut certs = Vec::new(alloc);
    certs.push(Some(Cert { tree, bounds }))?;
    certs.push(None)?;
    let workload = json!(in alloc; {"queries": [], "tables": []})?;
    let text = write_certs(alloc, ModelKind::Cout, workload, certs.as_slice())?;
    let expected =
        r#"{"certificates":[{"bounds":[0,18446744073709551615],"plan":[2,[2,1,31],0]},null],"model":"cout","workload":{"queries":[],"tables":[]}}"#;
    assert_eq!(rt; text.as_slice(), expected.as_bytes());
    Ok(())
}

#[test]
fn a_file_is_read_and_written_again(rt: HostRuntime) -> Result<(), Fail> {
    let alloc = rt.alloc();
    let certs = read_certs(alloc, PAIR.as_bytes())?;
    assert_eq!(rt; certs.model, ModelKind::Ops);
    assert_eq!(rt; certs.workload.len(), 1);
    // The members are written as they were read.
    let workload = json!(in alloc; {"queries": [], "tables": []})?;
    let text = write_certs(alloc, certs.model, workload, certs.certs.as_slice())?;
    let expected =
        r#"{"certificates":[{"bounds":[0,0,0,1300],"plan":[0,0,1]}],"model":"ops","workload":{"queries":[],"tables":[]}}"#;
    assert_eq!(rt; text.as_slice(), expected.as_bytes());
    Ok(())
}

#[test]
fn the_first_fault_is_answered(rt: HostRuntime) -> Result<(), Fail> {
    let alloc = rt.alloc();
    for (text, expected) in [
        ("", "not JSON"),
        (r#"{"model":"ops","#, "not JSON"),
        ("[]", "bad"),
        ("{}", "bad"),
        (
            r#"{"model":"merge","certificates":[],"workload":{"tables":[],"queries":[]}}"#,
            "bad",
        ),
        (
            r#"{"model":null,"certificates":[],"workload":{"tables":[],"queries":[]}}"#,
            "bad",
        ),
        (
            r#"{"model":"ops","certificates":null,"workload":{"tables":[],"queries":[]}}"#,
            "bad",
        ),
        (
            r#"{"model":"ops","certificates":{},"workload":{"tables":[],"queries":[]}}"#,
            "bad",
        ),
        (r#"{"model":"ops","certificates":[]}"#, "bad"),
        (
            r#"{"model":"ops","certificates":[],"workload":null}"#,
            "workload",
        ),
        (
            r#"{"model":"ops","certificates":[1],"workload":{"tables":[]}}"#,
            "workload",
        ),
        (
            r#"{"model":"ops","certificates":[],"workload":{"tables":[],"queries":[]}}"#,
            "read",
        ),
        (
            r#"{"model":1,"model":"ops","owner":1.5,"certificates":[],"workload":{"tables":[],"queries":[]}}"#,
            "read",
        ),
    ] {
        assert_eq!(rt; answer(alloc, text), expected, "{text}");
    }
    Ok(())
}

#[test]
fn a_member_may_stand_for_its_query(rt: HostRuntime) -> Result<(), Fail> {
    let alloc = rt.alloc();
    for (members, expected) in [
        ("[null,null,null]", "read"),
        (
            r#"[{"bounds":[0,0,0,7],"plan":[255,[0,31,0],1]},null,{"plan":0,"bounds":[9,18446744073709551615]}]"#,
            "read",
        ),
        ("[null,null]", "bad"),
        ("[null,null,null,null]", "bad"),
        (r#"[null,{"bounds":[0],"plan":0},null]"#, "bad"),
        (r#"[1,null,null]"#, "bad"),
        (r#"[{},null,null]"#, "bad"),
        (r#"[{"bounds":null,"plan":0},null,null]"#, "bad"),
        (r#"[{"bounds":[0,0,0,0]},null,null]"#, "bad"),
        (r#"[{"bounds":[0,0,0],"plan":[0,0,1]},null,null]"#, "bad"),
        (
            r#"[{"bounds":[0,0,0,0,0],"plan":[0,0,1]},null,null]"#,
            "bad",
        ),
        (r#"[{"bounds":[0,0,0,-1],"plan":[0,0,1]},null,null]"#, "bad"),
        (
            r#"[{"bounds":[0,0,0,1.0],"plan":[0,0,1]},null,null]"#,
            "bad",
        ),
        (
            r#"[{"bounds":[0,0,0,18446744073709551616],"plan":[0,0,1]},null,null]"#,
            "bad",
        ),
        (r#"[{"bounds":[0,0,0,0],"plan":null},null,null]"#, "bad"),
        (r#"[{"bounds":[0,0,0,0],"plan":32},null,null]"#, "bad"),
        (
            r#"[{"bounds":[0,0,0,0],"plan":[256,0,1]},null,null]"#,
            "bad",
        ),
        (
            r#"[{"bounds":[0,0,0,0],"plan":["0",0,1]},null,null]"#,
            "bad",
        ),
        (r#"[{"bounds":[0,0,0,0],"plan":[]},null,null]"#, "bad"),
        (r#"[{"bounds":[0,0,0,0],"plan":[0,0]},null,null]"#, "bad"),
        (
            r#"[{"bounds":[0,0,0,0],"plan":[0,0,1,1]},null,null]"#,
            "bad",
        ),
        (
            r#"[{"bounds":[0,0,0,0],"plan":[0,0,[1,1]]},null,null]"#,
            "bad",
        ),
    ] {
        assert_eq!(rt; answer_to_members(alloc, members)?, expected, "{members}");
    }
    Ok(())
}

// A file with a chain of so many relations, up to its certificates.
fn chain(alloc: Global, n: u32) -> Result<String, Fail> {
    let mut text = String::from_str(
        alloc,
        r#"{"model":"ops","workload":{"tables":[{"name":"t","rows":1}],"queries":[{"name":"chain","relations":["#,
    )?;
    for i in 0..n {
        let comma = if i == 0 { "" } else { "," };
        write!(text, "{comma}{{\"alias\":\"r{i}\",\"table\":\"t\"}}")?;
    }
    text.push_str(r#"],"joins":["#)?;
    for i in 1..n {
        let (comma, before) = (if i == 1 { "" } else { "," }, i - 1);
        write!(
            text,
            "{comma}{{\"left\":\"r{before}\",\"right\":\"r{i}\",\"selectivity\":[1,1]}}"
        )?;
    }
    text.push_str(r#"]}]},"certificates":["#)?;
    Ok(text)
}

// The file with a certificate whose bounds are 0.
fn certified_chain(alloc: Global, n: u32) -> Result<String, Fail> {
    let mut text = chain(alloc, n)?;
    text.push_str(r#"{"plan":0,"bounds":[0"#)?;
    for _ in 1..1u64 << n.min(20) {
        text.push_str(",0")?;
    }
    text.push_str("]}]}")?;
    Ok(text)
}

#[test]
fn twelve_relations_may_be_certified(rt: HostRuntime) -> Result<(), Fail> {
    let alloc = rt.alloc();
    assert_eq!(rt; answer(alloc, certified_chain(alloc, 12)?.as_str()), "read");
    assert_eq!(rt; answer(alloc, certified_chain(alloc, 13)?.as_str()), "bad");
    let mut uncertified = chain(alloc, 13)?;
    uncertified.push_str("null]}")?;
    assert_eq!(rt; answer(alloc, uncertified.as_str()), "read");
    Ok(())
}

// Three members, of which the first has a plan of so many joins, each the left side of the next.
fn with_left_deep_plan(alloc: Global, joins: u32) -> Result<String, Fail> {
    let mut members = String::from_str(alloc, r#"[{"bounds":[0,0,0,0],"plan":"#)?;
    for _ in 0..joins {
        members.push_str("[0,")?;
    }
    members.push_str("0")?;
    for _ in 0..joins {
        members.push_str(",1]")?;
    }
    members.push_str("},null,null]")?;
    Ok(members)
}

#[test]
fn plans_nest_as_deep_as_json_is_read(rt: HostRuntime) -> Result<(), Fail> {
    let alloc = rt.alloc();
    // the file, the list of members and the member are three levels of 127
    for (joins, expected) in [(1u32, "read"), (124, "read"), (125, "not JSON")] {
        let members = with_left_deep_plan(alloc, joins)?;
        assert_eq!(rt;
            answer_to_members(alloc, members.as_str())?,
            expected,
            "{joins}"
        );
    }
    Ok(())
}
