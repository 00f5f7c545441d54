//! Modes certify and check.
use super::answer;
use super::files::{file_of, numbered_file};
use super::plans::{BOTH, TRADE};
use super::refusals::SPLIT_AND_EVEN;
use super::shapes::clique_joins;
use crate::Status;
use std::alloc::{AllocError, Global};
use std::test::Fail;
use std::thread::Threads;

const CERTIFY: &[&str] = &["--mode", "certify"];

const CHECK: &[&str] = &["--mode", "check"];

// The certificate file of two relations of 100 and 1,000 rows that a key joins, with these bounds and this plan.
fn pair_with(alloc: Global, member: &str) -> Result<Vec<u8>, AllocError> {
    let mut text = String::from_str(alloc, "{\"certificates\":[")?;
    text.push_str(member)?;
    text.push_str(
        "],\"model\":\"ops\",\"workload\":{\"queries\":[{\"joins\":[{\"left\":\"a\",\"right\":\"b\",\"selectivity\":\"0.001\"}],\"name\":\"pair\",\"relations\":[{\"alias\":\"a\",\"table\":\"a\"},{\"alias\":\"b\",\"table\":\"b\"}]}],\"tables\":[{\"name\":\"a\",\"rows\":100},{\"name\":\"b\",\"rows\":1000}],\"version\":2}}\n",
    )?;
    Ok(text.into_bytes())
}

const PAIR: &str = "{\"bounds\":[0,0,0,1300],\"plan\":[0,0,1]}";

#[test]
fn two_relations_are_certified(rt: HostRuntime) -> Result<(), Fail> {
    let alloc = rt.alloc();
    let pair = file_of(
        alloc,
        "pair",
        &[("a", 100), ("b", 1000)],
        &[("a", "b", 1, 1000)],
    )?;
    let (status, written) = answer(&rt, alloc, CERTIFY, pair.as_bytes().to_vec(alloc)?)?;
    assert_eq!(rt; status, Status::Done);
    assert_eq!(rt; written.as_slice(), pair_with(alloc, PAIR)?.as_slice());
    Ok(())
}

#[test]
fn a_certificate_is_optimal_wrong_or_none(rt: HostRuntime) -> Result<(), Fail> {
    let alloc = rt.alloc();
    for (member, want, text) in [
        (
            PAIR,
            Status::Done,
            "query pair\nverdict optimal cost 1300\n",
        ),
        (
            "{\"bounds\":[0,0,0,1299],\"plan\":[0,0,1]}",
            Status::SomeRefused,
            "query pair\nverdict wrong\n",
        ),
        (
            "{\"bounds\":[0,0,0,1301],\"plan\":[0,0,1]}",
            Status::SomeRefused,
            "query pair\nverdict wrong\n",
        ),
        (
            "{\"bounds\":[0,0,0,1300],\"plan\":[0,1,0]}",
            Status::SomeRefused,
            "query pair\nverdict wrong\n",
        ),
        (
            "{\"bounds\":[0,0,0,1300],\"plan\":[3,0,1]}",
            Status::SomeRefused,
            "query pair\nverdict wrong\n",
        ),
        (
            "{\"bounds\":[0,0,0,1300],\"plan\":[0,0,0]}",
            Status::SomeRefused,
            "query pair\nverdict wrong\n",
        ),
        (
            "{\"bounds\":[0,0,0,18446744073709551615],\"plan\":[0,0,1]}",
            Status::SomeRefused,
            "query pair\nverdict wrong\n",
        ),
        ("null", Status::Done, "query pair\nverdict none\n"),
    ] {
        let (status, written) = answer(&rt, alloc, CHECK, pair_with(alloc, member)?)?;
        assert_eq!(rt; status, want, "{member}");
        assert_eq!(rt; written.as_slice(), text.as_bytes(), "{member}");
    }
    Ok(())
}

// The certificate file of a workload, and the verdicts on it.
fn certified_and_checked<R: Threads + Sync>(
    rt: &R,
    alloc: Global,
    words: &[&str],
    file: &str,
) -> Result<(Status, Status, Vec<u8>), AllocError> {
    let (status, certificates) = answer(rt, alloc, words, file.as_bytes().to_vec(alloc)?)?;
    let (checked, verdicts) = answer(rt, alloc, CHECK, certificates)?;
    Ok((status, checked, verdicts))
}

#[test]
fn what_is_certified_is_optimal(rt: HostRuntime) -> Result<(), Fail> {
    let alloc = rt.alloc();
    let three = file_of(
        alloc,
        "three",
        &[("a", 10), ("b", 10), ("c", 10)],
        &[("a", "b", 1, 10), ("b", "c", 1, 10)],
    )?;
    let one = file_of(alloc, "one", &[("a", 100)], &[])?;
    let cout: &[&str] = &["--mode", "certify", "--model", "cout", "--format", "json"];
    let dpsva: &[&str] = &[
        "--mode",
        "certify",
        "--enumerator",
        "dpsva",
        "--workers",
        "1",
        "--buffer",
        "2",
    ];
    let cases: [(&[&str], &str, Status, &str); 5] = [
        (
            CERTIFY,
            three.as_str(),
            Status::Done,
            "query three\nverdict optimal cost 80\n",
        ),
        (
            dpsva,
            three.as_str(),
            Status::Done,
            "query three\nverdict optimal cost 80\n",
        ),
        (
            cout,
            three.as_str(),
            Status::Done,
            "query three\nverdict optimal cost 20\n",
        ),
        (
            CERTIFY,
            one.as_str(),
            Status::Done,
            "query one\nverdict optimal cost 0\n",
        ),
        (
            CERTIFY,
            SPLIT_AND_EVEN,
            Status::SomeRefused,
            "query split\nverdict none\nquery even\nverdict optimal cost 130\n",
        ),
    ];
    for (words, file, want, text) in cases {
        let (status, checked, verdicts) = certified_and_checked(&rt, alloc, words, file)?;
        assert_eq!(rt; status, want, "{text}");
        assert_eq!(rt; checked, Status::Done, "{text}");
        assert_eq!(rt; verdicts.as_slice(), text.as_bytes(), "{text}");
    }
    Ok(())
}

// A bushy plan, and a star whose centre is the largest table.
fn small_files(alloc: Global) -> Result<(String, String), AllocError> {
    let bushy = file_of(
        alloc,
        "bushy",
        &[("a", 1000), ("b", 1000), ("c", 1000), ("d", 1000)],
        &[
            ("a", "b", 1, 100000),
            ("b", "c", 1, 1),
            ("c", "d", 1, 100000),
        ],
    )?;
    let centre = file_of(
        alloc,
        "centre",
        &[
            ("a", 1 << 20),
            ("b", 1 << 20),
            ("c", 1 << 20),
            ("f", 1 << 30),
        ],
        &[
            ("a", "f", 1, 1 << 20),
            ("b", "f", 1, 1 << 20),
            ("c", "f", 1, 1 << 20),
        ],
    )?;
    Ok((bushy, centre))
}

#[test]
fn the_costs_of_reports_are_confirmed(rt: HostRuntime) -> Result<(), Fail> {
    let alloc = rt.alloc();
    let (bushy, centre) = small_files(alloc)?;
    let clique = numbered_file(alloc, "clique", 8, 1, clique_joins(alloc, 8)?.as_slice())?;
    let cout: &[&str] = &["--mode", "certify", "--model", "cout"];
    let cases: [(&[&str], &str, &str); 7] = [
        (
            cout,
            bushy.as_str(),
            "query bushy\nverdict optimal cost 120\n",
        ),
        (
            cout,
            centre.as_str(),
            "query centre\nverdict optimal cost 3221225472\n",
        ),
        (
            CERTIFY,
            clique.as_str(),
            "query clique\nverdict optimal cost 14\n",
        ),
        (CERTIFY, TRADE, "query top\nverdict optimal cost 7160040\n"),
        (CERTIFY, BOTH, "query both\nverdict optimal cost 4000\n"),
        (cout, BOTH, "query both\nverdict optimal cost 1000\n"),
        (CERTIFY, "{\"tables\":[],\"queries\":[]}", ""),
    ];
    for (words, file, text) in cases {
        let (status, checked, verdicts) = certified_and_checked(&rt, alloc, words, file)?;
        assert_eq!(rt; status, Status::Done, "{text}");
        assert_eq!(rt; checked, Status::Done, "{text}");
        assert_eq!(rt; verdicts.as_slice(), text.as_bytes(), "{text}");
    }
    Ok(())
}

#[test]
fn thirteen_relations_are_not_certified(rt: HostRuntime) -> Result<(), Fail> {
    let alloc = rt.alloc();
    let joins = [
        (0, 1),
        (1, 2),
        (2, 3),
        (3, 4),
        (4, 5),
        (5, 6),
        (6, 7),
        (7, 8),
        (8, 9),
        (9, 10),
        (10, 11),
        (11, 12),
    ];
    let file = numbered_file(alloc, "chain", 13, 1, &joins)?;
    let (status, checked, verdicts) = certified_and_checked(&rt, alloc, CERTIFY, file.as_str())?;
    assert_eq!(rt; status, Status::SomeRefused);
    assert_eq!(rt; checked, Status::Done);
    assert_eq!(rt;
        verdicts.as_slice(),
        "query chain\nverdict none\n".as_bytes()
    );
    Ok(())
}

#[test]
fn sets_that_are_not_connected_have_the_bound_0(rt: HostRuntime) -> Result<(), Fail> {
    let alloc = rt.alloc();
    let three = file_of(
        alloc,
        "three",
        &[("a", 10), ("b", 10), ("c", 10)],
        &[("a", "b", 1, 10), ("b", "c", 1, 10)],
    )?;
    let (status, written) = answer(&rt, alloc, CERTIFY, three.as_bytes().to_vec(alloc)?)?;
    assert_eq!(rt; status, Status::Done);
    let member = "{\"certificates\":[{\"bounds\":[0,0,0,40,0,0,40,80],\"plan\":[0,0,[0,1,2]]}],";
    assert!(rt; written.as_slice().starts_with(member.as_bytes()));
    Ok(())
}

#[test]
fn certificate_files_with_faults(rt: HostRuntime) -> Result<(), Fail> {
    let alloc = rt.alloc();
    for (file, text) in [
        ("", "input: not JSON\n"),
        ("[]", "input: bad certificates\n"),
        (
            "{\"model\":\"ops\",\"certificates\":[]}",
            "input: bad certificates\n",
        ),
        (
            "{\"model\":\"ops\",\"certificates\":[7],\"workload\":{\"tables\":[],\"queries\":[{}]}}",
            "input: bad shape at $.queries[0].name\n",
        ),
        (
            "{\"model\":\"ops\",\"certificates\":[7],\"workload\":{\"tables\":[],\"queries\":[{\"name\":\"q\",\"relations\":[]}]}}",
            "input: bad certificates\n",
        ),
    ] {
        let (status, written) = answer(&rt, alloc, CHECK, file.as_bytes().to_vec(alloc)?)?;
        assert_eq!(rt; status, Status::Input, "{file}");
        assert_eq!(rt; written.as_slice(), text.as_bytes(), "{file}");
    }
    let (status, written) = answer(&rt, alloc, CERTIFY, "{}".as_bytes().to_vec(alloc)?)?;
    assert_eq!(rt; status, Status::Input);
    assert_eq!(rt;
        written.as_slice(),
        "input: bad shape at $.tables\n".as_bytes()
    );
    Ok(())
}
