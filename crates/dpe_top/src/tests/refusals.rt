use super::files::{crowded_file, numbered_file};
use super::plans::FIRST;
use super::{answer, run};
use crate::{INPUT_MAX, OpenGate, Status};
use dpe_base::N_MAX;
use io_edge::{MemSink, MemSource};
use std::test::Fail;

/// A query in two parts, and one of two relations.
pub const SPLIT_AND_EVEN: &str =
    "{\"tables\":[{\"name\":\"a\",\"rows\":10},{\"name\":\"b\",\"rows\":10},{\"name\":\"c\",\"rows\":10},{\"name\":\"d\",\"rows\":10}],\
\"queries\":[{\"name\":\"split\",\"relations\":[{\"alias\":\"a\",\"table\":\"a\"},{\"alias\":\"b\",\"table\":\"b\"},{\"alias\":\"c\",\"table\":\"c\"},{\"alias\":\"d\",\"table\":\"d\"}],\
\"joins\":[{\"left\":\"a\",\"right\":\"b\",\"selectivity\":[1,10]},{\"left\":\"c\",\"right\":\"d\",\"selectivity\":[1,10]}]},\
{\"name\":\"even\",\"relations\":[{\"alias\":\"a\",\"table\":\"a\"},{\"alias\":\"b\",\"table\":\"b\"}],\"joins\":[{\"left\":\"a\",\"right\":\"b\",\"selectivity\":[1,1]}]}]}";

#[test]
fn refused_queries_are_named(rt: HostRuntime) -> Result<(), Fail> {
    let alloc = rt.alloc();
    let twice = "{\"tables\":[{\"name\":\"a\",\"rows\":1}],\"queries\":[{\"name\":\"twice\",\
\"relations\":[{\"alias\":\"a\",\"table\":\"a\"},{\"alias\":\"a\",\"table\":\"a\"},{\"alias\":\"b\",\"table\":\"x\"}]}]}";
    let big = numbered_file(alloc, "big", N_MAX as u32 + 1, 1, &[])?;
    let cases: [(&[&str], &str, &str); 4] = [
        (
            &[],
            SPLIT_AND_EVEN,
            "query split\nrefused 9: relation c is not connected\nquery even\ncost 130 rows 100 pairs 1\nhash rows 100 cost 130\n  scan a rows 10\n  scan b rows 10\n",
        ),
        (
            &["--model", "cout"],
            SPLIT_AND_EVEN,
            "query split\nrefused 9: relation c is not connected\nquery even\ncost 100 rows 100 pairs 1\njoin rows 100 cost 100\n  scan a rows 10\n  scan b rows 10\n",
        ),
        (&[], twice, "query twice\nrefused 3: alias a twice\n"),
        (
            &[],
            big.as_str(),
            "query big\nrefused 2: 21 relations, at most 20\n",
        ),
    ];
    for (words, file, text) in cases {
        let (status, written) = answer(&rt, alloc, words, file.as_bytes().to_vec(alloc)?)?;
        assert_eq!(rt; status, Status::SomeRefused, "{text}");
        assert_eq!(rt; written.as_slice(), text.as_bytes(), "{text}");
    }
    Ok(())
}

#[test]
fn faults_of_the_file_are_named(rt: HostRuntime) -> Result<(), Fail> {
    let alloc = rt.alloc();
    let point =
        "{\"tables\":[{\"name\":\"a\",\"rows\":1},{\"name\":\"b\",\"rows\":1}],\"queries\":[{\"name\":\"q\",\
\"relations\":[{\"alias\":\"a\",\"table\":\"a\"},{\"alias\":\"b\",\"table\":\"b\"}],\"joins\":[{\"left\":\"a\",\"right\":\"b\",\"selectivity\":1.5}]}]}";
    let three = "{\"version\":3,\"tables\":[],\"queries\":[]}";
    let same =
        "{\"tables\":[{\"name\":\"a\",\"rows\":1},{\"name\":\"a\",\"rows\":1}],\"queries\":[]}";
    let cases: [(Vec<u8>, &str); 10] = [
        (Vec::new(alloc), "input: not JSON\n"),
        (b"{\"tables\":[{\"na".to_vec(alloc)?, "input: not JSON\n"),
        (vec![in alloc; b' '; INPUT_MAX]?, "input: not JSON\n"),
        (
            vec![in alloc; b' '; INPUT_MAX + 1]?,
            "input: more than 8388608 bytes\n",
        ),
        (
            point.as_bytes().to_vec(alloc)?,
            "input: bad shape at $.queries[0].joins[0].selectivity\n",
        ),
        (
            three.as_bytes().to_vec(alloc)?,
            "input: bad shape at $.version\n",
        ),
        (
            crowded_file(alloc, 4097, 1025)?.into_bytes(),
            "input: more than 4096 tables\n",
        ),
        (
            crowded_file(alloc, 4096, 1025)?.into_bytes(),
            "input: more than 1024 queries\n",
        ),
        (
            crowded_file(alloc, 1, 1025)?.into_bytes(),
            "input: more than 1024 queries\n",
        ),
        (same.as_bytes().to_vec(alloc)?, "input: table a twice\n"),
    ];
    for (bytes, text) in cases {
        let (status, written) = answer(&rt, alloc, &[], bytes)?;
        assert_eq!(rt; status, Status::Input, "{text}");
        assert_eq!(rt; written.as_slice(), text.as_bytes(), "{text}");
    }
    Ok(())
}

#[test]
fn ends_that_fail_have_statuses_of_their_own(rt: HostRuntime) -> Result<(), Fail> {
    let alloc = rt.alloc();
    let file = FIRST.file(alloc)?;
    let cases: [(&[u64], &[u64], Status, &str); 3] = [
        (&[1], &[], Status::ReadFault, ""),
        (&[], &[2], Status::WriteFault, "query fi"),
        (&[], &[0], Status::WriteFault, ""),
    ];
    for (reads, writes, want, text) in cases {
        let source = MemSource::new(file.as_bytes().to_vec(alloc)?, 64, reads.to_vec(alloc)?);
        let sink = MemSink::new(alloc, 1024, 4, writes.to_vec(alloc)?)?;
        let (status, written) = run(&rt, alloc, &["--model", "cout"], source, sink, &OpenGate)?;
        assert_eq!(rt; status, want);
        assert_eq!(rt; written.as_slice(), text.as_bytes());
    }
    Ok(())
}
