use super::answer;
use super::files::{file_of, numbered_file};
use super::plans::{TRADE, TRADE_REPORT};
use super::refusals::SPLIT_AND_EVEN;
use crate::Status;
use std::test::Fail;

#[test]
fn reports_in_json(rt: HostRuntime) -> Result<(), Fail> {
    let alloc = rt.alloc();
    let pair = file_of(
        alloc,
        "pair",
        &[("a", 100), ("b", 1000)],
        &[("a", "b", 1, 1000)],
    )?;
    let one = file_of(alloc, "one", &[("a", 100)], &[])?;
    let json: &[&str] = &["--format", "json"];
    let with_statistics: &[&str] = &["--format", "json", "--stats", "on"];
    let cases: [(&[&str], &str, Status, &str); 4] = [
        (
            json,
            pair.as_str(),
            Status::Done,
            "{\"queries\":[{\"cost\":1300,\"name\":\"pair\",\"pairs\":1,\"plan\":{\"cost\":1300,\"left\":{\"alias\":\"a\",\"op\":\"scan\",\"rows\":100},\"op\":\"hash\",\"right\":{\"alias\":\"b\",\"op\":\"scan\",\"rows\":1000},\"rows\":100},\"rows\":100}]}\n",
        ),
        (
            json,
            SPLIT_AND_EVEN,
            Status::SomeRefused,
            "{\"queries\":[{\"code\":9,\"name\":\"split\",\"refusal\":\"relation c is not connected\"},{\"cost\":130,\"name\":\"even\",\"pairs\":1,\"plan\":{\"cost\":130,\"left\":{\"alias\":\"a\",\"op\":\"scan\",\"rows\":10},\"op\":\"hash\",\"right\":{\"alias\":\"b\",\"op\":\"scan\",\"rows\":10},\"rows\":100},\"rows\":100}]}\n",
        ),
        (
            json,
            "{\"tables\":[],\"queries\":[]}",
            Status::Done,
            "{\"queries\":[]}\n",
        ),
        (
            with_statistics,
            one.as_str(),
            Status::Done,
            "{\"queries\":[{\"cost\":0,\"name\":\"one\",\"pairs\":0,\"plan\":{\"alias\":\"a\",\"op\":\"scan\",\"rows\":100},\"rows\":100,\"stats\":{\"buffer\":4096,\"buffers\":0,\"enumerator\":\"dpccp\",\"probes\":0,\"rounds\":0}}]}\n",
        ),
    ];
    for (words, file, want, text) in cases {
        let (status, written) = answer(&rt, alloc, words, file.as_bytes().to_vec(alloc)?)?;
        assert_eq!(rt; status, want, "{text}");
        assert_eq!(rt; written.as_slice(), text.as_bytes(), "{text}");
    }
    Ok(())
}

#[test]
fn statistics_of_small_runs(rt: HostRuntime) -> Result<(), Fail> {
    let alloc = rt.alloc();
    let one = file_of(alloc, "one", &[("a", 100)], &[])?;
    let chain = numbered_file(alloc, "chain", 4, 1, &[(0, 1), (1, 2), (2, 3)])?;
    let clique = numbered_file(
        alloc,
        "clique",
        4,
        1,
        &[(0, 1), (0, 2), (0, 3), (1, 2), (1, 3), (2, 3)],
    )?;
    let mut trade = String::from_str(alloc, TRADE_REPORT)?;
    trade.push_str("stats dpsva buffer 4096 buffers 1 rounds 5 probes 150\n")?;
    let cases: [(&[&str], &str, &str); 4] = [
        (
            &["--stats", "on"],
            one.as_str(),
            "query one\ncost 0 rows 100 pairs 0\nscan a rows 100\nstats dpccp buffer 4096 buffers 0 rounds 0 probes 0\n",
        ),
        (
            &["--buffer", "3", "--stats", "on"],
            chain.as_str(),
            "query chain\ncost 6 rows 1 pairs 10\nloop rows 1 cost 6\n  scan r0 rows 1\n  loop rows 1 cost 4\n    scan r1 rows 1\n    loop rows 1 cost 2\n      scan r2 rows 1\n      scan r3 rows 1\nstats dpccp buffer 3 buffers 4 rounds 7 probes 0\n",
        ),
        (
            &["--enumerator", "dpsva", "--buffer", "10", "--stats", "on"],
            clique.as_str(),
            "query clique\ncost 6 rows 1 pairs 25\nloop rows 1 cost 6\n  scan r0 rows 1\n  loop rows 1 cost 4\n    scan r1 rows 1\n    loop rows 1 cost 2\n      scan r2 rows 1\n      scan r3 rows 1\nstats dpsva buffer 10 buffers 3 rounds 5 probes 53\n",
        ),
        (
            &["--workers", "64", "--enumerator", "dpsva", "--stats", "on"],
            TRADE,
            trade.as_str(),
        ),
    ];
    for (words, file, text) in cases {
        let (status, written) = answer(&rt, alloc, words, file.as_bytes().to_vec(alloc)?)?;
        assert_eq!(rt; status, Status::Done, "{text}");
        assert_eq!(rt; written.as_slice(), text.as_bytes(), "{text}");
    }
    Ok(())
}
