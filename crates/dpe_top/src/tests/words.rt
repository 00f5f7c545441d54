use super::answer;
use super::files::file_of;
use crate::Status;
use std::test::Fail;

const USAGE: &str =
    "usage: dpe [--mode M] [--enumerator E] [--buffer N] [--workers N] [--model M] [--format F] [--stats S] [--number N]\n";

#[test]
fn words_that_are_no_command_line(rt: HostRuntime) -> Result<(), Fail> {
    let alloc = rt.alloc();
    let lines: [&[&str]; 14] = [
        &["--workers", "0"],
        &["--workers", "65"],
        &["--enumerator", "dphyp"],
        &["--stats"],
        &["--mode", "plan", "--mode", "plan"],
        &["stray"],
        &["--", "stray"],
        &["--mod", "ops"],
        &["--model", ""],
        &["--model="],
        &["--model", "hash"],
        &["--model", "ops", "--model", "ops"],
        &["--number", "-1"],
        &["--help"],
    ];
    for words in lines {
        let (status, written) = answer(&rt, alloc, words, Vec::new(alloc))?;
        assert_eq!(rt; status, Status::Usage, "{words:?}");
        assert_eq!(rt; written.as_slice(), USAGE.as_bytes(), "{words:?}");
    }
    Ok(())
}

#[test]
fn words_that_are_a_command_line(rt: HostRuntime) -> Result<(), Fail> {
    let alloc = rt.alloc();
    let by_ops =
        "query even\ncost 130 rows 100 pairs 1\nhash rows 100 cost 130\n  scan a rows 10\n  scan b rows 10\n";
    let by_rows =
        "query even\ncost 100 rows 100 pairs 1\njoin rows 100 cost 100\n  scan a rows 10\n  scan b rows 10\n";
    let lines: [(&[&str], &str); 7] = [
        (&[], by_ops),
        (&["--"], by_ops),
        (&["--model", "cout"], by_rows),
        (&["--model=cout"], by_rows),
        (
            &["--workers=64", "--mode=plan", "--model", "cout", "--"],
            by_rows,
        ),
        (
            &["--stats", "off", "--format=text", "--number", "0"],
            by_ops,
        ),
        (&["--buffer", "065536", "--enumerator", "dpsize"], by_ops),
    ];
    for (words, text) in lines {
        let file = file_of(alloc, "even", &[("a", 10), ("b", 10)], &[("a", "b", 1, 1)])?;
        let (status, written) = answer(&rt, alloc, words, file.into_bytes())?;
        assert_eq!(rt; status, Status::Done, "{words:?}");
        assert_eq!(rt; written.as_slice(), text.as_bytes(), "{words:?}");
    }
    Ok(())
}
