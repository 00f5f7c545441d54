use super::answer;
use super::files::file_of;
use crate::Status;
use std::alloc::{AllocError, Global};
use std::test::Fail;

/// A query over tables of the same names, and the report of its plan with each of these lines of words.
#[derive(Clone, Copy)]
pub struct Case {
    lines: &'static [&'static [&'static str]],
    name: &'static str,
    relations: &'static [(&'static str, u64)],
    joins: &'static [(&'static str, &'static str, u64, u64)],
    pub text: &'static str,
}

impl Case {
    /// A file with the query.
    pub fn file(&self, alloc: Global) -> Result<String, AllocError> {
        file_of(alloc, self.name, self.relations, self.joins)
    }
}

/// A small query, planned by the sizes of its joins alone.
pub const FIRST: Case = Case {
    lines: &[&["--model", "cout"]],
    name: "first",
    relations: &[("a", 100), ("b", 1000), ("c", 10)],
    joins: &[("a", "b", 1, 100), ("b", "c", 1, 100)],
    text: "query first\ncost 200 rows 100 pairs 4\njoin rows 100 cost 200\n  scan a rows 100\n  join rows 100 cost 100\n    scan b rows 1000\n    scan c rows 10\n",
};

static CASES: [Case; 7] = [
    FIRST,
    Case {
        lines: &[&[]],
        name: "pair",
        relations: &[("a", 100), ("b", 1000)],
        joins: &[("a", "b", 1, 1000)],
        text: "query pair\ncost 1300 rows 100 pairs 1\nhash rows 100 cost 1300\n  scan a rows 100\n  scan b rows 1000\n",
    },
    Case {
        lines: &[&["--model", "ops"]],
        name: "even",
        relations: &[("a", 10), ("b", 10)],
        joins: &[("a", "b", 1, 1)],
        text: "query even\ncost 130 rows 100 pairs 1\nhash rows 100 cost 130\n  scan a rows 10\n  scan b rows 10\n",
    },
    Case {
        lines: &[&[]],
        name: "tie",
        relations: &[("a", 4), ("b", 2)],
        joins: &[("a", "b", 1, 1)],
        text: "query tie\ncost 16 rows 8 pairs 1\nhash rows 8 cost 16\n  scan b rows 2\n  scan a rows 4\n",
    },
    Case {
        lines: &[&[]],
        name: "three",
        relations: &[("a", 10), ("b", 10), ("c", 10)],
        joins: &[("a", "b", 1, 10), ("b", "c", 1, 10)],
        text: "query three\ncost 80 rows 10 pairs 4\nhash rows 10 cost 80\n  scan a rows 10\n  hash rows 10 cost 40\n    scan b rows 10\n    scan c rows 10\n",
    },
    Case {
        lines: &[&["--model", "cout"]],
        name: "bushy",
        relations: &[("a", 1000), ("b", 1000), ("c", 1000), ("d", 1000)],
        joins: &[
            ("a", "b", 1, 100000),
            ("b", "c", 1, 1),
            ("c", "d", 1, 100000),
        ],
        text: "query bushy\ncost 120 rows 100 pairs 10\njoin rows 100 cost 120\n  join rows 10 cost 10\n    scan a rows 1000\n    scan b rows 1000\n  join rows 10 cost 10\n    scan c rows 1000\n    scan d rows 1000\n",
    },
    Case {
        lines: &[
            &["--model", "cout"],
            &["--model", "cout", "--enumerator", "dpsub"],
        ],
        name: "centre",
        relations: &[
            ("a", 1048576),
            ("b", 1048576),
            ("c", 1048576),
            ("f", 1073741824),
        ],
        joins: &[
            ("a", "f", 1, 1048576),
            ("b", "f", 1, 1048576),
            ("c", "f", 1, 1048576),
        ],
        text: "query centre\ncost 3221225472 rows 1073741824 pairs 12\njoin rows 1073741824 cost 3221225472\n  scan a rows 1048576\n  join rows 1073741824 cost 2147483648\n    scan b rows 1048576\n    join rows 1073741824 cost 1073741824\n      scan c rows 1048576\n      scan f rows 1073741824\n",
    },
];

#[test]
fn small_queries_get_their_best_plans(rt: HostRuntime) -> Result<(), Fail> {
    let alloc = rt.alloc();
    for case in &CASES {
        let name = case.name;
        for words in case.lines {
            let file = case.file(alloc)?;
            let (status, written) = answer(&rt, alloc, words, file.into_bytes())?;
            assert_eq!(rt; status, Status::Done, "{name} {words:?}");
            assert_eq!(rt;
                written.as_slice(),
                case.text.as_bytes(),
                "{name} {words:?}"
            );
        }
    }
    Ok(())
}

/// Six tables of a trader, with their columns, and a query over them.
pub const TRADE: &str = "{\"tables\":[\
{\"name\":\"region\",\"rows\":5,\"columns\":[{\"name\":\"regionkey\",\"distinct\":5}]},\
{\"name\":\"nation\",\"rows\":25,\"columns\":[{\"name\":\"nationkey\",\"distinct\":25},{\"name\":\"regionkey\",\"distinct\":5}]},\
{\"name\":\"customer\",\"rows\":150000,\"columns\":[{\"name\":\"custkey\",\"distinct\":150000},{\"name\":\"nationkey\",\"distinct\":25}]},\
{\"name\":\"orders\",\"rows\":1500000,\"columns\":[{\"name\":\"orderkey\",\"distinct\":1500000},{\"name\":\"custkey\",\"distinct\":100000}]},\
{\"name\":\"lineitem\",\"rows\":6000000,\"columns\":[{\"name\":\"orderkey\",\"distinct\":1500000},{\"name\":\"partkey\",\"distinct\":200000}]},\
{\"name\":\"part\",\"rows\":200000,\"columns\":[{\"name\":\"partkey\",\"distinct\":200000}]},\
{\"name\":\"supplier\",\"rows\":10000,\"columns\":[{\"name\":\"suppkey\",\"distinct\":10000}]},\
{\"name\":\"partsupp\",\"rows\":800000,\"columns\":[{\"name\":\"partkey\",\"distinct\":200000}]}],\
\"queries\":[{\"name\":\"top\",\"relations\":[\
{\"alias\":\"r\",\"table\":\"region\",\"filter\":[1,5]},{\"alias\":\"n\",\"table\":\"nation\"},{\"alias\":\"c\",\"table\":\"customer\"},\
{\"alias\":\"o\",\"table\":\"orders\",\"filter\":[1,10]},{\"alias\":\"l\",\"table\":\"lineitem\"},{\"alias\":\"p\",\"table\":\"part\"}],\
\"joins\":[\
{\"left\":\"r\",\"right\":\"n\",\"left_column\":\"regionkey\",\"right_column\":\"regionkey\"},\
{\"left\":\"n\",\"right\":\"c\",\"left_column\":\"nationkey\",\"right_column\":\"nationkey\"},\
{\"left\":\"c\",\"right\":\"o\",\"left_column\":\"custkey\",\"right_column\":\"custkey\"},\
{\"left\":\"o\",\"right\":\"l\",\"left_column\":\"orderkey\",\"right_column\":\"orderkey\"},\
{\"left\":\"l\",\"right\":\"p\",\"left_column\":\"partkey\",\"right_column\":\"partkey\"}]}]}";

/// The report of the trader's query.
pub const TRADE_REPORT: &str =
    "query top\ncost 7160040 rows 120000 pairs 35\nhash rows 120000 cost 7160040\n  hash rows 120000 cost 6600040\n    hash rows 30000 cost 420040\n      hash rows 30000 cost 180040\n        loop rows 5 cost 30\n          scan r rows 1\n          scan n rows 25\n        scan c rows 150000\n      scan o rows 150000\n    scan l rows 6000000\n  scan p rows 200000\n";

/// A query with two joins between the same two relations.
pub const BOTH: &str = "{\"tables\":[\
{\"name\":\"a\",\"rows\":1000,\"columns\":[{\"name\":\"k\",\"distinct\":100}]},\
{\"name\":\"b\",\"rows\":1000,\"columns\":[{\"name\":\"k\",\"distinct\":50}]}],\
\"queries\":[{\"name\":\"both\",\"relations\":[{\"alias\":\"a\",\"table\":\"a\"},{\"alias\":\"b\",\"table\":\"b\"}],\
\"joins\":[{\"left\":\"a\",\"right\":\"b\",\"left_column\":\"k\",\"right_column\":\"k\"},{\"left\":\"a\",\"right\":\"b\",\"selectivity\":[1,10]}]}]}";

const ZERO: &str = "{\"tables\":[\
{\"name\":\"a\",\"rows\":0,\"columns\":[{\"name\":\"k\",\"distinct\":0}],\"owner\":1.5},\
{\"name\":\"b\",\"rows\":10,\"columns\":[{\"name\":\"k\",\"distinct\":0}]}],\
\"queries\":[{\"name\":\"zero\",\"relations\":[{\"alias\":\"a\",\"table\":\"a\"},{\"alias\":\"b\",\"table\":\"b\"}],\
\"joins\":[{\"left\":\"a\",\"right\":\"b\",\"left_column\":\"k\",\"right_column\":\"k\"}]}]}";

#[test]
fn columns_and_filters_count(rt: HostRuntime) -> Result<(), Fail> {
    let alloc = rt.alloc();
    let cases: [(&[&str], &str, &str); 7] = [
        (&[], TRADE, TRADE_REPORT),
        (&["--enumerator", "dpsub"], TRADE, TRADE_REPORT),
        (&["--enumerator", "dpsize"], TRADE, TRADE_REPORT),
        (
            &[],
            BOTH,
            "query both\ncost 4000 rows 1000 pairs 1\nhash rows 1000 cost 4000\n  scan a rows 1000\n  scan b rows 1000\n",
        ),
        (
            &["--model", "cout"],
            BOTH,
            "query both\ncost 1000 rows 1000 pairs 1\njoin rows 1000 cost 1000\n  scan a rows 1000\n  scan b rows 1000\n",
        ),
        (
            &[],
            ZERO,
            "query zero\ncost 20 rows 10 pairs 1\nloop rows 10 cost 20\n  scan a rows 1\n  scan b rows 10\n",
        ),
        (&[], "{\"tables\":[],\"queries\":[]}", ""),
    ];
    for (words, file, text) in cases {
        let (status, written) = answer(&rt, alloc, words, file.as_bytes().to_vec(alloc)?)?;
        assert_eq!(rt; status, Status::Done, "{words:?} {text}");
        assert_eq!(rt; written.as_slice(), text.as_bytes(), "{words:?} {text}");
    }
    Ok(())
}
