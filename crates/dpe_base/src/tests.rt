use crate::{
    BUFFER_MAX, COST_LIMIT, DRAWS, EMPTY, INPUT_CAP, N_MAX, Name, PREDS_MAX, Pred, Query,
    QueryFault, ROW_CAP, Rel, RelSet, SPAN, WEIGHT, WORKERS_MAX,
};
use std::alloc::{AllocError, Global};
use std::cmp::Ordering;
use std::test::Fail;

#[test]
fn the_limits(rt: HostRuntime) {
    assert_eq!(rt; N_MAX, 20);
    assert_eq!(rt; PREDS_MAX, 1024);
    assert_eq!(rt; INPUT_CAP, 1_099_511_627_776);
    assert_eq!(rt; ROW_CAP, 34_359_738_368);
    assert_eq!(rt; COST_LIMIT, 4_398_046_511_104);
    assert_eq!(rt; SPAN, 1_048_576);
    assert_eq!(rt; EMPTY, 18_446_744_073_709_551_615);
    assert_eq!(rt; WORKERS_MAX, 64);
    assert_eq!(rt; BUFFER_MAX, 65_536);
    assert_eq!(rt; WEIGHT, 65);
    assert_eq!(rt; DRAWS, 4_611_686_018_427_387_904);
}

#[test]
fn subsets_ascend_as_numbers(rt: HostRuntime) -> Result<(), Fail> {
    let whole = RelSet::of_bits(0b1_0110);
    let wanted: [u32; 8] = [0, 2, 4, 6, 16, 18, 20, 22];
    let mut next = Some(RelSet::empty());
    for want in wanted {
        let subset = next.ok_or("too few")?;
        assert_eq!(rt; subset.bits(), want);
        assert!(rt; subset.within(whole));
        next = subset.next_subset(whole);
    }
    assert_eq!(rt; next, None);
    Ok(())
}

#[test]
fn sets_in_list_order(rt: HostRuntime) {
    // {} < {0} < {0, 1, 2} < {0, 2} < {1} < {1, 2} < {2} < {31}
    let sets: [u32; 8] = [0, 1, 7, 5, 2, 6, 4, 1 << 31];
    for i in 0..8 {
        for k in 0..8 {
            let order = RelSet::of_bits(sets[i]).cmp_list(RelSet::of_bits(sets[k]));
            assert_eq!(rt; order, i.cmp(&k), "{i} and {k}");
        }
    }
    assert_eq!(rt;
        RelSet::full(32).cmp_list(RelSet::full(31)),
        Ordering::Greater
    );
}

fn query_of(
    alloc: Global,
    rels: usize,
    preds: usize,
    rel: Rel,
    pred: Pred,
) -> Result<Result<Query, QueryFault>, AllocError> {
    let mut all = Vec::new(alloc);
    for _ in 0..rels {
        all.push(rel)?;
    }
    let mut joins = Vec::new(alloc);
    for _ in 0..preds {
        joins.push(pred)?;
    }
    Ok(Query::new(all, joins))
}

#[test]
fn the_first_fault_of_a_query(rt: HostRuntime) -> Result<(), Fail> {
    let rel = Rel {
        rows: INPUT_CAP,
        num: 1,
        den: INPUT_CAP,
    };
    let pred = Pred {
        low: 0,
        high: 1,
        num: 2,
        den: 2,
    };
    let many = Rel {
        rows: INPUT_CAP + 1,
        num: 1,
        den: 1,
    };
    let cases: [(usize, usize, Rel, Pred, Option<QueryFault>); 11] = [
        (2, PREDS_MAX, rel, pred, None),
        (1, 0, rel, pred, None),
        (N_MAX, 1, rel, pred, None),
        (0, PREDS_MAX + 1, rel, pred, Some(QueryFault::NoRelations)),
        (
            N_MAX + 1,
            PREDS_MAX + 1,
            rel,
            pred,
            Some(QueryFault::TooManyRelations(N_MAX + 1)),
        ),
        (
            N_MAX,
            PREDS_MAX + 1,
            many,
            pred,
            Some(QueryFault::TooManyPreds(PREDS_MAX + 1)),
        ),
        (
            2,
            1,
            many,
            Pred {
                low: 1,
                high: 1,
                num: 1,
                den: 1,
            },
            Some(QueryFault::BadRel(0)),
        ),
        (
            2,
            0,
            Rel {
                rows: 0,
                num: 0,
                den: 1,
            },
            pred,
            Some(QueryFault::BadRel(0)),
        ),
        (
            2,
            1,
            rel,
            Pred {
                low: 1,
                high: 1,
                num: 1,
                den: 1,
            },
            Some(QueryFault::BadPred(0)),
        ),
        (1, 1, rel, pred, Some(QueryFault::BadPred(0))),
        (
            2,
            1,
            rel,
            Pred {
                low: 0,
                high: 1,
                num: 3,
                den: 2,
            },
            Some(QueryFault::BadPred(0)),
        ),
    ];
    for (rels, preds, rel, pred, want) in cases {
        let fault = query_of(rt.alloc(), rels, preds, rel, pred)?.err();
        assert_eq!(rt; fault, want, "{rels} relations, {preds} predicates");
    }
    Ok(())
}

#[test]
fn a_name_keeps_its_text(rt: HostRuntime) -> Result<(), Fail> {
    let name = Name::of(String::from_str(rt.alloc(), "größe")?);
    assert_eq!(rt; name.text(), "größe");
    Ok(())
}

#[test]
fn the_rows_of_one_relation_are_changed(rt: HostRuntime) -> Result<(), Fail> {
    let rel = Rel {
        rows: 10,
        num: 1,
        den: 3,
    };
    let pred = Pred {
        low: 0,
        high: 1,
        num: 1,
        den: 2,
    };
    let made = query_of(rt.alloc(), 2, 1, rel, pred)?;
    let mut query = made.ok().ok_or("a fault")?;
    assert_eq!(rt; query.n(), 2);
    query.set_rows(1, INPUT_CAP);
    assert_eq!(rt;
        query.rels(),
        [
            rel,
            Rel {
                rows: INPUT_CAP,
                num: 1,
                den: 3
            }
        ]
        .as_slice()
    );
    assert_eq!(rt; query.preds(), [pred].as_slice());
    Ok(())
}
