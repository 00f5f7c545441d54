ghost use Rattle.card_scaled.specs.Cards.{IsCardTable};

use crate::{CardTable, Scaled, rows_once};
use dpe_base::{INPUT_CAP, Pred, Query, ROW_CAP, Rel, RelSet};
use std::alloc::Global;
use std::test::Fail;

fn rel(rows: u64) -> Rel {
    Rel {
        rows,
        num: 1,
        den: 1,
    }
}

// Three relations of 2 ^ 20 rows, each joined to a fourth one of 2 ^ 30 with the fraction 2 ^ -20.
fn centre(alloc: Global) -> Result<Query, Fail> {
    let rels = Vec::from_array(
        alloc,
        [rel(1 << 20), rel(1 << 20), rel(1 << 20), rel(1 << 30)],
    )?;
    let mut preds = Vec::new(alloc);
    for low in 0..3 {
        preds.push(Pred {
            low,
            high: 3,
            num: 1,
            den: 1 << 20,
        })?;
    }
    Ok(Query::new(rels, preds)?)
}

// The rows of the set by both calls.
fn by_both(query: &Query, table: &CardTable, bits: u32) -> Option<(u64, u64)>
    requires { IsCardTable query.now table.now }
{
    let s = RelSet::of_bits(bits);
    if bits == 0 || !s.within(RelSet::full(query.n())) {
        return None;
    }
    Some((rows_once(query, s), table.rows(s)))
}

#[test]
fn no_cap_inside_the_fold(rt: HostRuntime) -> Result<(), Fail> {
    let query = centre(rt.alloc())?;
    let table = CardTable::make(rt.alloc(), &query)?;
    for (s, rows) in [(1, 1 << 20), (7, ROW_CAP), (8, 1 << 30), (15, 1 << 30)] {
        assert_eq!(rt; by_both(&query, &table, s), Some((rows, rows)), "at {s}");
    }
    Ok(())
}

// Twelve relations of 2 ^ 10 rows in a chain whose predicates keep the fraction 2 ^ -10.
fn chain(alloc: Global) -> Result<Query, Fail> {
    let rels = vec![in alloc; rel(1 << 10); 12]?;
    let mut preds = Vec::new(alloc);
    for low in 0..11u8 {
        preds.push(Pred {
            low,
            high: low + 1,
            num: 1,
            den: 1 << 10,
        })?;
    }
    Ok(Query::new(rels, preds)?)
}

// A relation, connected sets with and without the least relation, two sets that are not connected, and all relations.
#[test]
fn few_connected_sets(rt: HostRuntime) -> Result<(), Fail> {
    let query = chain(rt.alloc())?;
    let table = CardTable::make(rt.alloc(), &query)?;
    for (s, rows) in [
        (1, 1 << 10),
        (3, 1 << 10),
        (0b111_1100, 1 << 10),
        (5, 1 << 20),
        (0b1_0101, 1 << 30),
        (0xFFF, 1 << 10),
    ] {
        assert_eq!(rt; by_both(&query, &table, s), Some((rows, rows)), "at {s}");
    }
    Ok(())
}

// The mantissa and the scale.
fn digits(number: Scaled) -> (u32, i32) {
    (number.mantissa, number.scale)
}

#[test]
fn numbers_by_their_top_digits(rt: HostRuntime) {
    let cap = INPUT_CAP.trailing_zeros() as i32;
    assert_eq!(rt; digits(Scaled::one()), (2_147_483_648, -31));
    assert_eq!(rt; digits(Scaled::norm(1)), (2_147_483_648, -31));
    assert_eq!(rt; digits(Scaled::norm(100)), (3_355_443_200, -25));
    assert_eq!(rt;
        digits(Scaled::norm(INPUT_CAP as u128)),
        (2_147_483_648, cap - 31)
    );
    // the 33 ones of the number lose the last
    assert_eq!(rt; digits(Scaled::norm((1 << 33) - 1)), (u32::MAX, 1));
    assert_eq!(rt; digits(Scaled::frac(1, 1)), (2_147_483_648, -31));
    assert_eq!(rt; digits(Scaled::frac(1, 1000)), (2_199_023_255, -41));
    assert_eq!(rt;
        digits(Scaled::frac(1, INPUT_CAP)),
        (2_147_483_648, -31 - cap)
    );
}

#[test]
fn products_by_their_top_digits(rt: HostRuntime) {
    let one = Scaled::one();
    assert_eq!(rt; digits(one.mul(one)), (2_147_483_648, -31));
    let three = Scaled::norm(3);
    assert_eq!(rt; digits(three.mul(three)), (2_415_919_104, -28));
    // a thousand thousandths are less than 1 by what was cut off, and are rounded up
    let whole = Scaled::norm(1000).mul(Scaled::frac(1, 1000));
    assert_eq!(rt; digits(whole), (4_294_967_294, -32));
    assert_eq!(rt; whole.rows(), 1);
}
