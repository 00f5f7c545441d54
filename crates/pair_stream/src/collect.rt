ghost use Rattle.std.specs.Prelude.{◌≡◌, ◌<◌, ◌++◌, List, IfOk, IsTrue, OnOk};
ghost use Rattle.dpe_base.specs.declared.pair.Pair.{Pair};

use crate::stream::PairStream;
use dpe_base::{Pair, Steps};
use std::alloc::{AllocError, Global};
use std::marker::Brand;
use std::sync::ledger::{Blank, Ledger};

// All pairs that the stream has left, with the steps counted in a ledger of the caller's choice.
fn collect_counting<L: Ledger, S: PairStream>(
    alloc: Global,
    stream: &mut S,
    blank: Blank,
) -> Result<Vec<Pair>, AllocError>
    requires name { blank.name ≡ L.name }
    requires parts { blank.parts ≡ L.parts }
    requires some { 0 < L.parts }
    ensures pairs { IfOk result (λ v. v.items ≡ S.left stream.old) }
    ensures end { OnOk result (IsTrue (S.ended stream.new)) }
    ensures total { S.total stream.new ≡ S.total stream.old }
    ensures given { (given : List Pair) × (S.left stream.old ≡ given ++ S.left stream.new) }
{
    let mut steps = Steps::<L>::new(blank);
    let mut pairs = Vec::new(alloc);
    'pairs: while let Some(p) = stream.next(&mut steps) {
        pairs.push(p)?;
    }
    Ok(pairs)
}

/// All pairs that `stream` has left, in order. The stream has ended then.
///
/// Fails where there is no memory; the pairs taken until then are lost.
pub fn collect_pairs<S: PairStream>(alloc: Global, stream: &mut S) -> Result<Vec<Pair>, AllocError>
    ensures pairs { IfOk result (λ v. v.items ≡ S.left stream.old) }
    ensures end { OnOk result (IsTrue (S.ended stream.new)) }
    ensures total { S.total stream.new ≡ S.total stream.old }
    ensures given { (given : List Pair) × (S.left stream.old ≡ given ++ S.left stream.new) }
{
    collect_counting::<Brand, S>(alloc, stream, Blank::new(1))
}
