ghost use Rattle.std.specs.Prelude.{◌≡◌, ◌<◌, ◌^◌, length};

use dpe_base::Steps;
use pair_stream::PairStream;
use std::marker::Brand;
use std::sync::ledger::{Blank, Ledger};

// Counts with the steps in a ledger of the caller's choice.
fn count_with<L: Ledger, P: PairStream>(stream: P, blank: Blank) -> u64
    requires name { blank.name ≡ L.name }
    requires parts { blank.parts ≡ L.parts }
    requires some { 0 < L.parts }
    requires few { length (P.left stream) < 2 ^ 64 }
    ensures { result ≡ length (P.left stream) }
{
    let mut steps = Steps::<L>::new(blank);
    let mut stream = stream;
    let mut count = 0;
    'pairs: while stream.next(&mut steps).is_some() {
        count += 1;
    }
    count
}

/// How many pairs the stream has left.
pub(crate) fn count_pairs<P: PairStream>(stream: P) -> u64
    requires { length (P.left stream) < 2 ^ 64 }
    ensures { result ≡ length (P.left stream) }
{
    count_with::<Brand, P>(stream, Blank::new(1))
}
