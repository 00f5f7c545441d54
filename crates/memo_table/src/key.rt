//! The key of a memo's table, which names the query and a stream's list.
ghost use Rattle.std.specs.Prelude.{◌≡◌, IfOk};
ghost use Rattle.memo_table.specs.declared.view.TreeSpace.{TreeSpace};
ghost use Rattle.memo_table.specs.Making.{space_of};

use crate::rule::Key;
use crate::view::TreeSpace;
use atomic_table::{Play, Table, TableRule};
use dpe_base::Query;
use pair_stream::PairStream;
use std::alloc::{AllocError, Global};
use std::marker::{Brand, PhantomData};

// Anything holds of the table that the key is of.
struct Free;

impl TableRule<(), TreeSpace, ()> for Free {
    ghost use Rattle.memo_table.specs.Views.{no_space};

    ghost holds = { λ _ _. Unit {0} };

    ghost first = { λ _. no_space };
}

// What a key is to name. A call picks it.
trait Named {
    ghost named: { TreeSpace };
}

impl Named for Brand {
    ghost use Rattle.memo_table.specs.Views.{no_space};

    ghost named = { no_space };
}

// A load that names.
struct Names<N: Named> {
    of: PhantomData<N>,
}

impl<N: Named> Play<(), TreeSpace> for Names<N> {
    ghost use Rattle.memo_table.specs.Steps.{names};

    ghost then = { names N.named };
}

// The key that names the query and the list of pairs that the stream has left. The list exists in proofs alone, so the key
// is a seat whose view names it, at a table of its own that is dropped at once.
pub(crate) fn key_of<P: PairStream>(
    alloc: Global,
    query: &Query,
    stream: &P,
) -> Result<Key, AllocError>
    ensures { IfOk result (λ k. k.me.0 ≡ space_of query.now (P.left stream.now)) }
{
    key_by::<P, Brand>(alloc, query, stream)
}

// `N` says what the key is to name.
fn key_by<P: PairStream, N: Named>(
    alloc: Global,
    _query: &Query,
    _stream: &P,
) -> Result<Key, AllocError>
    requires { N.named ≡ space_of _query.now (P.left _stream.now) }
    ensures { IfOk result (λ k. k.me.0 ≡ space_of _query.now (P.left _stream.now)) }
{
    let (table, mut key) = Table::<(), TreeSpace, (), Free, Global>::of_words(alloc, &[0], &())?;
    table.shared.load::<Names<N>>(&mut key, 0);
    Ok(key)
}
