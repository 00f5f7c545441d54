use crate::{ConnectedSets, count_up_to};
use dpe_base::{Pred, Query, Rel};
use join_graph::Graph;
use std::alloc::{AllocError, Global};
use std::test::Fail;

const REL: Rel = Rel {
    rows: 1,
    num: 1,
    den: 1,
};

// The graph of `n` relations with these edges.
fn graph(alloc: Global, n: u8, edges: &[(u8, u8)]) -> Result<Graph, Fail> {
    let rels = vec![in alloc; REL; n as usize]?;
    let mut preds = Vec::new(alloc);
    for (low, high) in edges {
        preds.push(Pred {
            low: *low,
            high: *high,
            num: 1,
            den: 1,
        })?;
    }
    let query = Query::new(rels, preds)?;
    Ok(Graph::of(&query))
}

// The sets as numbers, in order.
fn listed(alloc: Global, graph: &Graph) -> Result<Vec<u32>, AllocError> {
    let mut sets = ConnectedSets::over(graph);
    let mut found = Vec::new(alloc);
    'sets: while let Some(s) = sets.next(graph) {
        found.push(s.bits())?;
    }
    Ok(found)
}

#[test]
fn sets_in_order(rt: HostRuntime) -> Result<(), Fail> {
    let chain = graph(rt.alloc(), 3, &[(0, 1), (1, 2)])?;
    assert_eq!(rt;
        listed(rt.alloc(), &chain)?.as_slice(),
        [4, 2, 6, 1, 3, 7].as_slice()
    );
    // relation 3 stands alone
    let apart = graph(rt.alloc(), 4, &[(0, 1), (1, 2), (0, 2)])?;
    assert_eq!(rt;
        listed(rt.alloc(), &apart)?.as_slice(),
        [8, 4, 2, 6, 1, 3, 5, 7].as_slice()
    );
    Ok(())
}

#[test]
fn counts_and_limits(rt: HostRuntime) -> Result<(), Fail> {
    let chain = graph(rt.alloc(), 4, &[(0, 1), (1, 2), (2, 3)])?;
    let cycle = graph(rt.alloc(), 4, &[(0, 1), (1, 2), (2, 3), (0, 3)])?;
    let star = graph(rt.alloc(), 4, &[(0, 3), (1, 3), (2, 3)])?;
    for (g, count) in [(&chain, 10), (&cycle, 13), (&star, 11)] {
        assert_eq!(rt; count_up_to(g, count), Some(count));
        assert_eq!(rt; count_up_to(g, count - 1), None);
    }
    Ok(())
}
