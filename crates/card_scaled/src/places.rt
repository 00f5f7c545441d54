ghost use Rattle.std.specs.Prelude.{◌≡◌, ◌≤◌, ◌<◌, ◌^◌, length, IfOk, IfSome};
ghost use Rattle.dpe_base.specs.Queries.{JoinQuery};
ghost use Rattle.card_scaled.specs.Cards.{card};
ghost use Rattle.card_scaled.specs.Sparse.{AreCards, HasNumbers};

use crate::scaled::Scaled;
use dpe_base::RelSet;
use std::alloc::{AllocError, Global};

/// A place of the table: free where the set is empty.
#[derive(Clone, Copy, Debug)]
pub struct Place {
    /// The set.
    pub set: RelSet,
    /// Its number of rows before rounding.
    pub card: Scaled,
    /// Its number of rows.
    pub rows: u64,
}

impl Place {
    // The place of a set with this number of rows before rounding.
    #[tactic(auto, unfolding(crate::specs::Cards::rows))]
    fn of(s: RelSet, c: Scaled) -> Place
        ensures set { result.set ≡ s }
        ensures numbers { (q : JoinQuery) → c ≡ card q s → HasNumbers q s result }
    {
        Place {
            set: s,
            card: c,
            rows: c.rows(),
        }
    }
}

/// Sets with their numbers of rows, found by their bits: a set stands at the first place that was free from its
/// own one on.
#[derive(Drop)]
pub struct Places {
    /// All places: a power of two of them.
    pub items: Vec<Place>,
    /// The greatest index of a place.
    pub last: usize,
    ghost room: { last < length items.items },
}

// The least power of two above twice the number, and at least 16.
fn places_for(count: usize) -> usize
    requires { count ≤ 2 ^ 32 }
    ensures { (0 < result) × (result ≤ 2 ^ 34) }
{
    let mut size = 16;
    'sizes: while size < 2 * count {
        size += size;
    }
    size
}

impl Places {
    /// Room for so many sets.
    pub fn with_room_for(alloc: Global, count: usize) -> Result<Places, AllocError>
        requires { count ≤ 2 ^ 32 }
        ensures { IfOk result (λ p. (q : JoinQuery) → AreCards q p.items.items) }
    {
        let size = places_for(count);
        let free = Place {
            set: RelSet::empty(),
            card: Scaled::one(),
            rows: 1,
        };
        let items = vec![in alloc; free; size]?;
        Ok(Places {
            items,
            last: size - 1,
        })
    }

    // Where the search for the set begins: the product with this odd number spreads sets that differ in few relations.
    fn home(&self, s: RelSet) -> usize
        ensures { result ≤ self.now.last }
    {
        let spread = (s.bits() as u64).wrapping_mul(0x9E37_79B9_7F4A_7C15) >> 40;
        spread as usize & self.last
    }

    /// The place of the set.
    pub fn find(&self, s: RelSet) -> Option<&Place>
        ensures { (q : JoinQuery) → AreCards q self.now.items.items → IfSome result (λ p. HasNumbers q s p.now) }
    {
        let mut at = self.home(s);
        'places: for _ in 0..self.items.len() {
            let place = &self.items[at];
            if place.set.bits() == 0 {
                return None;
            }
            if place.set.bits() == s.bits() {
                return Some(place);
            }
            at = (at + 1) & self.last;
        }
        None
    }

    /// Puts the set's numbers beside it, if there is a free place.
    pub fn put(&mut self, s: RelSet, c: Scaled)
        ensures { (q : JoinQuery) → AreCards q self.old.items.items → c ≡ card q s → AreCards q self.new.items.items }
    {
        let mut at = self.home(s);
        'places: for _ in 0..self.items.len() {
            if self.items[at].set.bits() == 0 {
                self.items[at] = Place::of(s, c);
                return;
            }
            at = (at + 1) & self.last;
        }
    }
}
