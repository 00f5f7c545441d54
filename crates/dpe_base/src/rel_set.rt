ghost use Rattle.std.specs.Prelude.{◌≡◌, ℕ, ◌^◌, ◌<◌, ◌≤◌, ◌↔◌, IsTrue, IsNone, IfSome, MatchOption};
ghost use Rattle.dpe_base.specs.Sets.{Has, single, full, union, minus, Meets, Within, size, IsLeast, IsNextSubset, list_order};

use std::cmp::Ordering;
use std::marker::Model;

/// A set of relations below 32, which contracts see as its number.
#[derive(Clone, Copy, Default, PartialEq, Eq, Debug)]
pub struct RelSet {
    bits: u32,
}

impl Model for RelSet {
    ghost Value = { ℕ };

    ghost view = { λ s. s.bits };

    ghost invariant = { λ s. s.bits < 2 ^ 32 };

    ghost inverse = { λ n. record { bits = n } };
}

impl RelSet {
    /// The set without a member.
    pub fn empty() -> RelSet
        ensures { result ≡ 0 }
    {
        RelSet { bits: 0 }
    }

    /// The set of `r` alone.
    #[tactic(auto, unfolding(crate::specs::Sets::single))]
    pub fn single(r: u8) -> RelSet
        requires { r < 32 }
        ensures { result ≡ single r }
    {
        RelSet { bits: 1 << r }
    }

    /// The relations 0 to n - 1.
    #[tactic(auto, unfolding(crate::specs::Sets::full))]
    pub fn full(n: u8) -> RelSet
        requires { n ≤ 32 }
        ensures { result ≡ full n }
    {
        RelSet {
            bits: if n == 32 { u32::MAX } else { (1 << n) - 1 },
        }
    }

    /// The set whose members are the places of the digits 1 of `b`.
    pub fn of_bits(b: u32) -> RelSet
        ensures { result ≡ b }
    {
        RelSet { bits: b }
    }

    /// The number of which relation r is the binary digit of value 2 ^ r.
    pub fn bits(self) -> u32
        ensures { result ≡ self }
    {
        self.bits
    }

    /// Whether `r` is a member.
    pub fn has(self, r: u8) -> bool
        ensures { IsTrue result ↔ Has self r }
    {
        r < 32 && (self.bits >> r) & 1 == 1
    }

    /// The members of either set.
    #[tactic(auto, unfolding(crate::specs::Sets::union))]
    pub fn union(self, o: RelSet) -> RelSet
        ensures { result ≡ union self o }
    {
        RelSet {
            bits: self.bits | o.bits,
        }
    }

    /// The members that are not in `o`.
    #[tactic(auto, unfolding(crate::specs::Sets::minus))]
    pub fn minus(self, o: RelSet) -> RelSet
        ensures { result ≡ minus self o }
    {
        RelSet {
            bits: self.bits & !o.bits,
        }
    }

    /// Whether some relation is in both sets.
    pub fn meets(self, o: RelSet) -> bool
        ensures { IsTrue result ↔ Meets self o }
    {
        self.bits & o.bits != 0
    }

    /// Whether every member is in `o`.
    pub fn within(self, o: RelSet) -> bool
        ensures { IsTrue result ↔ Within self o }
    {
        self.bits & o.bits == self.bits
    }

    /// How many members there are.
    #[tactic(auto, unfolding(crate::specs::Sets::size))]
    pub fn len(self) -> u32
        ensures { result ≡ size self }
    {
        self.bits.count_ones()
    }

    /// The least member, or none of the empty set.
    pub fn least(self) -> Option<u8>
        ensures { MatchOption result (self ≡ 0) (λ r. IsLeast self r) }
    {
        if self.bits == 0 {
            None
        } else {
            Some(self.bits.trailing_zeros() as u8)
        }
    }

    /// The subset of `of` with the next greater number, or none after `of` itself.
    pub fn next_subset(self, of: RelSet) -> Option<RelSet>
        requires { Within self of }
        ensures last { IsNone result ↔ (self ≡ of) }
        ensures next { IfSome result (λ t. IsNextSubset self of t) }
    {
        if self.bits == of.bits {
            None
        } else {
            Some(RelSet {
                bits: of.bits & (u32::MAX - (of.bits - self.bits) + 1),
            })
        }
    }

    /// The lexicographic order of the two ascending lists of members.
    pub fn cmp_list(self, o: RelSet) -> Ordering
        ensures { result ≡ list_order self o }
    {
        let differ = self.bits ^ o.bits;
        if differ == 0 {
            return Ordering::Equal;
        }
        let first = differ.trailing_zeros();
        if (self.bits >> first) & 1 == 1 {
            if o.bits >> first == 0 {
                Ordering::Greater
            } else {
                Ordering::Less
            }
        } else if self.bits >> first == 0 {
            Ordering::Less
        } else {
            Ordering::Greater
        }
    }
}
