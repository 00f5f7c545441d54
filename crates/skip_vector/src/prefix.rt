ghost use Rattle.std.specs.Prelude.{◌≡◌, ◌≢◌, ◌≤◌, ◌<◌, ◌^◌, ◌↔◌, IsTrue, length};
ghost use Rattle.dpe_base.specs.Sets.{inter, full, size, Meets};
ghost use Rattle.skip_vector.specs.Skips.{first_relations, blocking_prefix};

use dpe_base::RelSet;

// How many relations below `end` there are.
fn len_below(s: RelSet, end: u32) -> u32
    requires { end ≤ 32 }
    ensures { result ≡ size (inter s (full end)) }
{
    (s.bits() as u64 & ((1u64 << end) - 1)).count_ones()
}

/// Whether two different sets have the same first `len` relations.
pub fn same_first(s: RelSet, t: RelSet, len: u32) -> bool
    requires { s ≢ t }
    ensures { IsTrue result ↔ (first_relations len s ≡ first_relations len t) }
{
    let first = (s.bits() ^ t.bits()).trailing_zeros();
    len <= len_below(s, first)
}

/// The length of the blocking prefix.
pub fn blocking_len(s: RelSet, x: RelSet) -> u32
    requires { Meets s x }
    ensures value { result ≡ length (blocking_prefix x s) }
    ensures some { 1 ≤ result }
    ensures few { result ≤ size s }
    ensures small { s < 2 ^ 32 }
{
    let first = (s.bits() & x.bits()).trailing_zeros();
    len_below(s, first + 1)
}
