//! What holds of sets of relations and of numbers.
ghost use Rattle.std.specs.Prelude.{◌≡◌, ◌≢◌, ◌↔◌, ◌⊎◌, ◌<◌, ◌≤◌, ◌^◌, ℕ, suc, length};
ghost use Rattle.dpe_base.specs.Digits.{digits};
ghost use Rattle.dpe_base.specs.Sets.{Has, IsLeast, full, inter, least, members, minus, single, size, union};

/// A set is told by its members, and each operation has the members that its name says.
pub fn sets_are_their_members()
    ensures same { (a b : ℕ) → ((r : ℕ) → Has a r ↔ Has b r) → a ≡ b }
    ensures single { (k r : ℕ) → Has (single k) r ↔ (k ≡ r) }
    ensures full { (n r : ℕ) → Has (full n) r ↔ (r < n) }
    ensures union { (a b r : ℕ) → Has (union a b) r ↔ (Has a r ⊎ Has b r) }
    ensures inter { (a b r : ℕ) → Has (inter a b) r ↔ (Has a r × Has b r) }
    ensures minus { (a b r : ℕ) → Has (minus a b) r ↔ (Has a r × (Has b r → ⊥)) }
{}

/// `least` is the least member of a set that has one.
pub fn least_is_the_least_member()
    ensures { (s : ℕ) → s < 2 ^ 32 → s ≢ 0 → IsLeast s (least s) }
{}

/// The size of a set is the length of the list of its members.
pub fn sizes_count_members()
    ensures { (s : ℕ) → s < 2 ^ 32 → size s ≡ length (members s) }
{}

/// A number of `j + 1` binary digits lies from `2^j` on and below `2^(j + 1)`, and 0 has none.
pub fn digits_bound_their_number()
    ensures none { digits 0 ≡ 0 }
    ensures some { (x j : ℕ) → j < 128 → 2 ^ j ≤ x → x < 2 ^ suc j → digits x ≡ suc j }
{}
