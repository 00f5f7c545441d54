//! What holds of the rounding and of the digits of every scaled number.
ghost use Rattle.std.specs.Prelude.{◌≡◌, ◌↔◌, ◌≤◌, ◌<◌, ◌*◌, ◌^◌, ℕ, pos, negsuc, suc};
ghost use Rattle.card_scaled.specs.Scaled.{least_above};
ghost use Rattle.card_scaled.specs.Laws.{KeepsTopDigits};

/// The rows of a scaled number are the least whole number at or above it.
pub fn rows_are_rounded_up()
    ensures { ((m e : ℕ) → least_above m (pos e) ≡ m * 2 ^ e)
        × ((m e k : ℕ) → (least_above m (negsuc e) ≤ k) ↔ (m ≤ k * 2 ^ suc e)) }
{}

/// The mantissa of a number is its top 32 binary digits, and the scale says where they stand.
pub fn norm_keeps_the_top_digits()
    ensures { (x : ℕ) → 1 ≤ x → x < 2 ^ 128 → KeepsTopDigits x }
{}
