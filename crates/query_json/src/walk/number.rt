//! What the text of a number is worth.
ghost use Rattle.std.specs.Prelude.{◌≡◌, ◌==◌, ◌<◌, IsTrue, true, false, length, slice_index, is_some, option_and_then};
ghost use Rattle.fast_float.specs.Text.{minus};
ghost use Rattle.serde_json.specs.Find.{as_u64};
ghost use Rattle.serde_json.specs.Read.{number_of, number_from};

use fast_float::Numeral;

fn has_minus(bytes: &[u8]) -> bool
    ensures value { result ≡ (slice_index bytes.now 0 == minus) }
    ensures some { IsTrue result → 0 < length bytes.now }
{
    !bytes.is_empty() && bytes[0] == b'-'
}

fn whole_unsigned(numeral: &Numeral) -> Option<u64>
    ensures { result ≡ option_and_then as_u64 (number_from false numeral.now) }
{
    numeral.to_u64()
}

fn fits_unsigned(numeral: &Numeral) -> bool
    ensures { result ≡ is_some (number_from false numeral.now) }
{
    numeral.to_u64().is_some() || numeral.to_float::<f64>(false).is_finite()
}

fn fits_negative(numeral: &Numeral) -> bool
    ensures { result ≡ is_some (number_from true numeral.now) }
{
    numeral.to_i64(true).is_some_and(|n| n < 0) || numeral.to_float::<f64>(true).is_finite()
}

/// Whether a number has a value. One that is too large for a float has none.
pub fn fits(text: &str) -> bool
    ensures { result ≡ is_some (number_of text.now) }
{
    let bytes = text.as_bytes();
    if has_minus(bytes) {
        let numeral = Numeral::scan(&bytes[1..]);
        return fits_negative(&numeral);
    }
    let numeral = Numeral::scan(bytes);
    fits_unsigned(&numeral)
}

/// The value of a whole number from 0 below 2^64, which has no point and no exponent.
pub fn whole(text: &str) -> Option<u64>
    ensures { result ≡ option_and_then as_u64 (number_of text.now) }
{
    let bytes = text.as_bytes();
    if has_minus(bytes) {
        return None;
    }
    let numeral = Numeral::scan(bytes);
    whole_unsigned(&numeral)
}
