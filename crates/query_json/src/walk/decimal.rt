//! Decimal texts.
ghost use Rattle.std.specs.Prelude.{◌≡◌, ◌<◌, ◌≤◌, true, length};
ghost use Rattle.std.specs.List.{list_all};
ghost use Rattle.std.specs.Char.{is_ascii_digit};
ghost use Rattle.query_json.specs.Decimals.{are_decimals, decimal_from, decimal_of, over_tens};
ghost use Rattle.query_json.specs.declared.TheConstants.{DECIMALS_MAX};

use crate::DECIMALS_MAX;
use crate::file::Ratio;

fn are_digits(bytes: &[u8]) -> bool
    ensures { result ≡ list_all is_ascii_digit bytes.now }
{
    for byte in bytes {
        if !byte.is_ascii_digit() {
            return false;
        }
    }
    true
}

fn are_decimals(bytes: &[u8]) -> bool
    ensures { result ≡ are_decimals bytes.now }
{
    1 <= bytes.len() && bytes.len() <= DECIMALS_MAX && are_digits(bytes)
}

fn over_tens(first: u8, decimals: &[u8]) -> Ratio
    requires first { is_ascii_digit first ≡ true }
    requires few { length decimals.now ≤ DECIMALS_MAX }
    requires digits { list_all is_ascii_digit decimals.now ≡ true }
    ensures { result ≡ over_tens first decimals.now }
{
    let mut num = (first - b'0') as u64;
    let mut den = 1u64;
    for digit in decimals {
        num = num * 10 + (*digit - b'0') as u64;
        den = 10 * den;
    }
    Ratio { num, den }
}

fn decimal_from(first: u8, rest: &[u8]) -> Option<Ratio>
    requires { is_ascii_digit first ≡ true }
    ensures { result ≡ decimal_from first rest.now }
{
    match rest {
        [] => Some(over_tens(first, rest)),
        [point, decimals @ ..] if *point == b'.' && are_decimals(decimals) => {
            Some(over_tens(first, decimals))
        }
        _ => None,
    }
}

#[tactic(auto, unfolding(crate::specs::Decimals::decimal_of))]
fn decimal_in(bytes: &[u8]) -> Option<Ratio>
    ensures { result ≡ decimal_of bytes.now }
{
    match bytes {
        [first, rest @ ..] if *first == b'0' || *first == b'1' => decimal_from(*first, rest),
        _ => None,
    }
}

/// The fraction that a decimal text means: with k digits behind the point, all its digits over 10^k.
pub fn decimal_of(text: &str) -> Option<Ratio>
    ensures { result ≡ decimal_of text.now }
{
    decimal_in(text.as_bytes())
}
