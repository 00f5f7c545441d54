//! Fractions, written as decimal texts where these say them exactly.
ghost use Rattle.std.specs.Prelude.{◌≡◌, ◌+◌, ◌^◌, ◌≤◌, ◌<◌, ◌++◌, ◌==◌, [], ◌∷◌, IfOk, OnOk, find, option_map, string_bytes};
ghost use Rattle.std.specs.List.{range_with_len};
ghost use Rattle.serde_json.specs.Find.{get};
ghost use Rattle.serde_json.specs.View.{view};
ghost use Rattle.query_forms.specs.Forms.{fraction_in};
ghost use Rattle.query_forms.specs.Fractions.{decimal_places, decimal_text, fraction_data, last_digits, most_places, pair_of};
ghost use Rattle.query_forms.specs.Tokens.{tokens_of, tokens_of_member};

use crate::text::Text;
use query_json::{DECIMALS_MAX, Node, Ratio, ratio_of};
use serde_json::Value;
use std::alloc::{AllocError, Global};

// The exponent of a power of ten, up to the greatest that a decimal text has.
fn exponent_of(power: u64) -> Option<usize>
    ensures { result ≡ find (λ k. 10 ^ k == power) (range_with_len 0 (most_places + 1)) }
{
    let mut tens = 1u64;
    for exponent in 0..DECIMALS_MAX + 1 {
        if tens == power {
            return Some(exponent);
        }
        tens *= 10;
    }
    None
}

#[tactic(auto, unfolding(crate::specs::Fractions::decimal_places))]
fn decimal_places(ratio: Ratio) -> Option<usize>
    ensures { result ≡ decimal_places ratio }
{
    if ratio.num < 1 || ratio.den < ratio.num {
        return None;
    }
    exponent_of(ratio.den)
}

fn push_digit(out: &mut String, digit: u64) -> Result<(), AllocError>
    requires { digit < 10 }
    ensures { OnOk result (string_bytes out.new ≡ string_bytes out.old ++ (48 + digit) ∷ []) }
{
    let letter = (b'0' + digit as u8) as char;
    out.push(letter)
}

fn push_last_digits(out: &mut String, places: usize, ratio: Ratio) -> Result<(), AllocError>
    requires { 10 ^ places ≡ ratio.den }
    ensures { OnOk result (string_bytes out.new ≡ string_bytes out.old ++ last_digits places ratio.num) }
{
    let mut left = places;
    let mut tens = ratio.den;
    'digits: while left > 0 {
        left -= 1;
        tens /= 10;
        let digit = ratio.num / tens % 10;
        push_digit(out, digit)?;
    }
    Ok(())
}

#[tactic(auto, unfolding(crate::specs::Fractions::decimal_text))]
fn decimal_text(alloc: Global, places: usize, ratio: Ratio) -> Result<String, AllocError>
    requires power { 10 ^ places ≡ ratio.den }
    requires most { ratio.num ≤ ratio.den }
    ensures { IfOk result (λ s. string_bytes s ≡ decimal_text places ratio.num) }
{
    let mut out = String::new(alloc);
    push_digit(&mut out, ratio.num / ratio.den)?;
    if places > 0 {
        out.push('.')?;
        push_last_digits(&mut out, places, ratio)?;
    }
    Ok(out)
}

fn pair_of(alloc: Global, ratio: Ratio) -> Result<Value, AllocError>
    ensures { IfOk result (λ v. view v ≡ pair_of ratio) }
{
    let mut numbers = Vec::with_capacity(alloc, 2)?;
    numbers.push(Value::from(ratio.num))?;
    numbers.push(Value::from(ratio.den))?;
    Ok(Value::Array(numbers))
}

#[tactic(auto, unfolding(crate::specs::Fractions::fraction_data))]
fn fraction_value(alloc: Global, ratio: Ratio) -> Result<Value, AllocError>
    ensures { IfOk result (λ v. view v ≡ fraction_data ratio) }
{
    match decimal_places(ratio) {
        Some(places) => Ok(Value::String(decimal_text(alloc, places, ratio)?)),
        None => pair_of(alloc, ratio),
    }
}

/// The fraction that stands at a member, if one does.
pub fn fraction_in(alloc: Global, member: Option<&Value>) -> Result<Option<Value>, AllocError>
    ensures { IfOk result
        (λ o. option_map view o ≡ fraction_in (option_map (λ v. view v.now) member.entry)) }
{
    let Some(value) = member else {
        return Ok(None);
    };
    match ratio_of(value) {
        Some(ratio) => Ok(Some(fraction_value(alloc, ratio)?)),
        None => Ok(None),
    }
}

fn write_pair(out: &mut Text, ratio: Ratio) -> Result<(), AllocError>
    ensures { OnOk result (out.new ≡ out.old ++ tokens_of (pair_of ratio)) }
{
    out.begin_array()?;
    out.number(ratio.num)?;
    out.number(ratio.den)?;
    out.end_array()
}

#[tactic(auto, unfolding(crate::specs::Fractions::fraction_data))]
fn write_ratio(alloc: Global, out: &mut Text, ratio: Ratio) -> Result<(), AllocError>
    ensures { OnOk result (out.new ≡ out.old ++ tokens_of (fraction_data ratio)) }
{
    match decimal_places(ratio) {
        Some(places) => {
            let text = decimal_text(alloc, places, ratio)?;
            out.string(&text)
        }
        None => write_pair(out, ratio),
    }
}

/// Writes the member of a name, where a fraction stands at it.
pub fn write_fraction<N: Node>(
    alloc: Global,
    out: &mut Text,
    name: &str,
    node: &N,
) -> Result<(), AllocError>
    ensures { OnOk result (out.new
        ≡ out.old ++ tokens_of_member name.now (fraction_in (get name.now (N.as_data node.now)))) }
{
    let Some(member) = node.member(name) else {
        return Ok(());
    };
    let Some(ratio) = ratio_of(member) else {
        return Ok(());
    };
    out.key(name)?;
    write_ratio(alloc, out, ratio)
}
