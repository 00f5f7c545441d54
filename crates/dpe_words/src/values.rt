//! What the value of each option stands for.
ghost use Rattle.std.specs.Prelude.{◌≡◌, false, option_map};
ghost use Rattle.std.specs.Char.{is_ascii_digit};
ghost use Rattle.std.specs.List.{list_all};
ghost use Rattle.dpe_words.specs.Values.{enumerators, formats, from_to, meaning_in, models, modes, number_in, switches, value_or, written_number};

use crate::choices::Mode;
use cost_model::ModelKind;
use dpe_base::Kind;
use plan_report::{Format, enumerator_name};

/// The mode that the text names, `plan` where there is none.
pub fn mode_of(text: Option<&str>) -> Option<Mode>
    ensures { result ≡ value_or Mode.Plan (meaning_in modes) (option_map (λ t. t.now) text.entry) }
{
    match text {
        None | Some("plan") => Some(Mode::Plan),
        Some("sample") => Some(Mode::Sample),
        Some("migrate") => Some(Mode::Migrate),
        Some("certify") => Some(Mode::Certify),
        Some("check") => Some(Mode::Check),
        Some("narrow") => Some(Mode::Narrow),
        Some("zigzag") => Some(Mode::Zigzag),
        Some("leftdeep") => Some(Mode::Leftdeep),
        Some("reopt") => Some(Mode::Reopt),
        Some(_) => None,
    }
}

fn enumerator_named(text: &str) -> Option<Kind>
    ensures { result ≡ meaning_in enumerators text.now }
{
    if text == enumerator_name(Kind::DpCcp) {
        return Some(Kind::DpCcp);
    }
    if text == enumerator_name(Kind::DpSub) {
        return Some(Kind::DpSub);
    }
    if text == enumerator_name(Kind::DpSize) {
        return Some(Kind::DpSize);
    }
    if text == enumerator_name(Kind::DpSva) {
        return Some(Kind::DpSva);
    }
    None
}

/// The enumerator that the text names, as a report does; DPccp where there is no text.
pub fn enumerator_of(text: Option<&str>) -> Option<Kind>
    ensures { result ≡ value_or Kind.DpCcp (meaning_in enumerators) (option_map (λ t. t.now) text.entry) }
{
    match text {
        None => Some(Kind::DpCcp),
        Some(text) => enumerator_named(text),
    }
}

/// The cost model that the text names, `ops` where there is none.
pub fn model_of(text: Option<&str>) -> Option<ModelKind>
    ensures { result ≡ value_or ModelKind.Ops (meaning_in models) (option_map (λ t. t.now) text.entry) }
{
    match text {
        None | Some("ops") => Some(ModelKind::Ops),
        Some("cout") => Some(ModelKind::Cout),
        Some(_) => None,
    }
}

/// The format that the text names, `text` where there is none.
pub fn format_of(text: Option<&str>) -> Option<Format>
    ensures { result ≡ value_or Format.Text (meaning_in formats) (option_map (λ t. t.now) text.entry) }
{
    match text {
        None | Some("text") => Some(Format::Text),
        Some("json") => Some(Format::Json),
        Some(_) => None,
    }
}

/// Whether the text asks for statistics, `off` where there is none.
pub fn stats_of(text: Option<&str>) -> Option<bool>
    ensures { result ≡ value_or false (meaning_in switches) (option_map (λ t. t.now) text.entry) }
{
    match text {
        None | Some("off") => Some(false),
        Some("on") => Some(true),
        Some(_) => None,
    }
}

/// The number that the text writes, from `low` to `high`, or the default where there is no text.
#[tactic(auto, using(crate::proofs::Numbers::narrowed))]
pub fn number_in(text: Option<&str>, low: u64, high: u64, default: u64) -> Option<u64>
    ensures { result ≡ value_or default (number_in low high) (option_map (λ t. t.now) text.entry) }
{
    let Some(text) = text else {
        return Some(default);
    };
    match value_of(text) {
        Some(number) if low <= number && number <= high => Some(number),
        _ => None,
    }
}

/// The number that the text writes, as `number_in` reads it, where a `u32` holds the limits.
pub fn small_number_in(text: Option<&str>, low: u32, high: u32, default: u32) -> Option<u32>
    ensures { result ≡ value_or default (number_in low high) (option_map (λ t. t.now) text.entry) }
{
    let number = number_in(text, low as u64, high as u64, default as u64)?;
    u32::try_from(number).ok()
}

fn is_all_digits(bytes: &[u8]) -> bool
    ensures { result ≡ list_all is_ascii_digit bytes.now }
{
    bytes.iter().all(|b| b.is_ascii_digit())
}

// u64::MAX has so many.
const DIGITS_MAX: usize = 20;

#[tactic(auto, using(crate::proofs::Numbers::parsed, crate::proofs::Numbers::too_short, crate::proofs::Numbers::too_long, crate::proofs::Numbers::no_digits))]
fn value_of(text: &str) -> Option<u64>
    ensures { result ≡ from_to 0 u64.MAX (written_number text.now) }
{
    if text.is_empty() {
        return None;
    }
    if text.len() > DIGITS_MAX {
        return None;
    }
    if !is_all_digits(text.as_bytes()) {
        return None;
    }
    text.parse::<u64>().ok()
}
