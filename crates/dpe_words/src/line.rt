//! From arguments to settings.
ghost use Rattle.std.specs.Prelude.{◌≡◌, map, IfOk, IfSome};
ghost use Rattle.dpe_words.specs.Command.{whole_line};
ghost use Rattle.dpe_words.specs.Line.{AreInRange, IsSaid, IsSaidBy, given_by, given_in, settings_by, settings_of, texts_of};

use crate::choices::{Settings, WordFault};
use crate::command::dpe_command;
use crate::values::{
    enumerator_of, format_of, mode_of, model_of, number_in, small_number_in, stats_of,
};
use clap::error::ErrorKind;
use dpe_base::{BUFFER_MAX, WORKERS_MAX};
use std::alloc::{AllocError, Global};

/// The values of the options, as they were written.
#[derive(Drop)]
pub struct Texts<'a> {
    pub mode: Option<&'a str>,
    pub enumerator: Option<&'a str>,
    pub buffer: Option<&'a str>,
    pub workers: Option<&'a str>,
    pub model: Option<&'a str>,
    pub format: Option<&'a str>,
    pub stats: Option<&'a str>,
    pub number: Option<&'a str>,
}

fn line_of<'a>(alloc: Global, words: &'a [String]) -> Result<Vec<&'a str>, AllocError>
    ensures { IfOk result (λ v. map (λ s. s.now) v.items ≡ whole_line (texts_of words.entry.now)) }
{
    let mut line = Vec::new(alloc);
    line.push("dpe")?;
    for word in words {
        line.push(word.as_str())?;
    }
    Ok(line)
}

/// The values that the words of a whole line give the options.
fn texts_in<'a>(alloc: Global, line: &'a [&'a str]) -> Result<Texts<'a>, WordFault>
    ensures { (words : _) → map (λ s. s.now) line.entry.now ≡ whole_line words → IsSaidBy given_in result (given_by words) }
{
    let command = dpe_command(alloc)?;
    match command.try_get_matches_from(line) {
        Ok(matches) => Ok(Texts {
            mode: matches.get_str("mode"),
            enumerator: matches.get_str("enumerator"),
            buffer: matches.get_str("buffer"),
            workers: matches.get_str("workers"),
            model: matches.get_str("model"),
            format: matches.get_str("format"),
            stats: matches.get_str("stats"),
            number: matches.get_str("number"),
        }),
        Err(error) => match error.kind() {
            ErrorKind::OutOfMemory => Err(WordFault::NoMemory),
            _ => Err(WordFault::Usage),
        },
    }
}

// How many pairs a buffer holds.
const BUFFER_MIN: u32 = 1;

const BUFFER_DEFAULT: u32 = 4096;

const WORKERS_MIN: u32 = 1;

const WORKERS_DEFAULT: u32 = 4;

/// What the values ask for, where each stands in its table.
#[tactic(auto, unfolding(crate::specs::Line::settings_by), using(crate::proofs::Numbers::in_range))]
fn settings_in(texts: &Texts) -> Option<Settings>
    ensures value { result ≡ settings_by (given_in texts.now) }
    ensures ranges { IfSome result AreInRange }
{
    let mode = mode_of(texts.mode)?;
    let enumerator = enumerator_of(texts.enumerator)?;
    let buffer = small_number_in(texts.buffer, BUFFER_MIN, BUFFER_MAX, BUFFER_DEFAULT)?;
    let workers = small_number_in(texts.workers, WORKERS_MIN, WORKERS_MAX, WORKERS_DEFAULT)?;
    let model = model_of(texts.model)?;
    let format = format_of(texts.format)?;
    let stats = stats_of(texts.stats)?;
    let number = number_in(texts.number, 0, u64::MAX, 1)?;
    Some(Settings {
        mode,
        enumerator,
        buffer,
        workers,
        model,
        format,
        stats,
        number,
    })
}

/// What the arguments after the program's name ask for. Fails with `WordFault::Usage` exactly when they are invalid.
///
/// Fails with `WordFault::NoMemory` when memory runs out, which it may at any point.
#[tactic(auto, unfolding(crate::specs::Line::settings_of))]
pub fn settings(alloc: Global, words: &[String]) -> Result<Settings, WordFault>
    ensures told { IsSaid result (settings_of (texts_of words.now)) }
    ensures ranges { IfOk result AreInRange }
{
    let line = line_of(alloc, words)?;
    let texts = texts_in(alloc, line.as_slice())?;
    settings_in(&texts).ok_or(WordFault::Usage)
}
