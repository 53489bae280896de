//! Reads the words of the command line.
ghost use Rattle.std.specs.Prelude.{◌≡◌, false, count_by, codes, IfOk, OnOk};
ghost use Rattle.std.specs.List.{list_any};
ghost use Rattle.std.specs.Str.{bytes_eq};
ghost use Rattle.clap.specs.Values.{kind_of};
ghost use Rattle.clap.specs.Matches.{found_of};
ghost use Rattle.clap.specs.Simple.{subcommand_rows_of};
ghost use Rattle.clap.specs.Walk.{rows_of, texts};
ghost use Rattle.command_definitions.specs.Requests.{HoldsRange};
ghost use Rattle.command_definitions.specs.Words.{accepted_request};
ghost use Rattle.command_words.specs.Apps.{request_in, takes_of, values_in};
ghost use Rattle.command_words.specs.Requests.{parse_fault, texts_of, AnswersWords};
ghost use Rattle.command_words.specs.Texts.{AreTexts, has_dashes, ends_option, is_naming, is_repeated, has_repeats};

use crate::WordsFault;
use crate::program::{command_before, program_with};
use crate::values::{Values, request_with};
use clap::error::ErrorKind;
use clap::{ArgMatches, Error};
use command_definitions::Request;
use std::alloc::{AllocError, Global};
use text_io::Words;

/// The values of the options in `matches`.
fn values_in<'a>(matches: &ArgMatches<'a>) -> Values<'a>
    ensures { texts_of result ≡ values_in (rows_of (found_of matches.now)) }
{
    Values {
        coords: matches.get_str("coords"),
        order: matches.get_str("order"),
        max_entry: matches.get_str("max-entry"),
        seed: matches.get_str("seed"),
        moves: matches.get_str("moves"),
    }
}

/// The request of `command`, if it occurs and its values are valid.
fn request_in(command: Request, matches: &ArgMatches<'_>) -> Option<Request>
    ensures { result ≡ request_in (takes_of command) (subcommand_rows_of matches.now) }
{
    match matches.subcommand() {
        Some((_, found)) => request_with(command, &values_in(found)),
        None => None,
    }
}

/// The request of `command` if it occurs in `matches` with valid values. Fails with `Usage` if there is none.
fn request_or_usage(command: Request, matches: &ArgMatches<'_>) -> Result<Request, WordsFault>
    ensures { AnswersWords result (request_in (takes_of command) (subcommand_rows_of matches.now)) }
{
    match request_in(command, matches) {
        Some(request) => Ok(request),
        None => Err(WordsFault::Usage),
    }
}

/// The texts of `words`.
fn texts_of(alloc: Global, words: &Words) -> Result<Vec<&str>, AllocError>
    ensures texts { IfOk result (λ v. texts v.items ≡ words.now) }
    ensures utf8 { OnOk result (AreTexts words.now) }
{
    let mut texts = Vec::new(alloc);
    for i in 0..words.len() {
        texts.push(words.word(i))?;
    }
    Ok(texts)
}

/// Whether one of `words` is `--`.
fn has_dashes(words: &[&str]) -> bool
    ensures { result ≡ list_any (λ w. bytes_eq w.now (codes "--")) words.now }
{
    words.iter().any(|word| *word == "--")
}

/// Whether nothing, or a value after `=`, follows an option in its word; `rest` is what follows.
fn ends_option(rest: &[u8]) -> bool
    ensures { result ≡ ends_option rest.now }
{
    match rest.first() {
        None => true,
        Some(byte) => *byte == b'=',
    }
}

/// Whether `word` names `option`, with or without its value.
fn is_naming(option: &str, word: &str) -> bool
    ensures { result ≡ is_naming option.now word.now }
{
    match word.as_bytes().strip_prefix(option.as_bytes()) {
        None => false,
        Some(rest) => ends_option(rest),
    }
}

/// The number of words that name `option`.
fn times_named(option: &str, words: &[&str]) -> usize
    ensures { result ≡ count_by (λ w. is_naming option.now w) (texts words.now) }
{
    words.iter().filter(|word| is_naming(option, word)).count()
}

/// Whether more than one word names `option`.
fn is_repeated(words: &[&str], option: &str) -> bool
    ensures { result ≡ is_repeated (texts words.now) option.now }
{
    times_named(option, words) > 1
}

/// Whether more than one of `words` names an option. Decided here, so that it does not depend on the parser.
fn has_repeats(words: &[&str]) -> bool
    ensures { result ≡ has_repeats (texts words.now) }
{
    is_repeated(words, "--coords")
        || is_repeated(words, "--order")
        || is_repeated(words, "--max-entry")
        || is_repeated(words, "--seed")
        || is_repeated(words, "--moves")
}

/// `NoMemory` if the parser's `error` is out of memory, otherwise `Usage`.
fn fault_of(error: &Error) -> WordsFault
    ensures { result ≡ parse_fault (kind_of error.now) }
{
    if error.kind() == ErrorKind::OutOfMemory {
        return WordsFault::NoMemory;
    }
    WordsFault::Usage
}

/// Parses `words`, none of which is `--`, by the grammar of the one command that they begin with. Fails with `Usage` if
/// they are not in the grammar.
fn parse(alloc: Global, words: &[&str]) -> Result<Request, WordsFault>
    requires utf8 { AreTexts (texts words.now) }
    requires no_dashes { has_dashes (texts words.now) ≡ false }
    ensures { AnswersWords result (accepted_request (texts words.now)) }
{
    let Some((name, command)) = command_before(words) else {
        return Err(WordsFault::Usage);
    };
    let program = program_with(alloc, name, command)?;
    match program.try_get_matches_from(words) {
        Ok(matches) => request_or_usage(command, &matches),
        Err(error) => Err(fault_of(&error)),
    }
}

/// Reads `words` as a request. Fails with `Usage` if they are not a command with valid options.
fn read_request(alloc: Global, words: &Words) -> Result<Request, WordsFault>
    ensures { AnswersWords result (accepted_request words.now) }
{
    let texts = texts_of(alloc, words)?;
    let texts = texts.as_slice();
    if has_dashes(texts) {
        return Err(WordsFault::Usage);
    }
    if has_repeats(texts) {
        return Err(WordsFault::Usage);
    }
    parse(alloc, texts)
}

/// Reads `words` as a request, whose values are then in range. Fails with `Usage` if and only if the words are not a
/// command with valid options, unless memory runs out (`NoMemory`).
pub fn read_words(alloc: Global, words: &Words) -> Result<Request, WordsFault>
    ensures answers { AnswersWords result (accepted_request words.now) }
    ensures in_range { IfOk result HoldsRange }
{
    let request = read_request(alloc, words)?;
    Ok(request)
}
