//! Reads the words of the command.

ghost use Rattle.std.specs.Prelude.{◌≡◌, ◌≤◌, map, drop, string_bytes, option_map, IfOk, IfSome};
ghost use Rattle.std.specs.List.{list_any};
ghost use Rattle.clap.specs.Words.{first_of, found_of, rows_of, subcommand_rows_of};
ghost use Rattle.serve_words.specs.Words.{is_option, asked, command_of};
ghost use Rattle.serve_words.specs.Grammar.{file_in, seed_in, number_in, serve_in, client_in, lift_in, found_in};

use crate::command::Command;
use crate::grammar::grammar;
use crate::word::{intents_of, number_of, number_to, token_of, url_of};
use clap::ArgMatches;
use clap::error::ErrorKind;
use std::alloc::{AllocError, Global};

// The last port after which the other workers have theirs.
const LAST_PORT: u64 = 65_532;

const MOST_WORKERS: u64 = 4;

const MOST_ACCEPTS: u64 = 1_000_000;

const MOST_COUNT: u64 = 1_000_000;

// Whether a word is an option: it begins with a dash, and is not the dash alone.
fn is_option(word: &str) -> bool
    ensures { result ≡ is_option word.now }
{
    match word.as_bytes() {
        [first, _, ..] => *first == b'-',
        _ => false,
    }
}

fn has_options(words: &[String]) -> bool
    ensures { result ≡ list_any (λ word. is_option (string_bytes word)) words.now }
{
    words.iter().any(|word| is_option(word))
}

// The word that `clap` found by this name.
fn word_in<'a>(found: &ArgMatches<'a>, name: &str) -> Option<&'a str>
    ensures { option_map (λ word. word.now) result ≡ first_of name.now (rows_of (found_of found.now)) }
{
    found.get_str(name)
}

// The number from 1 to `most` that `clap` found by this name.
fn number_in(found: &ArgMatches<'_>, name: &str, most: u64) -> Option<u64>
    ensures is { result ≡ number_in most name.now (rows_of (found_of found.now)) }
    ensures bound { IfSome result (λ number. number ≤ most) }
{
    number_to(most, word_in(found, name)?)
}

// The command `run`, by what `clap` found for it.
fn run_of<'a>(found: &ArgMatches<'a>) -> Option<Command<'a>>
    ensures { option_map asked result ≡ file_in (rows_of (found_of found.now)) }
{
    let file = word_in(found, "FILE")?;
    Some(Command::Run { file })
}

// The command `load`, by what `clap` found for it.
fn load_of<'a>(found: &ArgMatches<'a>) -> Option<Command<'a>>
    ensures { option_map asked result ≡ seed_in (rows_of (found_of found.now)) }
{
    let seed = number_of(word_in(found, "SEED")?)?;
    Some(Command::Load { seed })
}

// The files among the words of `serve`, which are all after the first four.
fn files_of(words: &[String]) -> &[String]
    ensures { map string_bytes result.now ≡ drop 4 (map string_bytes words.now) }
{
    match words {
        [_, _, _, _, files @ ..] => files,
        _ => &[],
    }
}

// The command `serve`, by what `clap` found for it. Its files are the last of the words.
fn serve_of<'a>(found: &ArgMatches<'a>, words: &'a [String]) -> Option<Command<'a>>
    ensures { option_map asked result ≡ serve_in (map string_bytes words.entry.now) (rows_of (found_of found.now)) }
{
    let port = number_in(found, "PORT", LAST_PORT)? as u16;
    let workers = number_in(found, "WORKERS", MOST_WORKERS)? as u8;
    let accepts = number_in(found, "ACCEPTS", MOST_ACCEPTS)? as u32;
    let files = files_of(words);
    Some(Command::Serve {
        port,
        workers,
        accepts,
        files,
    })
}

// The command `client`, by what `clap` found for it.
fn client_of<'a>(found: &ArgMatches<'a>) -> Option<Command<'a>>
    ensures { option_map asked result ≡ client_in (rows_of (found_of found.now)) }
{
    let url = url_of(word_in(found, "URL")?)?;
    let token = token_of(word_in(found, "TOKEN")?)?;
    let intents = intents_of(word_in(found, "INTENTS")?)?;
    let count = number_in(found, "COUNT", MOST_COUNT)? as u32;
    Some(Command::Client {
        url,
        token,
        intents,
        count,
    })
}

// The command `lift`, by what `clap` found for it.
fn lift_of<'a>(found: &ArgMatches<'a>) -> Option<Command<'a>>
    ensures { option_map asked result ≡ lift_in (rows_of (found_of found.now)) }
{
    let file = word_in(found, "FILE")?;
    Some(Command::Lift { file })
}

// The command, by what `clap` found.
fn command_in<'a>(found: &ArgMatches<'a>, words: &'a [String]) -> Option<Command<'a>>
    ensures { option_map asked result ≡ found_in (map string_bytes words.entry.now) (subcommand_rows_of found.now) }
{
    if let Some(run) = found.subcommand_matches("run") {
        return run_of(run);
    }
    if let Some(load) = found.subcommand_matches("load") {
        return load_of(load);
    }
    if let Some(serve) = found.subcommand_matches("serve") {
        return serve_of(serve, words);
    }
    if let Some(client) = found.subcommand_matches("client") {
        return client_of(client);
    }
    match found.subcommand_matches("lift") {
        Some(lift) => lift_of(lift),
        None => None,
    }
}

/// What the words ask for. `None` exactly if they are not in the grammar: `run` with one file, `load` with a
/// seed, `serve` with a port, a number of workers, a number of connections that each accepts, and 1 to 12
/// files, `client` with a URL, a token, a set of intents and a count, or `lift` with one file.
///
/// `clap` finds the subcommand and its words, and refuses too few or too many of them. What it would take and
/// the grammar does not is tested here: options, of which the grammar has none, and the numbers.
///
/// # Errors
/// Out of memory.
pub fn read_words<'a>(alloc: Global, words: &'a [String]) -> Result<Option<Command<'a>>, AllocError>
    ensures { IfOk result (λ command. option_map asked command ≡ command_of (map string_bytes words.entry.now)) }
{
    if has_options(words) {
        return Ok(None);
    }
    match grammar(alloc)?.try_get_matches_from(words) {
        Ok(found) => Ok(command_in(&found, words)),
        Err(error) => {
            if error.kind() == ErrorKind::OutOfMemory {
                Err(AllocError)
            } else {
                Ok(None)
            }
        }
    }
}
