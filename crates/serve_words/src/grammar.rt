//! The grammar of the words, as `clap` has it.

ghost use Rattle.std.specs.Prelude.{◌≡◌, false, IfOk, codes};
ghost use Rattle.clap.specs.Words.{app_of, new_app, rule_of, with_rule};
ghost use Rattle.serve_words.specs.Grammar.{required, files, one_word, serve, client, without_help, gate, HasNoGlobals};

use clap::Arg;
use std::alloc::{AllocError, Global};

// A positional that is required.
fn required<'a>(alloc: Global, word: &'a str) -> Arg<'a>
    ensures rule { rule_of result ≡ required word.entry.now }
    ensures global { result.global ≡ false }
{
    Arg::new(alloc, word).required(true)
}

// The positional of 1 to 12 files.
fn files<'a>(alloc: Global) -> Arg<'a>
    ensures rule { rule_of result ≡ files }
    ensures global { result.global ≡ false }
{
    required(alloc, "FILES").num_args(1..=12)
}

// A command with one positional more.
fn with_arg<'a>(command: clap::Command<'a>, arg: Arg<'a>) -> Result<clap::Command<'a>, AllocError>
    requires { arg.global ≡ false }
    ensures app { IfOk result (λ more. app_of more ≡ with_rule (app_of command.entry) (rule_of arg.entry)) }
    ensures globals { HasNoGlobals command.entry → IfOk result HasNoGlobals }
{
    command.arg(arg)
}

// A command with one positional more, which is required.
fn with_word<'a>(
    alloc: Global,
    command: clap::Command<'a>,
    word: &'a str,
) -> Result<clap::Command<'a>, AllocError>
    ensures app { IfOk result (λ more. app_of more ≡ with_rule (app_of command.entry) (required word.entry.now)) }
    ensures globals { HasNoGlobals command.entry → IfOk result HasNoGlobals }
{
    with_arg(command, required(alloc, word))
}

// A subcommand with one positional, which is required.
fn one_word<'a>(
    alloc: Global,
    name: &'a str,
    word: &'a str,
) -> Result<clap::Command<'a>, AllocError>
    ensures app { IfOk result (λ command. app_of command ≡ one_word name.entry.now word.entry.now) }
    ensures globals { IfOk result HasNoGlobals }
{
    with_word(alloc, clap::Command::new(alloc, name), word)
}

// The subcommand `serve`.
fn serve<'a>(alloc: Global) -> Result<clap::Command<'a>, AllocError>
    ensures app { IfOk result (λ command. app_of command ≡ serve) }
    ensures globals { IfOk result HasNoGlobals }
{
    let command = one_word(alloc, "serve", "PORT")?;
    let command = with_word(alloc, command, "WORKERS")?;
    let command = with_word(alloc, command, "ACCEPTS")?;
    with_arg(command, files(alloc))
}

// The subcommand `client`.
fn client<'a>(alloc: Global) -> Result<clap::Command<'a>, AllocError>
    ensures app { IfOk result (λ command. app_of command ≡ client) }
    ensures globals { IfOk result HasNoGlobals }
{
    let command = one_word(alloc, "client", "URL")?;
    let command = with_word(alloc, command, "TOKEN")?;
    let command = with_word(alloc, command, "INTENTS")?;
    with_word(alloc, command, "COUNT")
}

// The command without its subcommands. It takes neither the name of the program nor words for help.
fn without_help<'a>(alloc: Global) -> clap::Command<'a>
    ensures { app_of result ≡ without_help (new_app (codes "gate")) }
{
    clap::Command::new(alloc, "gate")
        .no_binary_name(true)
        .disable_help_flag(true)
        .disable_help_subcommand(true)
}

/// The command with its subcommands.
pub fn grammar<'a>(alloc: Global) -> Result<clap::Command<'a>, AllocError>
    ensures { IfOk result (λ command. app_of command ≡ gate) }
{
    let run = one_word(alloc, "run", "FILE")?;
    let load = one_word(alloc, "load", "SEED")?;
    let serve = serve(alloc)?;
    let client = client(alloc)?;
    let lift = one_word(alloc, "lift", "FILE")?;
    without_help(alloc)
        .subcommand(run)?
        .subcommand(load)?
        .subcommand(serve)?
        .subcommand(client)?
        .subcommand(lift)
}
