//! The lines that a run of `serve` writes.

ghost use Rattle.std.specs.Prelude.{◌≡◌, ◌+◌, ◌≤◌, ◌++◌, string_bytes, IfOk, OnOk, option_map, slice_get};
ghost use Rattle.std.specs.Option.{option_copied};
ghost use Rattle.collections.specs.ById.{IsById, count_below, with_id};
ghost use Rattle.serve_run.specs.Lines.{worker_line, worker_lines, line_of, guild_lines, strays_line, stop_line};

use edit_text::LineFault;
use guild_hub::SealedLog;
use line_faults::{fault_name, fault_number};
use log_summary::add_guild_line;
use snowflake_id::Snowflake;
use std::alloc::{AllocError, Global};
use std::sync::Wait;

// Adds the line of the worker with this number.
fn add_worker_line(text: &mut String, port: u16, number: u8) -> Result<(), AllocError>
    requires { port + number ≤ 65535 }
    ensures { OnOk result (string_bytes text.new ≡ string_bytes text.old ++ worker_line port number) }
{
    let its_port = port + u16::from(number);
    writeln!(text, "worker {number} ws://127.0.0.1:{its_port}")
}

/// A line for each of so many workers, with its URL.
///
/// # Errors
/// Out of memory.
pub fn worker_lines(alloc: Global, port: u16, workers: u8) -> Result<String, AllocError>
    requires { port + workers ≤ 65536 }
    ensures { IfOk result (λ text. string_bytes text ≡ worker_lines port workers) }
{
    let mut text = String::new(alloc);
    for number in 0..workers {
        add_worker_line(&mut text, port, number)?;
    }
    Ok(text)
}

// How many logs are of guilds with smaller ids.
fn count_below<R: Wait + Drop>(logs: &[(Snowflake, SealedLog<R>)], guild: Snowflake) -> usize
    requires { IsById (λ log. log.0) logs.now }
    ensures { result ≡ count_below (λ log. log.0) guild logs.now }
{
    logs.partition_point(|log| log.0.0 < guild.0)
}

// The log at a place, if it is that of the guild.
fn log_at<R: Wait + Drop>(
    logs: &[(Snowflake, SealedLog<R>)],
    place: usize,
    guild: Snowflake,
) -> Option<&SealedLog<R>>
    ensures { option_copied result ≡ option_map (λ log. log.1) (with_id (λ log. log.0) guild (slice_get logs.now place)) }
{
    if place >= logs.len() {
        return None;
    }
    let log = &logs[place];
    if log.0 == guild { Some(&log.1) } else { None }
}

// Adds the line of a guild, if its log is there.
fn add_guild<R: Wait + Drop>(
    text: &mut String,
    logs: &[(Snowflake, SealedLog<R>)],
    guild: Snowflake,
) -> Result<(), AllocError>
    requires { IsById (λ log. log.0) logs.now }
    ensures { OnOk result (string_bytes text.new ≡ string_bytes text.old ++ line_of logs.now guild) }
{
    let place = count_below(logs, guild);
    match log_at(logs, place, guild) {
        Some(log) => add_guild_line(text, guild, log),
        None => Ok(()),
    }
}

/// Adds a line for each guild, in their order, by the logs, which ascend by guild.
///
/// # Errors
/// Out of memory.
pub fn add_guilds<R: Wait + Drop>(
    text: &mut String,
    logs: &[(Snowflake, SealedLog<R>)],
    guilds: &[Snowflake],
) -> Result<(), AllocError>
    requires { IsById (λ log. log.0) logs.now }
    ensures { OnOk result (string_bytes text.new ≡ string_bytes text.old ++ guild_lines logs.now guilds.now) }
{
    for guild in guilds {
        add_guild(text, logs, *guild)?;
    }
    Ok(())
}

/// Adds the last line, which tells how many requests were for guilds that no file declares.
pub fn add_strays(text: &mut String, strays: u64) -> Result<(), AllocError>
    ensures { OnOk result (string_bytes text.new ≡ string_bytes text.old ++ strays_line strays) }
{
    writeln!(text, "strays {strays}")
}

/// The line of the first line that is refused, by the number of its file, from 1.
///
/// # Errors
/// Out of memory.
pub fn stop_line(alloc: Global, file: u8, line: u64, fault: LineFault) -> Result<String, AllocError>
    ensures { IfOk result (λ text. string_bytes text ≡ stop_line file line fault) }
{
    let mut text = String::new(alloc);
    let number = fault_number(fault);
    writeln!(
        text,
        "stop file {file} line {line} {number} {}",
        fault_name(fault)
    )?;
    Ok(text)
}
