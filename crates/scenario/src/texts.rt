//! Appends transcript lines, each whole or not at all.
ghost use Rattle.std.specs.Prelude.{◌≡◌, ◌++◌, ◌∷◌, [], is_ok, codes, decimal, if◌then◌else◌};
ghost use Rattle.line_faults.specs.Faults.{fault_number, fault_name};
ghost use Rattle.scenario.specs.Texts.{limit_of, refused_line, lagged_line, stop_line, written_line};

use crate::lagged::Lagged;
use edit_text::LineFault;
use guild_model::Verdict;
use itoa::Buffer;
use line_faults::{fault_name, fault_number};
use payload_text::{Payload, Pieces, append_all};
use std::alloc::AllocError;
use worker_core::Output;

fn put_line(text: &mut Vec<u8>, word: &str, number: u64, last: &str) -> Result<(), AllocError>
    ensures { text.new.items ≡ (if is_ok result then text.old.items ++ (word.now ++ (decimal number ++ (32 ∷ (last.now ++ 10 ∷ [])))) else text.old.items) }
{
    let mut buffer = Buffer::new();
    append_all(text, &[word, buffer.format(number), " ", last, "\n"])
}

fn put_close(text: &mut Vec<u8>, conn: u32, code: u16) -> Result<(), AllocError>
    ensures { text.new.items ≡ (if is_ok result then text.old.items ++ (codes "close " ++ (decimal conn ++ (32 ∷ (decimal code ++ 10 ∷ [])))) else text.old.items) }
{
    let mut buffer = Buffer::new();
    put_line(text, "close ", u64::from(conn), buffer.format(code))
}

fn put_pieces(text: &mut Vec<u8>, conn: u32, sent: Pieces<'_>) -> Result<(), AllocError>
    ensures { text.new.items ≡ (if is_ok result then text.old.items ++ (codes "send " ++ (decimal conn ++ (32 ∷ ((sent.entry.head.now ++ (sent.entry.number.now ++ sent.entry.tail.now)) ++ 10 ∷ [])))) else text.old.items) }
{
    let mut buffer = Buffer::new();
    let conn = buffer.format(conn);
    append_all(
        text,
        &["send ", conn, " ", sent.head, sent.number, sent.tail, "\n"],
    )
}

fn put_send(text: &mut Vec<u8>, conn: u32, sent: &Payload) -> Result<(), AllocError>
    ensures { text.new.items ≡ (if is_ok result then text.old.items ++ (codes "send " ++ (decimal conn ++ (32 ∷ (sent.now ++ 10 ∷ [])))) else text.old.items) }
{
    let mut buffer = Buffer::new();
    put_pieces(text, conn, sent.pieces(&mut buffer))
}

/// Appends the line of an output.
pub fn put_output(text: &mut Vec<u8>, output: &Output) -> Result<(), AllocError>
    ensures { text.new.items ≡ (if is_ok result then text.old.items ++ written_line output.now else text.old.items) }
{
    match output {
        Output::Send(conn, sent) => put_send(text, *conn, sent),
        Output::Close(conn, code) => put_close(text, *conn, *code),
        Output::Wish(guild, wished) => {
            let name = edit_text::name_of(wished.edit());
            put_line(text, "wish ", guild.0, name.text())
        }
    }
}

fn limit_of(verdict: Verdict) -> Option<u32>
    ensures { result ≡ limit_of verdict }
{
    match verdict {
        Verdict::TooMany { limit } | Verdict::TooLong { limit } => Some(limit),
        _ => None,
    }
}

/// Appends the line of an edit that is refused, with the number of its line.
pub fn put_refused(text: &mut Vec<u8>, line: u64, verdict: Verdict) -> Result<(), AllocError>
    ensures { text.new.items ≡ (if is_ok result then text.old.items ++ refused_line line verdict else text.old.items) }
{
    let mut line_buffer = Buffer::new();
    let mut number_buffer = Buffer::new();
    let mut limit_buffer = Buffer::new();
    let line = line_buffer.format(line);
    let number = number_buffer.format(verdict.number());
    let name = verdict.name();
    match limit_of(verdict) {
        None => append_all(text, &["refused ", line, " ", number, " ", name, "\n"]),
        Some(limit) => {
            let limit = limit_buffer.format(limit);
            append_all(
                text,
                &["refused ", line, " ", number, " ", name, " ", limit, "\n"],
            )
        }
    }
}

/// Appends the line of a look that lags.
pub fn put_lag(text: &mut Vec<u8>, lag: Lagged) -> Result<(), AllocError>
    ensures { text.new.items ≡ (if is_ok result then text.old.items ++ lagged_line lag else text.old.items) }
{
    let mut worker_buffer = Buffer::new();
    let mut guild_buffer = Buffer::new();
    let mut base_buffer = Buffer::new();
    let mut cursor_buffer = Buffer::new();
    let worker = worker_buffer.format(lag.worker);
    let guild = guild_buffer.format(lag.guild.0);
    let base = base_buffer.format(lag.base);
    let cursor = cursor_buffer.format(lag.cursor);
    append_all(
        text,
        &["lagged ", worker, " ", guild, " ", base, " ", cursor, "\n"],
    )
}

/// Appends the line of a refused line, which ends the transcript.
pub fn put_stop(text: &mut Vec<u8>, line: u64, fault: LineFault) -> Result<(), AllocError>
    ensures { text.new.items ≡ (if is_ok result then text.old.items ++ stop_line line fault else text.old.items) }
{
    let mut line_buffer = Buffer::new();
    let mut number_buffer = Buffer::new();
    let line = line_buffer.format(line);
    let number = number_buffer.format(fault_number(fault));
    let name = fault_name(fault);
    append_all(text, &["stop line ", line, " ", number, " ", name, "\n"])
}
