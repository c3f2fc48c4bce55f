//! Writes the lines of a lifted file, each with its line feed as one piece.
ghost use Rattle.std.specs.Prelude.{◌≡◌, ◌++◌, ◌∷◌, [], ℕ, List, ◌≤◌, length, IfOk, OnOk, OnErr, Ok, string_bytes};
ghost use Rattle.gate_outside.specs.Causes.{FaultHasCause};
ghost use Rattle.gate_outside.specs.Streams.{Carries, CarriesFront};
ghost use Rattle.edit_text.specs.declared.reader_state.ReaderState.{ReaderState};
ghost use Rattle.edit_text.specs.Lines.{line_of};
ghost use Rattle.file_lift.specs.Lifted.{newest, text_of, stop_line};

use edit_text::{Line, LineFault};
use gate_outside::faults::Fault;
use gate_outside::streams::{Sink, write_all};
use line_faults::{fault_name, fault_number};
use std::alloc::{AllocError, Global};

// The text of a line in its newest version.
fn newest_text(alloc: Global, line: Line) -> Result<String, AllocError>
    ensures text { IfOk result (λ text. string_bytes text ≡ text_of (Some line)) }
    ensures reads { IfOk result (λ text. (reader : ReaderState) (bytes : List ℕ) → line_of reader bytes ≡ Ok (Some line)
        → length (string_bytes text) ≤ 65536 → line_of reader (string_bytes text) ≡ Ok (newest (Some line))) }
{
    let newest = line.lift();
    let text = newest.text(alloc);
    drop(newest);
    text
}

/// The text of what a line says, in its newest version: of a blank line none. A reader that read the line
/// reads the text, if it has at most 65,536 bytes, as the newest version of what the line says.
pub fn text_of(alloc: Global, said: Option<Line>) -> Result<String, AllocError>
    ensures text { IfOk result (λ text. string_bytes text ≡ text_of said) }
    ensures reads { IfOk result (λ text. (reader : ReaderState) (bytes : List ℕ) → line_of reader bytes ≡ Ok said
        → length (string_bytes text) ≤ 65536 → line_of reader (string_bytes text) ≡ Ok (newest said)) }
{
    match said {
        None => Ok(String::new(alloc)),
        Some(line) => newest_text(alloc, line),
    }
}

// The line of a refused line.
fn stop_line(alloc: Global, line: u64, fault: LineFault) -> Result<String, AllocError>
    ensures { IfOk result (λ text. string_bytes text ≡ stop_line line fault) }
{
    let mut text = String::new(alloc);
    let number = fault_number(fault);
    writeln!(text, "stop line {line} {number} {}", fault_name(fault))?;
    Ok(text)
}

// Offers a text to the sink as one piece.
fn write_piece<K: Sink>(sink: &mut K, text: &str) -> Result<(), Fault>
    ensures ok { OnOk result (Carries (K.got sink.old) (K.got sink.new) (K.waits sink.new) (K.waits sink.old ++ text.now)) }
    ensures err { OnErr result (CarriesFront (K.got sink.old) (K.got sink.new) (K.waits sink.new) (K.waits sink.old ++ text.now)) }
    ensures cause { FaultHasCause (K.faults sink.old) (K.faults sink.new) result }
{
    write_all(sink, text.as_bytes())
}

/// Writes a text with a line feed. The sink is offered nothing of it if memory runs out before.
pub fn write_line<K: Sink>(sink: &mut K, text: String) -> Result<(), Fault>
    ensures ok { OnOk result (Carries (K.got sink.old) (K.got sink.new) (K.waits sink.new) (K.waits sink.old ++ (string_bytes text ++ 10 ∷ []))) }
    ensures err { OnErr result (CarriesFront (K.got sink.old) (K.got sink.new) (K.waits sink.new) (K.waits sink.old ++ (string_bytes text ++ 10 ∷ []))) }
    ensures cause { FaultHasCause (K.faults sink.old) (K.faults sink.new) result }
{
    let mut line = text;
    line.push_str("\n")?;
    write_piece(sink, line.as_str())
}

/// Writes the line of a refused line, which ends the lifted file.
pub fn write_stop<K: Sink>(
    alloc: Global,
    sink: &mut K,
    line: u64,
    fault: LineFault,
) -> Result<(), Fault>
    ensures ok { OnOk result (Carries (K.got sink.old) (K.got sink.new) (K.waits sink.new) (K.waits sink.old ++ stop_line line fault)) }
    ensures err { OnErr result (CarriesFront (K.got sink.old) (K.got sink.new) (K.waits sink.new) (K.waits sink.old ++ stop_line line fault)) }
    ensures cause { FaultHasCause (K.faults sink.old) (K.faults sink.new) result }
{
    let text = stop_line(alloc, line, fault)?;
    write_piece(sink, text.as_str())
}
