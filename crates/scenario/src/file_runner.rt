//! Runs the lines of a step file as its bytes come, and writes the transcript.
ghost use Rattle.std.specs.Prelude.{◌≡◌, ◌<◌, ◌≤◌, ◌+◌, ◌++◌, ◌∷◌, [], ℕ, List, false, length, MatchOption, MatchResult, OnOk, OnErr};
ghost use Rattle.std.specs.declared.option.Option.{Option};
ghost use Rattle.std.specs.Io.KnownBytes.{Appends};
ghost use Rattle.gate_outside.specs.Streams.{Carries, CarriesFront};
ghost use Rattle.edit_text.specs.Lines.{reader_after};
ghost use Rattle.file_lines.specs.Lines.{IsPiece};
ghost use Rattle.scenario.specs.Server.{Server as ModelServer, played};
ghost use Rattle.scenario.specs.Transcript.{Ending, Whole, line_text, line_spends, line_ending, run_text, run_ending, transcript, ending};
ghost use Rattle.scenario.specs.Represents.{Represents};
ghost use Rattle.scenario.specs.Played.{FaultCause, WriteCause, AtFault, Ends, Leaves, RunsLine, IsCounted, Playing, Written, StopsAt, LeavesAt, Anything, Nothing, Fits, room};

use crate::fault::PlayFault;
use crate::server::Server;
use crate::writing::{write_answer, write_stop};
use edit_text::{FileKind, Line, LineFault, MAX_LINE_BYTES, StepReader};
use gate_outside::streams::Sink;
use memchr::memchr;
use std::alloc::Global;
use std::mem;

/// A reader of lines, the line that has begun, the server, and room for a line of the transcript.
#[derive(Drop)]
pub struct FileRunner {
    alloc: Global,
    reader: StepReader,
    part: Vec<u8>,
    server: Server,
    text: Vec<u8>,
}

// The bytes before the first line feed, and those after it. `None` without a line feed.
fn first_line(bytes: &[u8]) -> Option<(&[u8], &[u8])>
    ensures { MatchOption result (IsPiece bytes.now) (λ parts. IsPiece parts.0.now × (bytes.now ≡ parts.0.now ++ 10 ∷ parts.1.now)) }
{
    let at = memchr(b'\n', bytes)?;
    Some((&bytes[..at], &bytes[at + 1..]))
}

// Runs a line that was read.
fn play_line<K: Sink>(
    server: &mut Server,
    sink: &mut K,
    text: &mut Vec<u8>,
    number: u64,
    line: Line,
) -> Result<(), PlayFault>
    ensures plays { (p : ModelServer) → Represents server.old p → MatchResult result
        (λ _. Represents server.new (played p line) × (Carries (K.got sink.old) (K.got sink.new) (K.waits sink.new) (K.waits sink.old ++ line_text p number line) × (line_spends p line ≡ false)))
        (Leaves (K.got sink.old) (K.got sink.new) (K.waits sink.new) (K.waits sink.old ++ line_text p number line) (line_ending p line)) }
    ensures cause { WriteCause (K.faults sink.old) (K.faults sink.new) result }
{
    let answer = server.play(line)?;
    write_answer(server, sink, text, number, &answer)?;
    Ok(())
}

// Lets what waits go out at a fault, but not after a write that failed.
fn flush_at_fault<K: Sink>(sink: &mut K, fault: PlayFault) -> PlayFault
    ensures ends { (got : Option (List ℕ)) (text : List ℕ) (end : Ending) → Leaves got (K.got sink.old) (K.waits sink.old) text end fault → Ends got (K.got sink.new) text end result }
    ensures cause { (before : ℕ) → FaultCause before (K.faults sink.old) fault → FaultCause before (K.faults sink.new) result }
{
    match fault {
        PlayFault::Write => PlayFault::Write,
        _ => match sink.flush() {
            Ok(()) => fault,
            Err(refused) => PlayFault::from(refused),
        },
    }
}

// Lets what waits go out after lines were run, also if they were not run to their end.
fn flush_after<K: Sink>(sink: &mut K, played: Result<(), PlayFault>) -> Result<(), PlayFault>
    ensures fails { OnErr played (OnOk result ⊥) }
    ensures ok { OnOk result (Appends (K.got sink.old) (K.got sink.new) (K.waits sink.old) × (K.waits sink.new ≡ [])) }
    ensures ends { (got : Option (List ℕ)) (text : List ℕ) (end : Ending) → MatchResult played (λ _. CarriesFront got (K.got sink.old) (K.waits sink.old) text) (Leaves got (K.got sink.old) (K.waits sink.old) text end)
        → AtFault result (Ends got (K.got sink.new) text end) }
    ensures cause { (before : ℕ) → WriteCause before (K.faults sink.old) played → WriteCause before (K.faults sink.new) result }
{
    match played {
        Ok(()) => {
            sink.flush()?;
            Ok(())
        }
        Err(fault) => Err(flush_at_fault(sink, fault)),
    }
}

impl FileRunner {
    /// Before the first byte.
    pub fn new(alloc: Global) -> FileRunner
        ensures plays { (got : Option (List ℕ)) → Written got got [] result [] }
        ensures fits { Fits result }
    {
        FileRunner {
            alloc,
            reader: StepReader::new(alloc, FileKind::Run),
            part: Vec::new(alloc),
            server: Server::new(alloc),
            text: Vec::new(alloc),
        }
    }

    // Runs a line.
    fn run_line<K: Sink>(&mut self, sink: &mut K, bytes: &[u8]) -> Result<(), PlayFault>
        ensures runs { (p : ModelServer) → Represents self.old.server p → MatchResult result
            (λ _. RunsLine self.old.reader p bytes.now (K.got sink.old) (K.got sink.new) (K.waits sink.old) (K.waits sink.new) self.new.server)
            (Leaves (K.got sink.old) (K.got sink.new) (K.waits sink.new) (K.waits sink.old ++ run_text self.old.reader p bytes.now) (run_ending self.old.reader p bytes.now)) }
        ensures reader { OnOk result (self.new.reader ≡ reader_after self.old.reader bytes.now) }
        ensures part { self.new.part ≡ self.old.part }
        ensures counted { OnOk result (IsCounted self.old.reader bytes.now self.new.reader) }
        ensures cause { WriteCause (K.faults sink.old) (K.faults sink.new) result }
    {
        let line = self.reader.line(self.alloc, bytes);
        let number = self.reader.lines();
        match line {
            Ok(None) => Ok(()),
            Ok(Some(line)) => play_line(&mut self.server, sink, &mut self.text, number, line),
            Err(LineFault::Memory) => Err(PlayFault::Memory),
            Err(fault) => {
                write_stop(sink, &mut self.text, number, fault)?;
                Err(PlayFault::Line {
                    line: number,
                    fault,
                })
            }
        }
    }

    // Runs the line that has begun.
    fn end_part<K: Sink>(&mut self, sink: &mut K) -> Result<(), PlayFault>
        ensures runs { (p : ModelServer) → Represents self.old.server p → MatchResult result
            (λ _. RunsLine self.old.reader p self.old.part.items (K.got sink.old) (K.got sink.new) (K.waits sink.old) (K.waits sink.new) self.new.server)
            (Leaves (K.got sink.old) (K.got sink.new) (K.waits sink.new) (K.waits sink.old ++ run_text self.old.reader p self.old.part.items) (run_ending self.old.reader p self.old.part.items)) }
        ensures reader { OnOk result (self.new.reader ≡ reader_after self.old.reader self.old.part.items) }
        ensures part { OnOk result (self.new.part.items ≡ []) }
        ensures counted { OnOk result (IsCounted self.old.reader self.old.part.items self.new.reader) }
        ensures cause { WriteCause (K.faults sink.old) (K.faults sink.new) result }
    {
        let line = mem::replace(&mut self.part, Vec::new(self.alloc));
        self.run_line(sink, line.as_slice())
    }

    // Runs the line that ends with this piece.
    fn end_line<K: Sink>(&mut self, sink: &mut K, piece: &[u8]) -> Result<(), PlayFault>
        requires { IsPiece piece.now }
        ensures plays { (got : Option (List ℕ)) (bytes : List ℕ) → Playing got (K.got sink.old) (K.waits sink.old) self.old bytes → MatchResult result
            (λ _. Playing got (K.got sink.new) (K.waits sink.new) self.new (bytes ++ (piece.now ++ 10 ∷ [])))
            (LeavesAt got (K.got sink.new) (K.waits sink.new) (bytes ++ (piece.now ++ 10 ∷ [])) Anything) }
        ensures room { OnOk result (Fits self.old → Fits self.new × (room self.new + (length piece.now + 1) ≤ room self.old)) }
        ensures cause { WriteCause (K.faults sink.old) (K.faults sink.new) result }
    {
        if !self.part.is_empty() {
            self.part.extend_from_slice(piece)?;
            return self.end_part(sink);
        }
        self.run_line(sink, piece)
    }

    // Takes a piece of a line that does not end with it. A line is refused as soon as it is too long.
    fn begin_line<K: Sink>(&mut self, sink: &mut K, piece: &[u8]) -> Result<(), PlayFault>
        requires { IsPiece piece.now }
        ensures plays { (got : Option (List ℕ)) (bytes : List ℕ) → Playing got (K.got sink.old) (K.waits sink.old) self.old bytes → MatchResult result
            (λ _. Playing got (K.got sink.new) (K.waits sink.new) self.new (bytes ++ piece.now))
            (LeavesAt got (K.got sink.new) (K.waits sink.new) (bytes ++ piece.now) Anything) }
        ensures room { OnOk result (Fits self.old → Fits self.new × (room self.new + length piece.now ≤ room self.old)) }
        ensures cause { WriteCause (K.faults sink.old) (K.faults sink.new) result }
    {
        self.part.extend_from_slice(piece)?;
        if self.part.len() > MAX_LINE_BYTES {
            return self.end_part(sink);
        }
        Ok(())
    }

    // Runs the lines that end among the next bytes.
    fn play_bytes<K: Sink>(&mut self, sink: &mut K, chunk: &[u8]) -> Result<(), PlayFault>
        ensures plays { (got : Option (List ℕ)) (bytes : List ℕ) → Playing got (K.got sink.old) (K.waits sink.old) self.old bytes → MatchResult result
            (λ _. Playing got (K.got sink.new) (K.waits sink.new) self.new (bytes ++ chunk.now))
            (LeavesAt got (K.got sink.new) (K.waits sink.new) (bytes ++ chunk.now) Anything) }
        ensures room { OnOk result (Fits self.old → Fits self.new × (room self.new + length chunk.now ≤ room self.old)) }
        ensures cause { WriteCause (K.faults sink.old) (K.faults sink.new) result }
    {
        let mut rest = chunk;
        while let Some((piece, later)) = first_line(rest) {
            self.end_line(sink, piece)?;
            rest = later;
        }
        self.begin_line(sink, rest)
    }

    /// Runs the lines that end among the next bytes. Their transcript has gone out when it returns.
    pub fn feed<K: Sink>(&mut self, sink: &mut K, chunk: &[u8]) -> Result<(), PlayFault>
        ensures plays { (got : Option (List ℕ)) (bytes : List ℕ) → Playing got (K.got sink.old) (K.waits sink.old) self.old bytes → MatchResult result
            (λ _. Written got (K.got sink.new) (K.waits sink.new) self.new (bytes ++ chunk.now))
            (StopsAt got (K.got sink.new) (bytes ++ chunk.now) Anything) }
        ensures room { OnOk result (Fits self.old → Fits self.new × (room self.new + length chunk.now ≤ room self.old)) }
        ensures cause { WriteCause (K.faults sink.old) (K.faults sink.new) result }
    {
        let played = self.play_bytes(sink, chunk);
        flush_after(sink, played)
    }

    // Runs the last line, if it has no line feed.
    fn play_last<K: Sink>(&mut self, sink: &mut K) -> Result<(), PlayFault>
        ensures plays { (got : Option (List ℕ)) (bytes : List ℕ) → Playing got (K.got sink.old) (K.waits sink.old) self.old bytes → MatchResult result
            (λ _. Carries got (K.got sink.new) (K.waits sink.new) (transcript bytes) × (ending bytes ≡ Whole))
            (LeavesAt got (K.got sink.new) (K.waits sink.new) bytes Nothing) }
        ensures cause { WriteCause (K.faults sink.old) (K.faults sink.new) result }
    {
        if self.part.is_empty() {
            return Ok(());
        }
        self.end_part(sink)
    }

    /// The bytes have come to their end.
    pub fn finish<K: Sink>(&mut self, sink: &mut K) -> Result<(), PlayFault>
        ensures plays { (got : Option (List ℕ)) (bytes : List ℕ) → Playing got (K.got sink.old) (K.waits sink.old) self.old bytes → MatchResult result
            (λ _. Appends got (K.got sink.new) (transcript bytes) × (ending bytes ≡ Whole))
            (StopsAt got (K.got sink.new) bytes Nothing) }
        ensures none { OnOk result (K.waits sink.new ≡ []) }
        ensures cause { WriteCause (K.faults sink.old) (K.faults sink.new) result }
    {
        let played = self.play_last(sink);
        flush_after(sink, played)
    }
}
