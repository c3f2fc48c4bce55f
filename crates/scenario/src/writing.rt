//! Writes transcript lines to a sink, each with its line feed as one piece.
ghost use Rattle.std.specs.Prelude.{◌++◌, MatchResult, OnOk, OnErr};
ghost use Rattle.gate_outside.specs.Causes.{FaultHasCause};
ghost use Rattle.gate_outside.specs.Streams.{Carries, CarriesFront};
ghost use Rattle.scenario.specs.Server.{Server as ModelServer, follow, followed};
ghost use Rattle.scenario.specs.Texts.{written_line, refused_line, refused_text, lagged_line, lagged_text, stop_line};
ghost use Rattle.scenario.specs.Transcript.{head_text, output_text, outputs_text};
ghost use Rattle.scenario.specs.Represents.{Represents};
ghost use Rattle.scenario.specs.Played.{answer_text};

use crate::lagged::Lagged;
use crate::server::{Answer, Server};
use crate::texts::{put_lag, put_output, put_refused, put_stop};
use edit_text::LineFault;
use gate_outside::faults::Fault;
use gate_outside::streams::{Sink, write_all};
use guild_model::Verdict;
use worker_core::Output;

// Offers a line to the sink as one piece.
fn write_line<K: Sink>(sink: &mut K, text: &[u8]) -> Result<(), Fault>
    ensures ok { OnOk result (Carries (K.got sink.old) (K.got sink.new) (K.waits sink.new) (K.waits sink.old ++ text.now)) }
    ensures err { OnErr result (CarriesFront (K.got sink.old) (K.got sink.new) (K.waits sink.new) (K.waits sink.old ++ text.now)) }
    ensures cause { FaultHasCause (K.faults sink.old) (K.faults sink.new) result }
{
    write_all(sink, text)
}

// Writes the line of an output. The sink is offered nothing of it if memory runs out before.
fn write_output<K: Sink>(sink: &mut K, text: &mut Vec<u8>, output: &Output) -> Result<(), Fault>
    ensures ok { OnOk result (Carries (K.got sink.old) (K.got sink.new) (K.waits sink.new) (K.waits sink.old ++ written_line output.now)) }
    ensures err { OnErr result (CarriesFront (K.got sink.old) (K.got sink.new) (K.waits sink.new) (K.waits sink.old ++ written_line output.now)) }
    ensures cause { FaultHasCause (K.faults sink.old) (K.faults sink.new) result }
{
    text.clear();
    put_output(text, output)?;
    write_line(sink, text.as_slice())
}

// Writes the line of an edit that is refused, with the number of its line.
fn write_refused<K: Sink>(
    sink: &mut K,
    text: &mut Vec<u8>,
    line: u64,
    verdict: Verdict,
) -> Result<(), Fault>
    ensures ok { OnOk result (Carries (K.got sink.old) (K.got sink.new) (K.waits sink.new) (K.waits sink.old ++ refused_line line verdict)) }
    ensures err { OnErr result (CarriesFront (K.got sink.old) (K.got sink.new) (K.waits sink.new) (K.waits sink.old ++ refused_line line verdict)) }
    ensures cause { FaultHasCause (K.faults sink.old) (K.faults sink.new) result }
{
    text.clear();
    put_refused(text, line, verdict)?;
    write_line(sink, text.as_slice())
}

// The same of an edit that may be refused.
fn write_refusal<K: Sink>(
    sink: &mut K,
    text: &mut Vec<u8>,
    line: u64,
    refusal: Option<Verdict>,
) -> Result<(), Fault>
    ensures ok { OnOk result (Carries (K.got sink.old) (K.got sink.new) (K.waits sink.new) (K.waits sink.old ++ refused_text line refusal)) }
    ensures err { OnErr result (CarriesFront (K.got sink.old) (K.got sink.new) (K.waits sink.new) (K.waits sink.old ++ refused_text line refusal)) }
    ensures cause { FaultHasCause (K.faults sink.old) (K.faults sink.new) result }
{
    match refusal {
        None => Ok(()),
        Some(verdict) => write_refused(sink, text, line, verdict),
    }
}

// Writes the line of a look that lags.
fn write_lag<K: Sink>(sink: &mut K, text: &mut Vec<u8>, lag: Lagged) -> Result<(), Fault>
    ensures ok { OnOk result (Carries (K.got sink.old) (K.got sink.new) (K.waits sink.new) (K.waits sink.old ++ lagged_line lag)) }
    ensures err { OnErr result (CarriesFront (K.got sink.old) (K.got sink.new) (K.waits sink.new) (K.waits sink.old ++ lagged_line lag)) }
    ensures cause { FaultHasCause (K.faults sink.old) (K.faults sink.new) result }
{
    text.clear();
    put_lag(text, lag)?;
    write_line(sink, text.as_slice())
}

// The same of a look that may lag.
fn write_lagged<K: Sink>(
    sink: &mut K,
    text: &mut Vec<u8>,
    lagged: Option<Lagged>,
) -> Result<(), Fault>
    ensures ok { OnOk result (Carries (K.got sink.old) (K.got sink.new) (K.waits sink.new) (K.waits sink.old ++ lagged_text lagged)) }
    ensures err { OnErr result (CarriesFront (K.got sink.old) (K.got sink.new) (K.waits sink.new) (K.waits sink.old ++ lagged_text lagged)) }
    ensures cause { FaultHasCause (K.faults sink.old) (K.faults sink.new) result }
{
    match lagged {
        None => Ok(()),
        Some(lag) => write_lag(sink, text, lag),
    }
}

/// Writes the line of a refused line, which ends the transcript.
pub fn write_stop<K: Sink>(
    sink: &mut K,
    text: &mut Vec<u8>,
    line: u64,
    fault: LineFault,
) -> Result<(), Fault>
    ensures ok { OnOk result (Carries (K.got sink.old) (K.got sink.new) (K.waits sink.new) (K.waits sink.old ++ stop_line line fault)) }
    ensures err { OnErr result (CarriesFront (K.got sink.old) (K.got sink.new) (K.waits sink.new) (K.waits sink.old ++ stop_line line fault)) }
    ensures cause { FaultHasCause (K.faults sink.old) (K.faults sink.new) result }
{
    text.clear();
    put_stop(text, line, fault)?;
    write_line(sink, text.as_slice())
}

// Writes an output. A wish is at once an edit of its guild.
fn write_followed<K: Sink>(
    server: &mut Server,
    sink: &mut K,
    text: &mut Vec<u8>,
    line: u64,
    output: &Output,
) -> Result<(), Fault>
    ensures follows { (p : ModelServer) → Represents server.old p → MatchResult result
        (λ _. Represents server.new (follow p output.now) × Carries (K.got sink.old) (K.got sink.new) (K.waits sink.new) (K.waits sink.old ++ output_text p line output.now))
        (λ _. CarriesFront (K.got sink.old) (K.got sink.new) (K.waits sink.new) (K.waits sink.old ++ output_text p line output.now)) }
    ensures cause { FaultHasCause (K.faults sink.old) (K.faults sink.new) result }
{
    write_output(sink, text, output)?;
    let refusal = server.follow(output)?;
    write_refusal(sink, text, line, refusal)?;
    Ok(())
}

fn write_outputs<K: Sink>(
    server: &mut Server,
    sink: &mut K,
    text: &mut Vec<u8>,
    line: u64,
    outputs: &[Output],
) -> Result<(), Fault>
    ensures follows { (p : ModelServer) → Represents server.old p → MatchResult result
        (λ _. Represents server.new (followed p outputs.now) × Carries (K.got sink.old) (K.got sink.new) (K.waits sink.new) (K.waits sink.old ++ outputs_text p line outputs.now))
        (λ _. CarriesFront (K.got sink.old) (K.got sink.new) (K.waits sink.new) (K.waits sink.old ++ outputs_text p line outputs.now)) }
    ensures cause { FaultHasCause (K.faults sink.old) (K.faults sink.new) result }
{
    for output in outputs {
        write_followed(server, sink, text, line, output)?;
    }
    Ok(())
}

// Writes what comes before the outputs of a line.
fn write_head<K: Sink>(
    sink: &mut K,
    text: &mut Vec<u8>,
    line: u64,
    answer: &Answer,
) -> Result<(), Fault>
    ensures head { MatchResult result
        (λ _. Carries (K.got sink.old) (K.got sink.new) (K.waits sink.new) (K.waits sink.old ++ head_text line answer.now.refusal answer.now.lagged))
        (λ _. CarriesFront (K.got sink.old) (K.got sink.new) (K.waits sink.new) (K.waits sink.old ++ head_text line answer.now.refusal answer.now.lagged)) }
    ensures cause { FaultHasCause (K.faults sink.old) (K.faults sink.new) result }
{
    write_refusal(sink, text, line, answer.refusal)?;
    write_lagged(sink, text, answer.lagged)?;
    Ok(())
}

/// Writes the transcript of a line. Each wish is at once an edit of its guild.
pub fn write_answer<K: Sink>(
    server: &mut Server,
    sink: &mut K,
    text: &mut Vec<u8>,
    line: u64,
    answer: &Answer,
) -> Result<(), Fault>
    ensures follows { (p : ModelServer) → Represents server.old p → MatchResult result
        (λ _. Represents server.new (followed p answer.now.outputs.items) × Carries (K.got sink.old) (K.got sink.new) (K.waits sink.new) (K.waits sink.old ++ answer_text p line answer.now))
        (λ _. CarriesFront (K.got sink.old) (K.got sink.new) (K.waits sink.new) (K.waits sink.old ++ answer_text p line answer.now)) }
    ensures cause { FaultHasCause (K.faults sink.old) (K.faults sink.new) result }
{
    write_head(sink, text, line, answer)?;
    write_outputs(server, sink, text, line, answer.outputs.as_slice())?;
    Ok(())
}
