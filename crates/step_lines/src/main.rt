//! What lines of step files mean: `step_lines RUN SCRIPT` reads each line of two files, the first as all
//! that comes to a server and the second as the edits of one source, and prints for each the line of the
//! step that it reads, or why it is refused. Blank lines are counted, and nothing is printed of them.
#![tactic(auto)]

use edit_text::{FileKind, LineFault, StepReader};
use std::{env, fs};

// What is printed of a line: the line of the step, or why it is none.
fn answer(
    rt: &HostRuntime,
    reader: &mut StepReader,
    line: &str,
) -> Result<Option<String>, LineFault> {
    match reader.line(rt.alloc(), line.as_bytes())? {
        None => Ok(None),
        Some(step) => Ok(Some(step.text(rt.alloc())?)),
    }
}

fn print_line(rt: &HostRuntime, reader: &mut StepReader, line: &str) -> anyhow::Result<()> {
    let answer = answer(rt, reader, line);
    let number = reader.lines();
    match answer {
        Ok(None) => {}
        Ok(Some(text)) => println!(rt; "{number} {text}")?,
        Err(fault) => println!(rt; "{number} refused: {fault}")?,
    }
    Ok(())
}

fn print_file(rt: &HostRuntime, kind: FileKind, name: &str) -> anyhow::Result<()> {
    let text = fs::read_to_string(rt, name)?;
    let mut reader = StepReader::new(rt.alloc(), kind);
    for line in text.lines() {
        print_line(rt, &mut reader, line)?;
    }
    Ok(())
}

fn main(rt: HostRuntime) -> anyhow::Result<()> {
    let mut names = env::args(&rt)?.skip(1);
    if let Some(run) = names.next() {
        print_file(&rt, FileKind::Run, run.as_str())?;
    }
    if let Some(script) = names.next() {
        print_file(&rt, FileKind::Script, script.as_str())?;
    }
    Ok(())
}
