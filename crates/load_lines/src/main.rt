//! The scripts of a load: `load_lines SEED` prints for each part how many lines its script has, the
//! SHA-256 digest of their texts, each with its line feed, and every ninety-seventh of them.
#![tactic(auto)]

ghost use Rattle.std.specs.Prelude.{◌≤◌};

use edit_text::Line;
use load_maker::script;
use sha2::{Digest, Sha256};
use std::env;

/// Of how many lines one is printed.
const EVERY: usize = 97;

// The digest of the lines' texts, in hexadecimal digits.
fn digest(rt: &HostRuntime, lines: &[Line]) -> anyhow::Result<String> {
    let mut hasher = Sha256::new();
    for line in lines {
        let text = line.text(rt.alloc())?;
        hasher.update(text.as_bytes());
        hasher.update(b"\n");
    }
    let digest = hasher.finalize();
    Ok(hex::encode(rt.alloc(), digest.as_slice())?)
}

fn print_line(rt: &HostRuntime, line: &Line) -> anyhow::Result<()> {
    let text = line.text(rt.alloc())?;
    println!(rt; "{text}")?;
    Ok(())
}

fn print_part(rt: &HostRuntime, seed: u64, part: u8) -> anyhow::Result<()>
    requires { part ≤ 3 }
{
    let lines = script(rt.alloc(), seed, part)?;
    let count = lines.len();
    let digest = digest(rt, lines.as_slice())?;
    println!(rt; "part {part} lines {count} digest {digest}")?;
    for line in lines.iter().step_by(EVERY) {
        print_line(rt, line)?;
    }
    Ok(())
}

fn main(rt: HostRuntime) -> anyhow::Result<()> {
    for word in env::args(&rt)?.skip(1) {
        let seed = word.as_str().parse::<u64>()?;
        for part in 0..4 {
            print_part(&rt, seed, part)?;
        }
    }
    Ok(())
}
