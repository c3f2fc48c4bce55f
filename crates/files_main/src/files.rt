//! The commands over files, over a house.

ghost use Rattle.std.specs.Prelude.{◌≡◌, false, map, string_bytes};
ghost use Rattle.world_law.specs.TheLaw.{TheLaw};
ghost use Rattle.serve_words.specs.Words.{command_of};
ghost use Rattle.file_commands.specs.Lifting.{MeansTheSame};
ghost use Rattle.files_main.specs.Does.{Does, names_file};

use crate::fault::{FilesFault, lift_fault, play_fault};
use file_commands::{NO_MEMORY, lift_file, lift_law, lift_status, play_file, play_status, refuse};
use gate_outside::houses::House;
use serve_words::{Command, read_words};
use std::alloc::Global;
use world_law::the_law;

/// Does what the words say of a file, and answers the exit status.
///
/// `run FILE` plays the step file and writes its transcript: 0, or 3 if the file cannot be read, 4 if the
/// sink fails, 5 if a line is no step, 6 if memory runs out, 12 if a count is at its last value.
///
/// `lift FILE` writes each line of the step file in its newest version, and an empty line for a blank one: 0, or 3 if
/// the file cannot be read, 4 if the sink fails, 5 if a line is no step or its newest version is too long, 6 if memory
/// runs out. With 0 what it wrote plays the same as the file.
///
/// For other words, among them those of the other commands, it writes the usage line and answers 2, or 6 if memory
/// runs out.
///
/// What waited before the sink goes out first. `fault` is then why a play or a lift did not come to its end; `None` if
/// it did, or if memory ran out before it began.
pub fn gate_files<H: House>(
    alloc: Global,
    words: &[String],
    house: &mut H,
    sink: &mut H::Out,
    fault: &mut Option<FilesFault>,
) -> u8
    ensures words { result ≡ 2 → names_file (command_of (map string_bytes words.now)) ≡ false }
    ensures does { Does (H.house_tale house.old) (H.house_tale house.new)
        (H.Out.got sink.old) (H.Out.got sink.new) (H.Out.waits sink.old)
        (H.Out.faults sink.old) (H.Out.faults sink.new)
        fault.new result (command_of (map string_bytes words.now)) }
    ensures dial { H.tale house.new ≡ H.tale house.old }
    ensures dial_faults { H.faults house.new ≡ H.faults house.old }
    ensures law { TheLaw }
    ensures means { MeansTheSame }
{
    the_law();
    lift_law();
    *fault = None;
    let Ok(command) = read_words(alloc, words) else {
        return NO_MEMORY;
    };
    match command {
        Some(Command::Run { file }) => {
            let played = play_file(alloc, file, house, sink);
            *fault = play_fault(&played);
            play_status(&played)
        }
        Some(Command::Lift { file }) => {
            let lifted = lift_file(alloc, file, house, sink);
            *fault = lift_fault(&lifted);
            lift_status(&lifted)
        }
        _ => refuse(sink),
    }
}
