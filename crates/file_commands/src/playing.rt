//! The command `run FILE`.

ghost use Rattle.std.specs.Prelude.{◌≡◌};
ghost use Rattle.scenario.specs.Played.{PlayCause};
ghost use Rattle.scenario.specs.declared.fault.PlayFault.TheVariants.{Memory};
ghost use Rattle.file_commands.specs.Files.{AsksForFile, LeavesRest};
ghost use Rattle.file_commands.specs.Playing.{Runs};

use gate_outside::back::Back;
use gate_outside::faults::Fault;
use gate_outside::houses::House;
use scenario::{PlayFault, play};
use std::alloc::Global;

/// Plays the step file of that name, and puts its source back. What waited before the sink goes out first.
pub fn play_file<H: House>(
    alloc: Global,
    file: &str,
    house: &mut H,
    sink: &mut H::Out,
) -> Result<(), PlayFault>
    ensures runs { Runs ((H.house_tale house.old).contents file.now)
        (H.house_tale house.old).sources (H.house_tale house.new).sources
        (H.Out.got sink.old) (H.Out.got sink.new) (H.Out.waits sink.old) result }
    ensures asks { AsksForFile Memory (H.house_tale house.old).asks (H.house_tale house.new).asks
        file.now result }
    ensures cause { PlayCause
        (H.house_tale house.old).source_faults (H.house_tale house.new).source_faults
        (H.Out.faults sink.old) (H.Out.faults sink.new) result }
    ensures rest { LeavesRest (H.house_tale house.old) (H.house_tale house.new) }
    ensures dial { H.tale house.new ≡ H.tale house.old }
    ensures dial_faults { H.faults house.new ≡ H.faults house.old }
{
    match house.source(file) {
        Ok(source) => {
            let mut source = source;
            let played = play(alloc, &mut source, sink);
            house.put_back(Back::Source(source));
            played
        }
        Err(Fault::Failed) => Err(PlayFault::Read),
        Err(Fault::Memory) => Err(PlayFault::Memory),
    }
}
