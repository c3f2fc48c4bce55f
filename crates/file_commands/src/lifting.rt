//! The command `lift FILE`.

ghost use Rattle.std.specs.Prelude.{◌≡◌};
ghost use Rattle.file_lift.specs.Lifting.{LiftCause};
ghost use Rattle.file_lift.specs.declared.fault.LiftFault.TheVariants.{Memory};
ghost use Rattle.file_commands.specs.Files.{AsksForFile, LeavesRest};
ghost use Rattle.file_commands.specs.Lifting.{LiftsNamed, MeansTheSame};

use file_lift::{LiftFault, lift};
use gate_outside::back::Back;
use gate_outside::faults::Fault;
use gate_outside::houses::House;
use std::alloc::Global;

/// Lifts the step file of that name, and puts its source back. What waited before the sink goes out first.
pub fn lift_file<H: House>(
    alloc: Global,
    file: &str,
    house: &mut H,
    sink: &mut H::Out,
) -> Result<(), LiftFault>
    ensures lifts { LiftsNamed ((H.house_tale house.old).contents file.now)
        (H.house_tale house.old).sources (H.house_tale house.new).sources
        (H.Out.got sink.old) (H.Out.got sink.new) (H.Out.waits sink.old) result }
    ensures asks { AsksForFile Memory (H.house_tale house.old).asks (H.house_tale house.new).asks
        file.now result }
    ensures cause { LiftCause
        (H.house_tale house.old).source_faults (H.house_tale house.new).source_faults
        (H.Out.faults sink.old) (H.Out.faults sink.new) result }
    ensures rest { LeavesRest (H.house_tale house.old) (H.house_tale house.new) }
    ensures dial { H.tale house.new ≡ H.tale house.old }
    ensures dial_faults { H.faults house.new ≡ H.faults house.old }
{
    match house.source(file) {
        Ok(source) => {
            let mut source = source;
            let lifted = lift(alloc, &mut source, sink);
            house.put_back(Back::Source(source));
            lifted
        }
        Err(Fault::Failed) => Err(LiftFault::Read),
        Err(Fault::Memory) => Err(LiftFault::Memory),
    }
}

/// What the lifted file is played as.
pub fn lift_law()
    ensures { MeansTheSame }
{}
