//! What a house lends to a service, and takes back.

ghost use Rattle.std.specs.Prelude.{◌≡◌, ◌+◌, ◌≤◌, length, map, string_bytes};
ghost use Rattle.serve_run.specs.Loans.{PutsAll};
ghost use Rattle.serve_run.specs.Parts.{ArePlaces, LendsParts, loans_of, refused_by};

use crate::ends::Returned;
use crate::fault::ServeFault;
use gate_outside::faults::Fault;
use gate_outside::houses::House;
use house_loans::{
    lend_clocks, lend_doors, lend_sources, put_back_clocks, put_back_doors, put_back_sources,
};
use std::alloc::AllocError;

// The fault by which a source or a door is not given.
fn refused(fault: Fault, failed: ServeFault) -> ServeFault
    ensures { result ≡ refused_by fault failed }
{
    match fault {
        Fault::Failed => failed,
        Fault::Memory => ServeFault::Memory,
    }
}

/// Asks the house for the source of each file, for a door at each port from the first on, and for a clock for
/// each worker, in this order, until one is not given. What was given stands in `parts`.
///
/// # Errors
/// Why one was not given.
pub(crate) fn lend_all<H: House>(
    house: &mut H,
    port: u16,
    workers: u8,
    accepts: u32,
    files: &[String],
    parts: &mut Returned<H::In, H::Gate, H::Time>,
) -> Result<(), ServeFault>
    requires ports { port + workers ≤ 65536 }
    requires room { ArePlaces (length files.now) workers parts.old }
    ensures lends { LendsParts H.In.left H.In.faults H.Gate.tale H.Gate.faults H.Time.tale
        port workers accepts (map string_bytes files.now)
        (H.house_tale house.old) (H.house_tale house.new) parts.new result }
    ensures dial { H.tale house.new ≡ H.tale house.old }
    ensures dial_faults { H.faults house.new ≡ H.faults house.old }
{
    if let Err(fault) = lend_sources(house, files, &mut parts.sources) {
        return Err(refused(fault, ServeFault::Read));
    }
    if let Err(fault) = lend_doors(house, port, accepts, workers, &mut parts.doors) {
        return Err(refused(fault, ServeFault::Door));
    }
    match lend_clocks(house, usize::from(workers), &mut parts.clocks) {
        Ok(()) => Ok(()),
        Err(AllocError) => Err(ServeFault::Memory),
    }
}

/// Puts all parts back: the sources, then the doors, then the clocks.
pub(crate) fn put_back_all<H: House>(house: &mut H, parts: Returned<H::In, H::Gate, H::Time>)
    ensures puts { PutsAll (loans_of H.In.left H.In.faults H.Gate.tale H.Gate.faults H.Time.tale parts)
        (H.house_tale house.old) (H.house_tale house.new) }
    ensures dial { H.tale house.new ≡ H.tale house.old }
    ensures dial_faults { H.faults house.new ≡ H.faults house.old }
{
    let Returned {
        sources,
        doors,
        clocks,
    } = parts;
    put_back_sources(house, sources);
    put_back_doors(house, doors);
    put_back_clocks(house, clocks);
}
