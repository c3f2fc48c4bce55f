//! Sources that a house lends and takes back.

ghost use Rattle.std.specs.Prelude.{◌≡◌, ◌≤◌, [], length, map, string_bytes};
ghost use Rattle.std.specs.Vec.{vec_capacity};
ghost use Rattle.gate_outside.specs.Houses.{returned_source};
ghost use Rattle.house_loans.specs.Sources.{LendsSources, PutsSources};

use gate_outside::back::Back;
use gate_outside::faults::Fault;
use gate_outside::houses::House;
use team_run::add;

/// Asks for the source of each name, in order, until one is not given. Those that were given stand in
/// `sources`, each before its first read. The caller has made the room.
///
/// # Errors
/// Why one was not given: it failed, or out of memory.
pub fn lend_sources<H: House>(
    house: &mut H,
    names: &[String],
    sources: &mut Vec<H::In>,
) -> Result<(), Fault>
    requires { (sources.old.items ≡ []) × (length names.now ≤ vec_capacity sources.old) }
    ensures lends { LendsSources H.In.left H.In.faults (map string_bytes names.now)
        (H.house_tale house.old) (H.house_tale house.new) sources.new.items result }
    ensures dial { H.tale house.new ≡ H.tale house.old }
    ensures dial_faults { H.faults house.new ≡ H.faults house.old }
{
    for name in names {
        let source = house.source(name)?;
        add(sources, source);
    }
    Ok(())
}

/// Puts the sources back, in order.
pub fn put_back_sources<H: House>(house: &mut H, mut sources: Vec<H::In>)
    ensures puts { PutsSources
        (map (λ s. returned_source (H.In.left s) (H.In.faults s)) sources.items)
        (H.house_tale house.old) (H.house_tale house.new) }
    ensures dial { H.tale house.new ≡ H.tale house.old }
    ensures dial_faults { H.faults house.new ≡ H.faults house.old }
{
    sources.reverse();
    while let Some(source) = sources.pop() {
        house.put_back(Back::Source(source));
    }
    sources.destroy_empty();
}
