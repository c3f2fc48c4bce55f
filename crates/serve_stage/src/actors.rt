//! The parts of the two actors.

ghost use Rattle.std.specs.Prelude.{◌≡◌, ◌≤◌, ◌-◌, ℕ, List, [], length, OnOk};
ghost use Rattle.std.specs.List.{AllZip};
ghost use Rattle.guild_places.specs.Places.{AreDistinct};
ghost use Rattle.run_stage.specs.Dealing.{AreFrom};
ghost use Rattle.run_stage.specs.Hubs.{IsNewWriter};
ghost use Rattle.serve_stage.specs.Drafts.{AreTakers};
ghost use Rattle.serve_stage.specs.Parts.{IsActor};

use crate::supply::ActorSupply;
use gate_parts::ActorPart;
use run_stage::{Ground, Seats, actor, deal_in_two};
use std::alloc::AllocError;
use std::sync::Wait;

/// Adds the parts of both actors, to which the writers are dealt in turn.
///
/// # Errors
/// Out of memory.
pub(crate) fn add_actors<R: Wait + Copy + Drop>(
    ground: &Ground<R>,
    supply: ActorSupply<R>,
    seats: &mut Seats,
    parts: &mut Vec<ActorPart<R>>,
) -> Result<(), AllocError>
    requires takers { (senders : ℕ) × AreTakers senders ground.now.posts supply.takers }
    requires writers { (guilds : List ℕ) × AllZip IsNewWriter guilds supply.writers.items × AreDistinct guilds }
    requires seats { 2 ≤ length seats.old.left.items }
    requires none { parts.old.items ≡ [] }
    ensures seats { OnOk result (length seats.new.left.items ≡ length seats.old.left.items - 2) }
    ensures parts { OnOk result ((senders : ℕ) → AreTakers senders ground.now.posts supply.takers
        → AreFrom (IsActor ground.now.posts senders supply.writers.items) 0 2 parts.new.items) }
{
    let ActorSupply { takers, writers } = supply;
    let (even, odd) = deal_in_two(ground.alloc, writers)?;
    let (first, second) = takers;
    let seat = seats.take_next();
    parts.push(actor(ground, 0, first, even, seat)?)?;
    let seat = seats.take_next();
    parts.push(actor(ground, 1, second, odd, seat)?)?;
    Ok(())
}
