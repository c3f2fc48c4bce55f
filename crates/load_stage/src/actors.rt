//! The parts of the two actors of a load.

ghost use Rattle.std.specs.Prelude.{◌≡◌, [], OnOk};
ghost use Rattle.std.specs.List.{AllZip};
ghost use Rattle.run_stage.specs.Dealing.{AreFrom};
ghost use Rattle.run_stage.specs.Hubs.{IsNewWriter};
ghost use Rattle.run_stage.specs.Posts.{IsTakerOf};
ghost use Rattle.run_stage.specs.Seats.{HasSeats};
ghost use Rattle.load_stage.specs.Guilds.{guild_ids};
ghost use Rattle.load_stage.specs.Parts.{IsActor};

use edit_post::TakePass;
use gate_parts::ActorPart;
use guild_hub::HubWriter;
use run_stage::{Ground, Seats, actor, deal_in_two};
use snowflake_id::Snowflake;
use std::alloc::AllocError;
use std::sync::Wait;

/// Adds the parts of actor 0 and of actor 1, to which the writers of the load's hubs are dealt in turn.
///
/// # Errors
/// Out of memory.
pub(crate) fn add_actors<R: Wait + Copy + Drop>(
    ground: &Ground<R>,
    takers: (TakePass, TakePass),
    writers: Vec<(Snowflake, HubWriter<R>)>,
    seats: &mut Seats,
    parts: &mut Vec<ActorPart<R>>,
) -> Result<(), AllocError>
    requires takers { IsTakerOf 7 ground.now.posts 0 takers.0 × IsTakerOf 7 ground.now.posts 1 takers.1 }
    requires writers { AllZip IsNewWriter guild_ids writers.items }
    requires seats { HasSeats 22 0 22 seats.old }
    requires none { parts.old.items ≡ [] }
    ensures seats { OnOk result (HasSeats 22 2 20 seats.new × (seats.new.keeper ≡ seats.old.keeper)) }
    ensures parts { OnOk result (AreFrom (IsActor ground.now.posts seats.old.keeper.flag writers.items) 0 2 parts.new.items) }
{
    let (even, odd) = deal_in_two(ground.alloc, writers)?;
    let (first, second) = takers;
    let seat = seats.take_next();
    parts.push(actor(ground, 0, first, even, seat)?)?;
    let seat = seats.take_next();
    parts.push(actor(ground, 1, second, odd, seat)?)?;
    Ok(())
}
