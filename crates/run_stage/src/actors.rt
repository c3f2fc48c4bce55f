//! The part of an actor.

ghost use Rattle.std.specs.Prelude.{◌≡◌, IfOk};
ghost use Rattle.gate_parts.specs.Ready.{CanAct};

use crate::ground::Ground;
use edit_post::TakePass;
use gate_parts::ActorPart;
use guild_hub::HubWriter;
use snowflake_id::Snowflake;
use std::alloc::AllocError;
use std::sync::Wait;
use stop_flag::StopSeat;

// The part of an actor, with this share of what all parts share.
fn actor_part<R: Wait + Copy + Drop>(
    ground: Ground<R>,
    place: usize,
    pass: TakePass,
    writers: Vec<(Snowflake, HubWriter<R>)>,
    seat: StopSeat,
) -> ActorPart<R>
    requires { CanAct ground.posts place pass writers.items }
    ensures posts { result.posts ≡ ground.posts }
    ensures own { (result.place ≡ place) × (result.pass ≡ pass) × (result.writers ≡ writers) × (result.seat ≡ seat) }
{
    let (rt, alloc, posts, word) = ground.into_parts();
    ActorPart {
        rt,
        alloc,
        posts,
        place,
        pass,
        writers,
        word,
        seat,
    }
}

/// The part of an actor, with a share of its own of what all parts share.
///
/// # Errors
/// Out of memory.
pub fn actor<R: Wait + Copy + Drop>(
    ground: &Ground<R>,
    place: usize,
    pass: TakePass,
    writers: Vec<(Snowflake, HubWriter<R>)>,
    seat: StopSeat,
) -> Result<ActorPart<R>, AllocError>
    requires { CanAct ground.now.posts place pass writers.items }
    ensures posts { IfOk result (λ part. part.posts ≡ ground.now.posts) }
    ensures own { IfOk result (λ part. (part.place ≡ place) × (part.pass ≡ pass) × (part.writers ≡ writers) × (part.seat ≡ seat)) }
{
    let ground = ground.share()?;
    Ok(actor_part(ground, place, pass, writers, seat))
}
