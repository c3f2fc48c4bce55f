//! The parts of the twelve clients.

ghost use Rattle.std.specs.Prelude.{◌≡◌, ◌≤◌, [], length, vec_capacity, All, IfOk, OnOk};
ghost use Rattle.run_stage.specs.Dealing.{AreFrom};
ghost use Rattle.run_stage.specs.Seats.{HasSeats};
ghost use Rattle.load_stage.specs.Clients.{client_with, intents_of};
ghost use Rattle.load_stage.specs.Drafts.{HasNotFailed, IsClientDraft, IsClientOf, IsClockedClient};

use crate::bots::{bot_name, worker_url};
use intent_set::Intents;
use load_client::{LoadClient, NameGoal};
use load_parts::ClientPart;
use run_stage::{Ground, Seats, take_next};
use std::alloc::{AllocError, Global};
use std::collections::VecDeque;
use std::sync::Wait;
use stop_flag::StopSeat;
use thread_outside::door_dial::DoorDial;

/// How many clients a load has.
const CLIENTS: u8 = 12;

// Guilds, members and messages.
fn many_intents() -> Intents
    ensures { result ≡ 515 }
{
    Intents::of_bits(515).unwrap()
}

/// What the client with this number asks for.
pub fn intents_of(number: u8) -> Intents
    ensures { result ≡ intents_of number }
{
    if number % 2 == 0 {
        many_intents()
    } else {
        Intents::GUILDS
    }
}

// The client with this number.
fn load_client(alloc: Global, number: u8, seat: StopSeat) -> Result<LoadClient, AllocError>
    ensures { IfOk result (λ client. client ≡ client_with seat number) }
{
    let token = bot_name(alloc, 1 + number / 3 % 3)?;
    let url = worker_url(alloc, number % 3)?;
    let goal = NameGoal::of_load(alloc)?;
    Ok(LoadClient {
        token,
        intents: intents_of(number),
        url,
        goal,
        seat,
    })
}

/// A client's part that has no clock yet.
#[derive(Drop)]
pub(crate) struct ClientDraft<R: Wait + Copy + Drop> {
    pub ground: Ground<R>,
    pub client: LoadClient,
    pub dial: DoorDial<R>,
}

// The client with this number, and its share of what the parts of a load share.
fn begun<R: Wait + Copy + Drop>(
    ground: &Ground<R>,
    number: u8,
    seat: StopSeat,
) -> Result<(Ground<R>, LoadClient), AllocError>
    ensures { IfOk result (λ r. r.1 ≡ client_with seat number) }
{
    let client = load_client(ground.alloc, number, seat)?;
    let share = ground.share()?;
    Ok((share, client))
}

/// Adds all clients, without clocks.
///
/// # Errors
/// Out of memory.
pub(crate) fn add_clients<R: Wait + Copy + Drop>(
    ground: &Ground<R>,
    dials: &mut VecDeque<DoorDial<R>>,
    seats: &mut Seats,
    drafts: &mut VecDeque<ClientDraft<R>>,
) -> Result<(), AllocError>
    requires dials { length dials.old.items ≡ 12 }
    requires seats { HasSeats 22 9 13 seats.old }
    requires none { drafts.old.items ≡ [] }
    ensures seats { OnOk result (HasSeats 22 21 1 seats.new × (seats.new.keeper ≡ seats.old.keeper)) }
    ensures drafts { OnOk result (AreFrom (IsClientDraft seats.old.keeper.flag dials.old.items) 0 12 drafts.new.items) }
{
    for number in 0..CLIENTS {
        let dial = take_next(dials);
        let seat = seats.take_next();
        let (share, client) = begun(ground, number, seat)?;
        drafts.push_back(ClientDraft {
            ground: share,
            client,
            dial,
        })?;
    }
    Ok(())
}

// The part of a client that gets this clock. It does not allocate.
fn client_part<C: Drop, R: Wait + Copy + Drop>(draft: ClientDraft<R>, clock: C) -> ClientPart<C, R>
    requires { HasNotFailed draft }
    ensures made { IsClientOf draft result }
    ensures clock { result.clock ≡ clock }
{
    let ClientDraft {
        ground,
        client,
        dial,
    } = draft;
    let (rt, alloc, _, word) = ground.into_parts();
    ClientPart {
        rt,
        alloc,
        client,
        dial,
        clock,
        word,
    }
}

/// The parts of all clients, which take their clocks from the front of these. There is room for the parts,
/// and it does not allocate.
pub(crate) fn clocked_clients<C: Drop, R: Wait + Copy + Drop>(
    mut drafts: VecDeque<ClientDraft<R>>,
    clocks: &mut VecDeque<C>,
    parts: &mut Vec<ClientPart<C, R>>,
)
    requires drafts { (length drafts.items ≡ 12) × All HasNotFailed drafts.items }
    requires clocks { 12 ≤ length clocks.old.items }
    requires room { (parts.old.items ≡ []) × (12 ≤ vec_capacity parts.old) }
    ensures { AreFrom (IsClockedClient drafts.items clocks.old.items) 0 12 parts.new.items }
{
    for number in 0..CLIENTS {
        // Only the loop's invariant speaks of the number.
        let _ = number;
        let draft = take_next(&mut drafts);
        let clock = take_next(clocks);
        parts.push_reserved(client_part(draft, clock));
    }
}
