//! A client's part of a load.
ghost use Rattle.std.specs.Prelude.{◌≡◌};

use gate_outside::clocks::Clock;
use gate_parts::StartWord;
use load_client::{EndedClient, LoadClient};
use std::alloc::Global;
use std::sync::Wait;
use std::time;
use thread_outside::door_dial::DoorDial;

/// A client's part of a load.
pub struct ClientPart<C, R: Wait + Copy + Drop> {
    /// The handle.
    pub rt: R,
    /// What it allocates by.
    pub alloc: Global,
    /// The client.
    pub client: LoadClient,
    /// The dial to its worker's door.
    pub dial: DoorDial<R>,
    /// Its clock.
    pub clock: C,
    /// The word by which it begins.
    pub word: StartWord,
    /// No link of the dial has failed.
    pub ghost ready: { dial.dry_run ≡ 0 },
}

/// A client's part that has ended.
#[derive(Drop)]
pub struct ClientDone<C> {
    /// The client that has ended, with its seat at the stop flag, which has set it after a fault.
    pub ended: EndedClient,
    /// The clock.
    pub clock: C,
}

// One call drops a part, so that no crate above proves the drop of what it holds again.
impl<C: Drop, R: Wait + Copy + Drop> Drop for ClientPart<C, R> {
    fn drop(self) {
        drop(self.into_clock());
    }
}

impl<C, R: Wait + Copy + Drop> ClientPart<C, R> {
    ghost use Rattle.std.specs.Prelude.{◌≡◌};

    /// The clock. All else is dropped.
    pub fn into_clock(self) -> C
        ensures { result ≡ self.clock }
    {
        let ClientPart {
            rt: _,
            alloc: _,
            client,
            dial,
            clock,
            word,
        } = self;
        drop(client);
        drop(dial);
        drop(word);
        clock
    }
}

impl<C: Clock, R: Wait + time::Clock + Copy + Drop> ClientPart<C, R> {
    ghost use Rattle.load_parts.specs.Clients.{ClientGives};

    /// Waits for the word, and then runs the client until its goal is met, until it finds the stop flag set,
    /// or until a fault, after which its seat sets the flag. Its dial is dropped, so that the door of its
    /// worker may end.
    pub fn run(self) -> ClientDone<C>
        ensures { ClientGives C.tale self result }
    {
        let ClientPart {
            rt,
            alloc,
            client,
            mut dial,
            mut clock,
            word,
        } = self;
        word.wait(&rt);
        let ended = client.run(&rt, alloc, &mut dial, &mut clock);
        drop(dial);
        ClientDone { ended, clock }
    }
}
