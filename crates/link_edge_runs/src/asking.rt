//! Asks again and again, for ten seconds at most.

use gate_outside::accepted::Accepted;
use gate_outside::doors::Door;
use gate_outside::faults::Fault;
use gate_outside::incoming::Incoming;
use gate_outside::links::Link;
use link_edge::socket_door::SocketDoor;
use link_edge::socket_link::SocketLink;
use std::thread;
use std::time::Duration;

// How often a question is asked, and how long each pause is, in milliseconds.
const MOST_ASKS: u32 = 10000;

const PAUSE_MS: u64 = 1;

/// Waits for a moment.
pub fn pause(rt: &HostRuntime) {
    thread::sleep(rt, Duration::from_millis(PAUSE_MS));
}

/// What a link gives, once something waits.
pub fn next<L: Link>(rt: &HostRuntime, link: &mut L) -> Result<Incoming, Fault> {
    for _ in 0..MOST_ASKS {
        match link.recv() {
            Ok(Incoming::NotYet) => pause(rt),
            answer => return answer,
        }
    }
    Ok(Incoming::NotYet)
}

/// The same, while the other end of the link is asked too, to which nothing is sent.
pub fn next_beside<L: Link>(
    rt: &HostRuntime,
    link: &mut L,
    other: &mut L,
) -> Result<Incoming, Fault> {
    for _ in 0..MOST_ASKS {
        match link.recv() {
            Ok(Incoming::NotYet) => {
                let _ = other.recv();
                pause(rt);
            }
            answer => return answer,
        }
    }
    Ok(Incoming::NotYet)
}

/// The link that a door gives next.
pub fn next_link(
    rt: &HostRuntime,
    door: &mut SocketDoor<HostRuntime>,
) -> Result<SocketLink<HostRuntime>, &'static str> {
    for _ in 0..MOST_ASKS {
        match door.accept() {
            Ok(Accepted::Link(link)) => return Ok(link),
            Ok(Accepted::NotYet) => pause(rt),
            Ok(Accepted::Ended) => return Err("the door has ended"),
            Err(_) => return Err("the door failed"),
        }
    }
    Err("nobody came")
}
