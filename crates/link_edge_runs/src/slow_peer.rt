//! A peer that does not read.

use crate::asking::{next_beside, next_link};
use crate::both_ends::dial;
use crate::words::{done, heard};
use gate_outside::dials::Dial;
use gate_outside::doors::Door;
use gate_outside::faults::Fault;
use gate_outside::links::Link;
use link_edge::sizes::MOST_WAITING_BYTES;
use link_edge::socket_door::SocketDoor;
use link_edge::socket_link::SocketLink;
use link_edge::socket_network::SocketNetwork;
use std::alloc::{AllocError, Global};

// How long each text is, in bytes, and how many are sent at most.
const TEXT_BYTES: usize = 1048576;

const MOST_TEXTS: u32 = 256;

// A text of so many bytes.
fn long_text(alloc: Global) -> Result<String, AllocError> {
    "x".repeat(alloc, TEXT_BYTES)
}

// Sends until the link fails, and says how many texts it took.
fn send_all(link: &mut SocketLink<HostRuntime>, text: &str) -> Result<u32, Fault> {
    for count in 0..MOST_TEXTS {
        match link.send(text) {
            Ok(()) => {}
            Err(Fault::Failed) => return Ok(count),
            Err(Fault::Memory) => return Err(Fault::Memory),
        }
    }
    Ok(MOST_TEXTS)
}

// Sends to a client that has been through the handshake and then reads nothing.
fn show_full(
    rt: &HostRuntime,
    client: &mut SocketLink<HostRuntime>,
    server: &mut SocketLink<HostRuntime>,
) -> anyhow::Result<()> {
    let sent = done(server.send("hello"));
    let answer = heard(rt.alloc(), next_beside(rt, client, server))?;
    println!(rt; "before: send {sent}, client hears: {answer}")?;
    let text = long_text(rt.alloc())?;
    let taken = send_all(server, text.as_str());
    drop(text);
    if let Ok(count) = taken {
        let enough = count as usize * TEXT_BYTES >= MOST_WAITING_BYTES;
        let few = count < MOST_TEXTS;
        println!(rt;
            "a peer that does not read: all that may wait was taken {enough}, then failed {few}"
        )?;
    }
    let later = heard(rt.alloc(), server.recv())?;
    let faults = server.faults();
    println!(rt; "after it: recv {later}, faults {faults}")?;
    Ok(())
}

/// Shows one.
pub fn show(
    rt: &HostRuntime,
    network: &mut SocketNetwork<HostRuntime>,
    door: &mut SocketDoor<HostRuntime>,
    port: u16,
) -> anyhow::Result<()> {
    if let Some(mut client) = dial(rt, network, port)? {
        if let Ok(mut server) = next_link(rt, door) {
            let shown = show_full(rt, &mut client, &mut server);
            door.back(server);
            network.back(client);
            shown?;
        }
    }
    Ok(())
}
