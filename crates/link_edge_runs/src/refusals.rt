//! A client that says nothing, beside one that does; dials that fail.

use crate::asking::{next, next_beside, next_link};
use crate::both_ends::dial;
use crate::raw_client::stream_with;
use crate::words::{done, heard};
use gate_outside::dials::Dial;
use gate_outside::doors::Door;
use gate_outside::faults::Fault;
use gate_outside::links::Link;
use link_edge::socket_door::SocketDoor;
use link_edge::socket_link::SocketLink;
use link_edge::socket_network::SocketNetwork;

// A silent link waits while another is served, and fails after its time.
fn show_beside(
    rt: &HostRuntime,
    silent: &mut SocketLink<HostRuntime>,
    client: &mut SocketLink<HostRuntime>,
    server: &mut SocketLink<HostRuntime>,
) -> anyhow::Result<()> {
    let sent = done(silent.send("hello"));
    let before = heard(rt.alloc(), silent.recv())?;
    println!(rt; "silent: send {sent}, recv {before}")?;
    let sent = done(server.send("hello"));
    let answer = heard(rt.alloc(), next_beside(rt, client, server))?;
    println!(rt; "beside it: send {sent}, client hears: {answer}")?;
    let after = heard(rt.alloc(), next(rt, silent))?;
    println!(rt; "silent: recv {after}")?;
    Ok(())
}

// A link that goes through its handshake while one does not.
fn show_link(
    rt: &HostRuntime,
    network: &mut SocketNetwork<HostRuntime>,
    door: &mut SocketDoor<HostRuntime>,
    silent: &mut SocketLink<HostRuntime>,
    port: u16,
) -> anyhow::Result<()> {
    if let Some(mut client) = dial(rt, network, port)? {
        if let Ok(mut server) = next_link(rt, door) {
            let shown = show_beside(rt, silent, &mut client, &mut server);
            door.back(server);
            network.back(client);
            shown?;
        }
    }
    Ok(())
}

// What a dial answers that is to fail.
fn show_dial(
    rt: &HostRuntime,
    network: &mut SocketNetwork<HostRuntime>,
    url: &str,
) -> anyhow::Result<()> {
    let answer = match network.dial(url) {
        Ok(link) => {
            network.back(link);
            "a link"
        }
        Err(Fault::Failed) => "Failed",
        Err(Fault::Memory) => "Memory",
    };
    println!(rt; "dial {url}: {answer}")?;
    Ok(())
}

/// Shows them.
pub fn show(
    rt: &HostRuntime,
    network: &mut SocketNetwork<HostRuntime>,
    door: &mut SocketDoor<HostRuntime>,
    port: u16,
) -> anyhow::Result<()> {
    let stream = stream_with(rt, port, &[])?;
    if let Ok(mut silent) = next_link(rt, door) {
        let shown = show_link(rt, network, door, &mut silent, port);
        door.back(silent);
        shown?;
    }
    drop(stream);
    show_dial(rt, network, "wss://127.0.0.1/")?;
    show_dial(rt, network, "127.0.0.1")?;
    show_dial(rt, network, "ws://127.0.0.1:1/")?;
    Ok(())
}
