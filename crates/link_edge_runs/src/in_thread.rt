//! A house over the network, with its door in a thread of its own.

use crate::asking::{next, next_link};
use crate::both_ends::dial;
use crate::words::{done, heard};
use gate_outside::dials::Dial;
use gate_outside::doors::Door;
use gate_outside::incoming::Incoming;
use gate_outside::links::Link;
use gate_outside::std_house::RealHouse;
use link_edge::socket_door::SocketDoor;
use link_edge::socket_link::SocketLink;
use link_edge::socket_network::SocketNetwork;
use std::thread;
use std::thread::Threads;

// Gives the first text of a link back and closes it. Says whether all went well.
fn echo_once(rt: &HostRuntime, link: &mut SocketLink<HostRuntime>) -> bool {
    match next(rt, link) {
        Ok(Incoming::Text(text)) => link.send(text.as_str()).is_ok() && link.close(4000).is_ok(),
        _ => false,
    }
}

// Serves one link.
fn serve(rt: &HostRuntime, mut door: SocketDoor<HostRuntime>) -> bool {
    match next_link(rt, &mut door) {
        Ok(mut link) => {
            let echoed = echo_once(rt, &mut link);
            door.back(link);
            echoed
        }
        Err(_) => false,
    }
}

// Sends a text, and hears it and the close.
fn show_client(rt: &HostRuntime, client: &mut SocketLink<HostRuntime>) -> anyhow::Result<()> {
    let sent = done(client.send("ping"));
    let first = heard(rt.alloc(), next(rt, client))?;
    let second = heard(rt.alloc(), next(rt, client))?;
    println!(rt; "over threads: send {sent}, client hears: {first}, {second}")?;
    Ok(())
}

/// Shows one.
pub fn show<T: Threads>(
    rt: &HostRuntime,
    threads: &T,
    house: &mut RealHouse<HostRuntime, SocketNetwork<HostRuntime>>,
    door: SocketDoor<HostRuntime>,
) -> anyhow::Result<()> {
    let runtime = *rt;
    let port = door.port().unwrap_or(0);
    let child = thread::spawn(threads, move || serve(&runtime, door))?;
    let client = dial(rt, house, port)?;
    if let Some(mut client) = client {
        let shown = show_client(rt, &mut client);
        house.back(client);
        shown?;
    }
    let served = child.join(threads);
    println!(rt; "served: {served}")?;
    Ok(())
}
