//! Both ends of a link, in one thread.

use crate::asking::{next, next_beside, next_link};
use crate::words::{done, heard};
use gate_outside::dials::Dial;
use gate_outside::doors::Door;
use gate_outside::links::Link;
use link_edge::socket_door::SocketDoor;
use link_edge::socket_link::SocketLink;
use link_edge::socket_network::SocketNetwork;
use std::alloc::AllocError;

/// A link to that port.
pub fn dial<D: Dial>(
    rt: &HostRuntime,
    network: &mut D,
    port: u16,
) -> Result<Option<D::Wire>, AllocError> {
    let url = format!(in rt.alloc(); "ws://127.0.0.1:{port}/?v=10&encoding=json")?;
    match network.dial(url.as_str()) {
        Ok(link) => Ok(Some(link)),
        Err(_) => Ok(None),
    }
}

// A text each way, the first before the handshake.
fn show_texts(
    rt: &HostRuntime,
    client: &mut SocketLink<HostRuntime>,
    server: &mut SocketLink<HostRuntime>,
) -> anyhow::Result<()> {
    let sent = done(server.send("hello"));
    let answer = heard(rt.alloc(), next_beside(rt, client, server))?;
    println!(rt; "server sends: {sent}, client hears: {answer}")?;
    let sent = done(client.send("identify"));
    let answer = heard(rt.alloc(), next(rt, server))?;
    println!(rt; "client sends: {sent}, server hears: {answer}")?;
    Ok(())
}

// Two short texts of the server, which go out together when it is next asked.
fn show_gathered(
    rt: &HostRuntime,
    client: &mut SocketLink<HostRuntime>,
    server: &mut SocketLink<HostRuntime>,
) -> anyhow::Result<()> {
    let one = done(server.send("one"));
    let two = done(server.send("two"));
    let before = heard(rt.alloc(), client.recv())?;
    let asked = heard(rt.alloc(), server.recv())?;
    let first = heard(rt.alloc(), next(rt, client))?;
    let second = heard(rt.alloc(), next(rt, client))?;
    println!(rt; "server sends twice: {one}, {two}, client hears: {before}")?;
    println!(rt; "server is asked: {asked}, client hears: {first}, {second}")?;
    Ok(())
}

// A close, after which the end that closed answers by its own code.
fn show_close(
    rt: &HostRuntime,
    name: &str,
    closing: &mut SocketLink<HostRuntime>,
    other: &mut SocketLink<HostRuntime>,
    code: u16,
) -> anyhow::Result<()> {
    let closed = done(closing.close(code));
    let own = heard(rt.alloc(), closing.recv())?;
    let sent = done(closing.send("more"));
    let answer = heard(rt.alloc(), next(rt, other))?;
    println!(rt; "{name} closes: {closed}, then hears: {own}, sends: {sent}; the other: {answer}")?;
    let later = heard(rt.alloc(), other.recv())?;
    println!(rt; "the other, asked again: {later}")?;
    Ok(())
}

// Texts, and a close by one end.
fn show_ends(
    rt: &HostRuntime,
    client: &mut SocketLink<HostRuntime>,
    server: &mut SocketLink<HostRuntime>,
    by_server: bool,
) -> anyhow::Result<()> {
    show_texts(rt, client, server)?;
    show_gathered(rt, client, server)?;
    if by_server {
        show_close(rt, "server", server, client, 4004)
    } else {
        show_close(rt, "client", client, server, 1000)
    }
}

// One link, from its dial to its end.
fn show_link(
    rt: &HostRuntime,
    network: &mut SocketNetwork<HostRuntime>,
    door: &mut SocketDoor<HostRuntime>,
    port: u16,
    by_server: bool,
) -> anyhow::Result<()> {
    if let Some(mut client) = dial(rt, network, port)? {
        if let Ok(mut server) = next_link(rt, door) {
            let shown = show_ends(rt, &mut client, &mut server, by_server);
            door.back(server);
            network.back(client);
            shown?;
        }
    }
    Ok(())
}

/// Shows two links, of which the server closes one and the client the other.
pub fn show(
    rt: &HostRuntime,
    network: &mut SocketNetwork<HostRuntime>,
    door: &mut SocketDoor<HostRuntime>,
    port: u16,
) -> anyhow::Result<()> {
    show_link(rt, network, door, port, true)?;
    show_link(rt, network, door, port, false)?;
    Ok(())
}
