//! Calls doors, dials and links of WebSocket over TCP on this machine, and prints what each answers.
#![tactic(auto)]

mod asking;
mod both_ends;
mod in_thread;
mod raw_client;
mod refusals;
mod slow_peer;
mod words;

use gate_outside::houses::House;
use gate_outside::networks::Network;
use gate_outside::std_house::RealHouse;
use link_edge::socket_door::SocketDoor;
use link_edge::socket_network::SocketNetwork;

// How many links the door gives.
const ACCEPTS: u32 = 8;

// Shows all that goes on at one door.
fn show(
    rt: &HostRuntime,
    network: &mut SocketNetwork<HostRuntime>,
    door: &mut SocketDoor<HostRuntime>,
) -> anyhow::Result<()> {
    let port = door.port().unwrap_or(0);
    both_ends::show(rt, network, door, port)?;
    raw_client::show(rt, door, port)?;
    refusals::show(rt, network, door, port)?;
    slow_peer::show(rt, network, door, port)?;
    Ok(())
}

fn main(rt: HostRuntime) -> anyhow::Result<()> {
    let mut network = SocketNetwork::new(rt.alloc(), rt);
    if let Ok(mut door) = network.door(0, ACCEPTS) {
        let shown = show(&rt, &mut network, &mut door);
        network.put_back(door);
        shown?;
    }
    let mut house = RealHouse::new(rt, network);
    if let Ok(door) = house.door(0, 1) {
        in_thread::show(&rt, &rt, &mut house, door)?;
    }
    Ok(())
}
