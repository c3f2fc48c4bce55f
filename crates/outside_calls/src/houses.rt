//! Houses in memory and over the system.

use crate::dials::dialled;
use crate::doors::ask;
use crate::streams::move_piece;
use crate::words::content;
use gate_outside::back::Back;
use gate_outside::buffered_sink::BufferedSink;
use gate_outside::clocks::Clock;
use gate_outside::faults::Fault;
use gate_outside::houses::House;
use gate_outside::mem_clock::MemClock;
use gate_outside::mem_file::MemFile;
use gate_outside::mem_house::MemHouse;
use gate_outside::mem_streams::MemSink;
use gate_outside::no_network::NoNetwork;
use gate_outside::piece::Piece;
use gate_outside::std_house::RealHouse;
use gate_outside::std_streams::StdoutSink;
use std::alloc::{AllocError, Global};
use std::collections::VecDeque;
use std::str;
use thread_outside::door_content::DoorContent;
use thread_outside::mem_dial::MemDial;
use thread_outside::mem_network::MemNetwork;
use thread_outside::script::Script;

// Moves at most three pieces of a name's source to the sink, and puts the source back.
fn move_name<H: House>(
    house: &mut H,
    name: &str,
    sink: &mut H::Out,
    piece: &mut Piece,
) -> Result<usize, Fault> {
    let mut source = house.source(name)?;
    let mut last = Ok(0);
    for _ in 0..3 {
        last = move_piece(&mut source, sink, piece);
        if last.is_err() {
            break;
        }
    }
    house.put_back(Back::Source(source));
    last
}

// What a door answers once, which is then put back.
fn asked_door<H: House>(alloc: Global, house: &mut H, port: u16) -> Result<String, AllocError> {
    match house.door(port, 1) {
        Ok(door) => {
            let mut door = door;
            let answer = ask(alloc, &mut door);
            house.put_back(Back::Door(door));
            answer
        }
        Err(fault) => format!(in alloc; "{fault:?}"),
    }
}

// Whether a clock does not go back, which is then put back.
fn asked_clock<H: House>(house: &mut H) -> Result<bool, AllocError> {
    let mut clock = house.clock()?;
    let before = clock.now_ms();
    clock.pause();
    let goes_on = before <= clock.now_ms();
    house.put_back(Back::Clock(clock));
    Ok(goes_on)
}

// Asks for three doors, for a clock and for a link.
fn show_parts<H: House>(rt: &HostRuntime, name: &str, house: &mut H) -> anyhow::Result<()> {
    for port in [80, 81, 82] {
        let answer = asked_door(rt.alloc(), house, port)?;
        println!(rt; "{name}: a door at {port}, {answer}")?;
    }
    let goes_on = asked_clock(house)?;
    let answer = dialled(rt.alloc(), house, "ws://a/")?;
    println!(rt; "{name}: the clock goes on: {goes_on}, a link: {answer}")?;
    Ok(())
}

// Two files, of which the second cannot be read.
fn add_files(alloc: Global, files: &mut Vec<MemFile>) -> Result<(), AllocError> {
    let bytes = b"abc".to_vec(alloc)?;
    files.push(MemFile::new(alloc, "a", bytes, 9, Vec::new(alloc))?)?;
    let bytes = b"de".to_vec(alloc)?;
    let failing = [1].to_vec(alloc)?;
    files.push(MemFile::new(alloc, "b", bytes, 9, failing)?)?;
    Ok(())
}

// A door at which one waits, and a dial to one end. The second ask for a door fails.
fn network(alloc: Global) -> Result<MemNetwork<Script>, AllocError> {
    let failing = [2].to_vec(alloc)?;
    let mut callers = VecDeque::new(alloc);
    callers.push_back(Some(content(alloc, "one", &[])?))?;
    let mut doors = VecDeque::new(alloc);
    doors.push_back(DoorContent::new(alloc, callers, Vec::new(alloc))?)?;
    let mut ends = VecDeque::new(alloc);
    let added = ends.push_back(content(alloc, "three", &[])?);
    let dial = MemDial::new(alloc, ends, Vec::new(alloc));
    let network = MemNetwork::new(doors, dial, failing);
    match added {
        Ok(()) => Ok(network),
        Err(_) => {
            drop(network);
            Err(AllocError)
        }
    }
}

// A house over that network, whose fourth ask for a source fails.
fn with_network(
    alloc: Global,
    network: MemNetwork<Script>,
) -> Result<MemHouse<MemNetwork<Script>>, AllocError> {
    let (Ok(moments), Ok(failing)) = ([3, 5].to_vec(alloc), [4].to_vec(alloc)) else {
        drop(network);
        return Err(AllocError);
    };
    let mut files = Vec::new(alloc);
    let added = add_files(alloc, &mut files);
    let house = MemHouse::new(alloc, files, MemClock::new(moments), network, failing);
    match added {
        Ok(()) => Ok(house),
        Err(error) => {
            drop(house);
            Err(error)
        }
    }
}

// Asks for four names, and shows what the sink has.
fn show_names(
    rt: &HostRuntime,
    house: &mut MemHouse<MemNetwork<Script>>,
    sink: &mut MemSink,
) -> anyhow::Result<()> {
    let mut piece = Piece::new(rt.alloc())?;
    for name in ["a", "c", "b", "a"] {
        let moved = move_name(house, name, sink, &mut piece);
        let (asks, faults) = (house.asks().len(), house.source_faults());
        println!(rt; "house: {name}, {moved:?}, {asks} asks, {faults} faults")?;
    }
    let got = str::from_utf8(sink.bytes())?;
    println!(rt; "house: the sink has {got}")?;
    Ok(())
}

fn show_house(rt: &HostRuntime, house: &mut MemHouse<MemNetwork<Script>>) -> anyhow::Result<()> {
    let mut sink = MemSink::new(rt.alloc(), 9, Vec::new(rt.alloc()));
    let shown = show_names(rt, house, &mut sink);
    drop(sink);
    shown?;
    show_parts(rt, "house", house)?;
    let asks = house.asks().len();
    println!(rt; "house: {asks} asks")?;
    Ok(())
}

fn show_planned(rt: &HostRuntime) -> anyhow::Result<()> {
    let mut house = with_network(rt.alloc(), network(rt.alloc())?)?;
    let shown = show_house(rt, &mut house);
    drop(house);
    shown
}

// A file, a file that does not exist, and standard input, which go to standard output.
fn show_real(rt: &HostRuntime) -> anyhow::Result<()> {
    let mut house = RealHouse::new(*rt, NoNetwork::new());
    let mut sink = BufferedSink::new(rt.alloc(), StdoutSink::new(*rt))?;
    let mut piece = Piece::new(rt.alloc())?;
    for name in ["given.txt", "absent.txt", "-"] {
        let moved = move_name(&mut house, name, &mut sink, &mut piece);
        let faults = sink.sink().faults();
        println!(rt; "the real house: {name}, {moved:?}, {faults} faults of the sink")?;
    }
    show_parts(rt, "the real house", &mut house)
}

/// Shows both forms.
pub fn show(rt: &HostRuntime) -> anyhow::Result<()> {
    show_planned(rt)?;
    show_real(rt)
}
