//! Sources and sinks in memory.

use gate_outside::buffered_sink::BufferedSink;
use gate_outside::faults::Fault;
use gate_outside::mem_streams::{MemSink, MemSource, SureSink, SureSource};
use gate_outside::piece::Piece;
use gate_outside::streams::{Sink, Source, write_all};
use std::alloc::AllocError;
use std::str;

/// Moves one piece from the source to the sink, lets it go out, and says how many bytes it had.
pub fn move_piece<S: Source, K: Sink>(
    source: &mut S,
    sink: &mut K,
    piece: &mut Piece,
) -> Result<usize, Fault> {
    piece.fill(source)?;
    write_all(sink, piece.bytes())?;
    sink.flush()?;
    Ok(piece.bytes().len())
}

// A source that gives at most four bytes at once, and a sink that takes at most three.
fn planned(rt: &HostRuntime) -> Result<(MemSource, MemSink), AllocError> {
    let alloc = rt.alloc();
    let bytes = b"abcdef".to_vec(alloc)?;
    let reads = [2, 5].to_vec(alloc)?;
    let writes = [2].to_vec(alloc)?;
    Ok((
        MemSource::with_most(bytes, 4, reads),
        MemSink::new(alloc, 3, writes),
    ))
}

// Moves five pieces.
fn show_moves(
    rt: &HostRuntime,
    source: &mut MemSource,
    sink: &mut MemSink,
    piece: &mut Piece,
) -> anyhow::Result<()> {
    for _ in 0..5 {
        let moved = move_piece(source, sink, piece);
        let got = str::from_utf8(sink.bytes())?;
        println!(rt; "stream: {moved:?}, the sink has {got}")?;
    }
    let (reads, writes) = (source.faults(), sink.faults());
    println!(rt; "stream: {reads} and {writes} faults")?;
    Ok(())
}

// The second and fifth read and the second write fail, but no read after the end.
fn show_planned(rt: &HostRuntime) -> anyhow::Result<()> {
    let mut piece = Piece::new(rt.alloc())?;
    let (mut source, mut sink) = planned(rt)?;
    let shown = show_moves(rt, &mut source, &mut sink, &mut piece);
    drop(source);
    drop(sink);
    shown
}

// Moves two pieces.
fn show_sure_moves(
    rt: &HostRuntime,
    source: &mut SureSource,
    sink: &mut SureSink,
    piece: &mut Piece,
) -> anyhow::Result<()> {
    for _ in 0..2 {
        let moved = move_piece(source, sink, piece);
        let got = str::from_utf8(sink.bytes())?;
        println!(rt; "sure stream: {moved:?}, the sink has {got}")?;
    }
    Ok(())
}

fn show_sure(rt: &HostRuntime) -> anyhow::Result<()> {
    let mut piece = Piece::new(rt.alloc())?;
    let mut source = SureSource::new(b"abcdef".to_vec(rt.alloc())?);
    let mut sink = SureSink::new(rt.alloc());
    let shown = show_sure_moves(rt, &mut source, &mut sink, &mut piece);
    drop(source);
    drop(sink);
    shown
}

// Offers one piece, or lets all go out if there is none.
fn offer(sink: &mut BufferedSink<MemSink>, piece: Option<&[u8]>) -> Result<(), Fault> {
    match piece {
        Some(piece) => write_all(sink, piece),
        None => sink.flush(),
    }
}

// Shows what waits in the buffer, what the sink behind it has, and how often that has failed.
fn show_buffer(
    rt: &HostRuntime,
    sink: &BufferedSink<MemSink>,
    offered: Result<(), Fault>,
) -> anyhow::Result<()> {
    let behind = sink.sink();
    let (held, got) = (
        str::from_utf8(sink.held())?,
        str::from_utf8(behind.bytes())?,
    );
    let faults = behind.faults();
    println!(rt; "buffer: {offered:?}, it holds {held}, the sink has {got}, {faults} faults")?;
    Ok(())
}

// Offers pieces, and lets them go out.
fn show_offers(rt: &HostRuntime, sink: &mut BufferedSink<MemSink>) -> anyhow::Result<()> {
    let pieces: [Option<&[u8]>; 6] = [Some(b"abc"), Some(b"def"), None, None, Some(b"g"), None];
    for piece in pieces {
        let offered = offer(sink, piece);
        show_buffer(rt, sink, offered)?;
    }
    Ok(())
}

// The sink behind the buffer takes at most four bytes at once, and its second write fails.
fn show_buffered(rt: &HostRuntime) -> anyhow::Result<()> {
    let behind = MemSink::new(rt.alloc(), 4, [2].to_vec(rt.alloc())?);
    let mut sink = BufferedSink::new(rt.alloc(), behind)?;
    let shown = show_offers(rt, &mut sink);
    drop(sink);
    shown
}

/// Shows these forms.
pub fn show(rt: &HostRuntime) -> anyhow::Result<()> {
    show_planned(rt)?;
    show_sure(rt)?;
    show_buffered(rt)
}
