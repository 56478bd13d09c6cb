//! Sessions with a client, over a stream that is read and one that is written.

ghost use Rattle.std.specs.Prelude.{◌≡◌, ◌≤◌, ◌<◌, length};
ghost use Rattle.bl_io.specs.Count.{NeverFell};
ghost use Rattle.bl_lsp_session.specs.Sessions.{FeedEnds, ReadEnds, ServeEnds, TakeEnds, at_first};
ghost use Rattle.bl_lsp_session.specs.inner.Ends.{HearEnds, SendEnds, WriteEnds, course_behind};

use crate::hearing::{Heard, hear};
use bl_io::{Files, PIECE, Sink, write_all};
use bl_lsp::{Framer, Phase, Taken};
use std::alloc::Global;

/// What is sent where memory lacks for what a message asks.
pub const NO_MEMORY: &[u8] =
    b"Content-Length: 77\r\n\r\n{\"error\":{\"code\":-32603,\"message\":\"out of memory\"},\"id\":null,\"jsonrpc\":\"2.0\"}";

/// How a session ended.
#[derive(Clone, Copy, PartialEq, Eq, Debug)]
pub enum Ended {
    /// The client left behind `shutdown`.
    Left,
    /// The client left without it, or the stream ended.
    Cut,
    /// A header told no length of its content, or one above the limit.
    Broken,
    /// The stream can't be read, or can't be written.
    Failed,
    /// Memory lacked for the content of a message.
    NoMemory,
}

/// Whether a session goes on.
#[derive(Clone, Copy, PartialEq, Eq, Debug)]
pub enum Course {
    On,
    Over(Ended),
}

/// Where a session stands: the reader of its stream, and how far it has come.
#[derive(Drop)]
pub struct Server {
    pub framer: Framer,
    pub phase: Phase,
}

impl Server {
    /// Before the first byte.
    pub fn new(alloc: Global) -> Server
        ensures { result ≡ at_first }
    {
        Server {
            framer: Framer::new(alloc),
            phase: Phase::Fresh,
        }
    }

    /// Takes the next bytes of the stream, and writes what is sent for the messages that become whole.
    pub fn feed<O: Sink>(&mut self, alloc: Global, piece: &[u8], out: &mut O) -> Course
        ensures goes { FeedEnds self.old piece.now self.new (O.held out.old) (O.held out.new) result }
        ensures out_count { O.faults out.old ≤ O.faults out.new }
    {
        for byte in piece {
            match self.take(alloc, *byte, out) {
                Course::On => {}
                Course::Over(ended) => return Course::Over(ended),
            }
        }
        Course::On
    }

    fn take<O: Sink>(&mut self, alloc: Global, byte: u8, out: &mut O) -> Course
        ensures takes { TakeEnds self.old byte self.new (O.held out.old) (O.held out.new) result }
        ensures out_count { O.faults out.old ≤ O.faults out.new }
    {
        match self.framer.take(byte) {
            Ok(Taken::More) => Course::On,
            Ok(Taken::Whole) => self.hear(alloc, out),
            Ok(Taken::Broken) => Course::Over(Ended::Broken),
            Err(_) => Course::Over(Ended::NoMemory),
        }
    }

    fn hear<O: Sink>(&mut self, alloc: Global, out: &mut O) -> Course
        ensures hears { HearEnds self.old.phase self.old.framer.got self.new (O.held out.old) (O.held out.new) result }
        ensures out_count { O.faults out.old ≤ O.faults out.new }
    {
        let heard = hear(alloc, self.phase, self.framer.content());
        self.framer.go_on();
        match heard {
            Ok(heard) => self.send(&heard, out),
            Err(_) => written(out, NO_MEMORY),
        }
    }

    fn send<O: Sink>(&mut self, heard: &Heard, out: &mut O) -> Course
        ensures framer { self.new.framer ≡ self.old.framer }
        ensures sends { SendEnds heard.now self.new (O.held out.old) (O.held out.new) result }
        ensures out_count { O.faults out.old ≤ O.faults out.new }
    {
        self.phase = heard.phase;
        match written(out, heard.sent.as_slice()) {
            Course::On => left(heard.left, heard.phase),
            Course::Over(ended) => Course::Over(ended),
        }
    }
}

/// Whether a session goes on behind a message.
fn left(left: bool, phase: Phase) -> Course
    ensures { result ≡ course_behind left phase }
{
    if !left {
        return Course::On;
    }
    match phase {
        Phase::Shut => Course::Over(Ended::Left),
        Phase::Fresh | Phase::Running => Course::Over(Ended::Cut),
    }
}

/// Writes bytes, if there are any.
fn written<O: Sink>(out: &mut O, bytes: &[u8]) -> Course
    ensures writes { WriteEnds bytes.now (O.held out.old) (O.held out.new) result }
    ensures out_count { O.faults out.old ≤ O.faults out.new }
{
    match write_all(out, bytes) {
        Ok(()) => Course::On,
        Err(_) => Course::Over(Ended::Failed),
    }
}

/// Serves a client over the stream of this name until it leaves, the stream ends, or nothing more can be read or written.
pub fn serve<F: Files, O: Sink>(alloc: Global, name: &str, input: &mut F, out: &mut O) -> Ended
    ensures serves { ServeEnds (F.left input.old name.now) (F.left input.new name.now) (O.held out.old) result }
    ensures in_count { NeverFell (F.faults input.old) (F.faults input.new) }
    ensures out_count { O.faults out.old ≤ O.faults out.new }
{
    let mut server = Server::new(alloc);
    let mut room = [0; PIECE];
    for _ in 0..u64::MAX {
        match next(alloc, &mut server, name, &mut room, input, out) {
            Course::On => {}
            Course::Over(ended) => return ended,
        }
    }
    Ended::Failed
}

/// Reads a piece of the stream, and takes it.
fn next<F: Files, O: Sink>(
    alloc: Global,
    server: &mut Server,
    name: &str,
    room: &mut [u8],
    input: &mut F,
    out: &mut O,
) -> Course
    requires { 0 < length room.old }
    ensures reads { ReadEnds server.old (F.left input.old name.now) server.new (F.left input.new name.now) (O.held out.old) (O.held out.new) result }
    ensures in_count { NeverFell (F.faults input.old) (F.faults input.new) }
    ensures out_count { O.faults out.old ≤ O.faults out.new }
{
    match input.next(name, room) {
        Ok(0) => Course::Over(Ended::Cut),
        Ok(n) => server.feed(alloc, &room[..n], out),
        Err(_) => Course::Over(Ended::Failed),
    }
}
