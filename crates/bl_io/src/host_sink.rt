//! The system's streams.

// A stream of the system.
ghost use Rattle.std.specs.Prelude.{◌≡◌, ℕ, ◌<◌, ◌≤◌, List, Option, None, length, take, IfOk, IfSome, OnOk, OnErr, IsErrOf, IsOkUnless};
ghost use Rattle.bl_io.specs.Count.{Rose, count_up};
ghost use Rattle.bl_io.specs.Held.{Appends};

use crate::fault::IoFault;
use crate::sink::Sink;
use std::io::Write;
use std::marker::Model;

/// A stream of the system, as its standard output. Each call passes on what it took at once.
#[derive(Drop)]
pub struct HostSink<W: Write + Drop> {
    stream: W,
    faults: u64,
}

impl<W: Write + Drop> Model for HostSink<W> {
    ghost use Rattle.std.specs.Prelude.{ℕ};

    ghost Value = { ℕ };

    ghost view = { λ h. h.faults };
}

impl<W: Write + Drop> HostSink<W> {
    /// No fault was counted.
    pub fn new(stream: W) -> Self
        ensures { result ≡ 0 }
    {
        Self { stream, faults: 0 }
    }
}

impl<W: Write + Drop> Sink for HostSink<W> {
    ghost held = { λ _. None };

    ghost faults = { λ count. count };

    /// Takes no memory.
    fn write(&mut self, piece: &[u8]) -> Result<usize, IoFault>
        requires { 0 < length piece.now }
        ensures some { IfOk result (λ n. 0 < n) }
        ensures bound { IfOk result (λ n. n ≤ length piece.now) }
        ensures front { IfOk result (λ n. Appends None (take n piece.now) None) }
        ensures err { OnErr result (◌≡◌ {A = Option (List ℕ)} None None) }
        ensures counts { self.old ≤ self.new }
        ensures failed { IsErrOf result IoFault.Failed → Rose self.old self.new }

        // Each fault is counted, and nothing else is.
        ensures fails { IsOkUnless result IoFault.Failed }
        ensures counted { OnErr result (self.new ≡ count_up self.old) }
        ensures ok { OnOk result (self.new ≡ self.old) }
    {
        match write_through(&mut self.stream, piece) {
            Some(n) => Ok(n),
            None => {
                self.faults = self.faults.saturating_add(1);
                Err(IoFault::Failed)
            }
        }
    }
}

// Writes a front of the piece, and flushes; nothing where that failed, or nothing was taken.
fn write_through<W: Write>(stream: &mut W, piece: &[u8]) -> Option<usize>
    ensures some { IfSome result (λ n. 0 < n) }
    ensures bound { IfSome result (λ n. n ≤ length piece.now) }
{
    let n = stream.write(piece).ok()?;
    stream.flush().ok()?;
    if n == 0 { None } else { Some(n) }
}
