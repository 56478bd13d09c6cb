//! Bytes written in pieces.

// Whole files and whole texts, piece by piece.
ghost use Rattle.std.specs.Prelude.{◌≡◌, ◌<◌, ◌≤◌, length, take, IfOk, OnOk, OnErr, IsErrOf};
ghost use Rattle.bl_io.specs.Count.{Rose, NeverFell};
ghost use Rattle.bl_io.specs.Held.{Appends, AppendsPart};
ghost use Rattle.bl_io.specs.Left.{KeepsOthers, GivesUpTo, StandsFurther};

use crate::fault::IoFault;
use crate::files::Files;
use crate::sink::Sink;
use std::alloc::Global;

/// The most bytes that one call of a file or a sink is asked for.
pub const PIECE: usize = 1024;

/// Reads the named file from where it stands, until its end or until `limit` bytes were read. After an
/// error the file stands where the last call of `next` left it, and what was read is lost.
pub fn read_up_to<F: Files>(
    alloc: Global,
    files: &mut F,
    name: &str,
    limit: usize,
) -> Result<Vec<u8>, IoFault>
    ensures bound { IfOk result (λ got. length got.items ≤ limit) }
    ensures front { IfOk result (λ got. GivesUpTo limit (F.left files.old name.now) got.items (F.left files.new name.now)) }
    ensures err { OnErr result (StandsFurther limit (F.left files.old name.now) (F.left files.new name.now)) }
    ensures others { KeepsOthers name.now (F.left files.old) (F.left files.new) }
    ensures counts { NeverFell (F.faults files.old) (F.faults files.new) }
    ensures failed { IsErrOf result IoFault.Failed → Rose (F.faults files.old name.now) (F.faults files.new name.now) }
{
    let mut got = Vec::new(alloc);
    let mut room = [0; PIECE];
    while got.len() < limit {
        let most = PIECE.min(limit - got.len());
        let n = files.next(name, &mut room[..most])?;
        if n == 0 {
            break;
        }
        got.extend_from_slice(&room[..n])?;
    }
    Ok(got)
}

/// Writes all bytes, in pieces of at most `PIECE`. After an error a front of them was written.
pub fn write_all<O: Sink>(out: &mut O, bytes: &[u8]) -> Result<(), IoFault>
    ensures all { OnOk result (Appends (O.held out.old) bytes.now (O.held out.new)) }
    ensures err { OnErr result (AppendsPart (O.held out.old) bytes.now (O.held out.new)) }
    ensures counts { O.faults out.old ≤ O.faults out.new }
    ensures failed { IsErrOf result IoFault.Failed → Rose (O.faults out.old) (O.faults out.new) }
{
    let mut written = 0;
    while written < bytes.len() {
        let end = written + PIECE.min(bytes.len() - written);
        written += write_piece(out, &bytes[written..end])?;
    }
    Ok(())
}

// One call of the sink, with a piece that is not too long.
fn write_piece<O: Sink>(out: &mut O, piece: &[u8]) -> Result<usize, IoFault>
    requires nonempty { 0 < length piece.now }
    requires short { length piece.now ≤ PIECE }
    ensures some { IfOk result (λ n. 0 < n) }
    ensures bound { IfOk result (λ n. n ≤ length piece.now) }
    ensures front { IfOk result (λ n. Appends (O.held out.old) (take n piece.now) (O.held out.new)) }
    ensures err { OnErr result (O.held out.new ≡ O.held out.old) }
    ensures counts { O.faults out.old ≤ O.faults out.new }
    ensures failed { IsErrOf result IoFault.Failed → Rose (O.faults out.old) (O.faults out.new) }
{
    out.write(piece)
}
