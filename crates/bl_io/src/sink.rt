//! What takes bytes.

// A place that takes bytes in order.
ghost use Rattle.std.specs.Prelude.{◌≡◌, ℕ, ◌<◌, ◌≤◌, List, Option, length, take, IfOk, OnErr, IsErrOf};
ghost use Rattle.bl_io.specs.Count.{Rose};
ghost use Rattle.bl_io.specs.Held.{Appends};

use crate::fault::IoFault;

/// A place that takes bytes in order.
pub trait Sink {
    // The bytes that were taken so far, where they are told.
    ghost held: { Self → Option (List ℕ) };
    // How many faults there were so far.
    ghost faults: { Self → ℕ };

    /// Appends a front of `piece`, and answers its length. To take nothing is a fault.
    fn write(&mut self, piece: &[u8]) -> Result<usize, IoFault>
        requires { 0 < length piece.now }
        ensures some { IfOk result (λ n. 0 < n) }
        ensures bound { IfOk result (λ n. n ≤ length piece.now) }
        ensures front { IfOk result (λ n. Appends (held self.old) (take n piece.now) (held self.new)) }
        ensures err { OnErr result (held self.new ≡ held self.old) }
        ensures counts { faults self.old ≤ faults self.new }
        ensures failed { IsErrOf result IoFault.Failed → Rose (faults self.old) (faults self.new) };
}
