//! Files by name, read piece by piece.

// Files that are read from their front, each by its name.
ghost use Rattle.std.specs.Prelude.{◌≡◌, ℕ, ◌<◌, ◌≤◌, List, Option, length, IfOk, OnErr, IsErrOf};
ghost use Rattle.bl_io.specs.Count.{Rose, NeverFell};
ghost use Rattle.bl_io.specs.Left.{HandsOver, KeepsOthers};

use crate::fault::IoFault;

/// Files that are read from their front, each by its name. Each call goes on from where that name stands.
pub trait Files {
    // The bytes that are left of each name, where they are told.
    ghost left: { Self → List ℕ → Option (List ℕ) };
    // How many faults there were so far with each name. One counter may serve for all names.
    ghost faults: { Self → List ℕ → ℕ };

    /// Fills a front of `room` with the next bytes of the named file, and answers their number; 0 is the
    /// file's end. Where the bytes left of a name are not told, they may become told.
    fn next(&mut self, name: &str, room: &mut [u8]) -> Result<usize, IoFault>
        requires { 0 < length room.old }
        ensures bound { IfOk result (λ n. n ≤ length room.old) }
        ensures front { IfOk result (λ n. HandsOver (left self.old name.now) n room.new (left self.new name.now)) }
        ensures err { OnErr result (left self.new name.now ≡ left self.old name.now) }
        ensures others { KeepsOthers name.now (left self.old) (left self.new) }
        ensures counts { NeverFell (faults self.old) (faults self.new) }
        ensures failed { IsErrOf result IoFault.Failed → Rose (faults self.old name.now) (faults self.new name.now) };
}
