//! What is left of a file in memory.

// The bytes of one file over memory, from where it stands.
ghost use Rattle.std.specs.Prelude.{◌≡◌, ◌++◌, min, length, take, drop};

use std::marker::Model;

/// What is left of one file.
#[derive(Drop)]
pub(crate) struct Rest {
    bytes: Vec<u8>,
    at: usize,
}

impl Model for Rest {
    ghost use Rattle.std.specs.Prelude.{ℕ, ◌≤◌, List, length, drop};

    ghost Value = { List ℕ };

    ghost view = { λ r. drop r.at r.bytes.items };

    ghost invariant = { λ r. r.at ≤ length r.bytes.items };
}

impl Rest {
    pub(crate) fn new(bytes: Vec<u8>) -> Self
        ensures { result ≡ bytes.items }
    {
        Self { bytes, at: 0 }
    }

    // Moves as many of the next bytes to the front of the room as it, `most` and the bytes allow.
    pub(crate) fn hand_over(&mut self, room: &mut [u8], most: usize) -> usize
        ensures count { result ≡ min (length room.old) (min most (length self.old)) }
        ensures rest { self.new ≡ drop result self.old }
        ensures room { room.new ≡ take result self.old ++ drop result room.old }
    {
        let left = &self.bytes[self.at..];
        let n = room.len().min(most.min(left.len()));
        room[..n].copy_from_slice(&left[..n]);
        self.at += n;
        n
    }
}
