//! Texts of traces as they grow.

ghost use Rattle.std.specs.Prelude.{◌≡◌, ◌++◌, ◌+◌, ◌≤◌, [], length, take, OnErr, OnOk};
ghost use Rattle.bl_rows.specs.Text.{line_text};

use crate::written::{TICK_ROOM, VALUE_ROOM, write_bytes, write_line};
use bl_tree::List;
use bl_tree::row::{Column, Row};
use std::alloc::{AllocError, Global};
use std::marker::Model;

// The least room that is taken.
const LEAST_ROOM: usize = 1024;

/// A text that grows by lines. It writes each into room that it has taken before, and keeps that room where it is
/// cleared: a line costs no allocation.
#[derive(Drop)]
pub struct TraceText {
    room: Vec<u8>,
    len: usize,
}

impl Model for TraceText {
    ghost use Rattle.std.specs.Prelude.{ℕ, List as Elements, ◌≤◌, length, take};

    ghost Value = { Elements ℕ };

    ghost view = { λ text. take text.len text.room.items };

    ghost invariant = { λ text. text.len ≤ length text.room.items };
}

impl TraceText {
    /// The empty text, which takes no memory.
    pub fn new(alloc: Global) -> TraceText
        ensures { result ≡ [] }
    {
        TraceText {
            room: Vec::new(alloc),
            len: 0,
        }
    }

    /// The text.
    pub fn as_slice(&self) -> &[u8]
        ensures { result.now ≡ self.now }
    {
        &self.room[..self.len]
    }

    /// Makes it empty again.
    pub fn clear(&mut self)
        ensures { self.new ≡ [] }
    {
        self.len = 0;
    }

    /// The text alone.
    pub fn into_bytes(self) -> Vec<u8>
        ensures { result.items ≡ self }
    {
        let TraceText { room, len } = self;
        let mut bytes = room;
        bytes.truncate(len);
        bytes
    }

    /// Appends bytes. Fails only for want of memory.
    pub fn append(&mut self, bytes: &[u8]) -> Result<(), AllocError>
        ensures { OnOk result (self.new ≡ self.old ++ bytes.now) }
    {
        if self.room.len() - self.len < bytes.len() {
            grow(&mut self.room, bytes.len())?;
        }
        self.len = write_bytes(self.room.as_mut_slice(), self.len, bytes);
        Ok(())
    }

    /// Appends the line of a tick, with its line feed (docs/FORMATS.md, "Traces"). Numbers without a column and columns
    /// without a number are left out. Fails only for want of memory.
    pub fn append_line(
        &mut self,
        tick: u32,
        outs: &List<Column>,
        row: &Row,
    ) -> Result<(), AllocError>
        ensures { OnOk result (self.new ≡ self.old ++ line_text tick outs.now row.now) }
    {
        let most = TICK_ROOM + VALUE_ROOM * outs.len().min(row.len() as usize);
        if self.room.len() - self.len < most {
            grow(&mut self.room, most)?;
        }
        self.len = write_line(self.room.as_mut_slice(), self.len, tick, outs, row);
        Ok(())
    }
}

// Makes a room greater by so many bytes at least, and at least twice as great.
fn grow(room: &mut Vec<u8>, more: usize) -> Result<(), AllocError>
    ensures kept { OnOk result (take (length room.old.items) room.new.items ≡ room.old.items) }
    ensures greater { OnOk result (length room.old.items + more ≤ length room.new.items) }
    ensures same { OnErr result (room.new.items ≡ room.old.items) }
{
    let further = more.max(room.len()).max(LEAST_ROOM);
    let Some(size) = room.len().checked_add(further) else {
        return Err(AllocError);
    };
    room.resize(size, 0)
}
