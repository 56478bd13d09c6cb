//! The lines that tell the steps of ticks.

ghost use Rattle.std.specs.Prelude.{◌≡◌, ◌++◌, ◌-◌, ◌^◌, ◌<◌, length, IfOk, OnOk};
ghost use Rattle.bl_walk.specs.Lines.{tick_line, tick_lines_from};

use bl_tree::{List, NoMemory, Place};
use itoa::Buffer;
use std::alloc::Global;

/// A line for each of the ticks begun (docs/FORMATS.md, "Notes"), the first of which is tick 1. Fails only for want of memory.
pub fn lines(alloc: Global, ticks: &[List<Place>]) -> Result<Vec<u8>, NoMemory>
    requires { length ticks.now < 2 ^ 32 - 1 }
    ensures { IfOk result (λ text. text.items ≡ tick_lines_from 1 ticks.now) }
{
    let mut text = Vec::new(alloc);
    let mut tick = 1;
    'ticks: for places in ticks {
        append_line(tick, places.as_slice(), &mut text)?;
        tick += 1;
    }
    Ok(text)
}

fn append_line(tick: u32, places: &[Place], text: &mut Vec<u8>) -> Result<(), NoMemory>
    ensures { OnOk result (text.new.items ≡ text.old.items ++ tick_line tick places.now) }
{
    let mut buffer = Buffer::new();
    text.extend_from_slice(b"tick ")?;
    text.extend_from_slice(buffer.format(tick).as_bytes())?;
    text.extend_from_slice(b":")?;
    'places: for place in places {
        text.extend_from_slice(b" ")?;
        text.extend_from_slice(buffer.format(place.start).as_bytes())?;
    }
    Ok(text.extend_from_slice(b"\n")?)
}
