//! The line that names the rule which refuses a source (docs/FORMATS.md, "Notes").

ghost use Rattle.std.specs.Prelude.{◌≡◌, ◌++◌, IfOk, OnOk};
ghost use Rattle.bl_top_commands.specs.Refusals.{file_line, place_text, refusal_line};

use bl_tree::{Place, Rule};
use itoa::Buffer;
use std::alloc::{AllocError, Global};

/// The line of a rule that fails at the place, with its further places. Fails only for want of memory.
#[tactic(auto, unfolding(crate::specs::Refusals::refusal_line))]
pub fn line(alloc: Global, rule: Rule, place: Place, also: &[Place]) -> Result<Vec<u8>, AllocError>
    ensures { IfOk result (λ line. line.items ≡ refusal_line rule place also.now) }
{
    let mut line = Vec::from_slice(alloc, b"rule ")?;
    let mut buffer = Buffer::new();
    line.extend_from_slice(buffer.format(rule.number()).as_bytes())?;
    line.extend_from_slice(b" ")?;
    line.extend_from_slice(rule.name().as_bytes())?;
    append_place(place, &mut line)?;
    'also: for other in also {
        append_place(*other, &mut line)?;
    }
    line.extend_from_slice(b"\n")?;
    Ok(line)
}

/// The line of a rule that fails for the file of this number, counted from 1.
pub fn line_in_file(
    alloc: Global,
    file: u32,
    rule: Rule,
    place: Place,
    also: &[Place],
) -> Result<Vec<u8>, AllocError>
    ensures { IfOk result (λ line. line.items ≡ file_line file (refusal_line rule place also.now)) }
{
    let own = line(alloc, rule, place, also)?;
    let mut told = Vec::from_slice(alloc, b"file ")?;
    let mut buffer = Buffer::new();
    told.extend_from_slice(buffer.format(file).as_bytes())?;
    told.extend_from_slice(b" ")?;
    told.extend_from_slice(&own)?;
    Ok(told)
}

/// Appends a place behind a space.
fn append_place(place: Place, line: &mut Vec<u8>) -> Result<(), AllocError>
    ensures { OnOk result (line.new.items ≡ line.old.items ++ place_text place) }
{
    let mut buffer = Buffer::new();
    line.extend_from_slice(b" ")?;
    line.extend_from_slice(buffer.format(place.start).as_bytes())?;
    line.extend_from_slice(b"-")?;
    line.extend_from_slice(buffer.format(place.end).as_bytes())
}
