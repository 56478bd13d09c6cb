//! What is told of functions that take a frame first.

ghost use Rattle.std.specs.Prelude.{◌≡◌, ◌∷◌, [], IfOk, MatchOption, None, Some};
ghost use Rattle.bl_simplify_laws_frames.specs.Reached.{first_frame, no_frame as untold_frame};
ghost use Rattle.bl_simplify_facts.specs.Entries.{facts_of};
ghost use Rattle.bl_simplify_frames.specs.Told.{as_frame, as_frames};

use bl_simplify_facts::entries::Case;
use bl_tree::{List, NoMemory, Text};
use std::alloc::Global;

/// A member of a frame that is a frame itself, and the function that is called with it.
#[derive(Drop)]
pub struct Part {
    pub member: Text,
    pub function: Text,
}

/// What is told of a function that takes a frame first: the name of its pointer, the struct and the parts of the frame, and facts of
/// its counters of which one holds in each call.
#[derive(Drop)]
pub struct OwnFrame {
    pub name: Text,
    pub pointer: Text,
    pub of: Text,
    pub parts: List<Part>,
    pub reached: List<Case>,
}

/// The frame of the function of a name.
pub fn frame_for<'a>(frames: &'a [OwnFrame], name: &str) -> Option<&'a OwnFrame>
    ensures { MatchOption result (first_frame name.now (as_frames frames.now) ≡ None) (λ f. first_frame name.now (as_frames frames.now) ≡ Some (as_frame f.now)) }
{
    for frame in frames {
        if frame.name.as_str() == name {
            return Some(frame);
        }
    }
    None
}

/// Facts of which nothing is told.
pub fn untold(alloc: Global) -> Result<List<Case>, NoMemory>
    ensures { IfOk result (λ cases. facts_of cases ≡ [] ∷ []) }
{
    let mut cases = List::new(alloc);
    cases.push(List::new(alloc))?;
    Ok(cases)
}

/// A frame of which nothing is told, for a function that takes none.
pub fn no_frame(alloc: Global, name: &str) -> Result<OwnFrame, NoMemory>
    ensures { IfOk result (λ f. as_frame f ≡ untold_frame name.now) }
{
    Ok(OwnFrame {
        name: Text::copy_of(alloc, name)?,
        pointer: Text::copy_of(alloc, "f")?,
        of: Text::copy_of(alloc, "")?,
        parts: List::new(alloc),
        reached: untold(alloc)?,
    })
}
