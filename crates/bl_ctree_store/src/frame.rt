//! The values of one instance, and changes of them.

ghost use Rattle.std.specs.Prelude.{◌≡◌, option_map};
ghost use Rattle.bl_ctree.specs.Store.{put, value_among};
ghost use Rattle.bl_ctree_store.specs.Own.{now_there};
ghost use Rattle.bl_ctree_store.specs.Seen.{frame_of, location_of, side, store_of};

use crate::home::Home;
use bl_eval::parts;
use bl_tree::Value;
use bl_tree::slices::element;

/// The values of one instance.
#[derive(Drop)]
pub struct Frame {
    /// One for each variable. An output's own value is never read: its home is the caller's.
    pub now: Vec<Value>,
    /// Those at the end of the previous tick.
    pub before: Vec<Value>,
    /// The result, where the activity has one.
    pub result: Option<Value>,
}

/// Which of the values of a frame.
#[derive(Clone, Copy, PartialEq, Eq, Debug)]
pub enum Moment {
    Now,
    Before,
}

fn values_at(frame: &Frame, moment: Moment) -> &[Value]
    ensures { result.now ≡ side moment (frame_of frame.entry.now) }
{
    match moment {
        Moment::Now => frame.now.as_slice(),
        Moment::Before => frame.before.as_slice(),
    }
}

/// The value at a home.
pub fn find<'a>(frames: &'a [Frame], moment: Moment, at: &Home) -> Option<&'a Value>
    ensures { option_map (λ found. found.now) result ≡ value_among (side moment) (store_of frames.now) (location_of at.now) }
{
    let frame = element(frames, at.instance as usize)?;
    parts::find(values_at(frame, moment), at.root, &at.fields)
}

/// The own value of a variable of an instance.
pub fn now_at(frames: &[Frame], i: usize, k: usize) -> Option<&Value>
    ensures { option_map (λ found. found.now) result ≡ now_there (store_of frames.now) i k }
{
    element(element(frames, i)?.now.as_slice(), k)
}

/// Puts a value at a home, where there is one.
pub fn put(frames: &mut Vec<Frame>, at: &Home, value: Value)
    ensures { store_of frames.new.items ≡ put (location_of at.now) value (store_of frames.old.items) }
{
    let i = at.instance as usize;
    if i < frames.len() {
        parts::put(&mut frames[i].now, at.root, &at.fields, value);
    }
}
