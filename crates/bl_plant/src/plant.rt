//! What gives rows of numbers, and is told rows of outputs.

ghost use Rattle.std.specs.Prelude.{◌≡◌, length};
ghost use Rattle.bl_plant.specs.Plants.{PlantView, Gives, IsTold};

use crate::log::{Log, PlantName};
use bl_tree::{NoMemory, Row};

/// How a plant answers where it is asked for a row.
#[derive(Clone, Copy, PartialEq, Eq, Debug)]
pub enum Give {
    /// The row holds the plant's numbers, and the log has it.
    Gave,
    /// It has no further row.
    Finished,
    /// It couldn't, and counted that.
    Failed,
    NoMemory,
}

/// What gives rows of numbers, and is told rows of outputs. Its name, its width and its rule stay for its life, and its count of
/// faults never falls.
pub trait Plant: Drop {
    // Its name, width and log, its count of faults, and its rule where it tells one.
    ghost shown: { Self → PlantView };

    fn name(&self) -> PlantName
        ensures { result.number ≡ (shown self.now).name };

    /// How many numbers a row has that it gives.
    fn width(&self) -> u32
        ensures { result ≡ (shown self.now).width };

    /// What it gave and was told so far.
    fn log(&self) -> &Log
        ensures { result.now ≡ (shown self.now).log };

    /// Fills a row with its next numbers. What the row holds at any answer but Gave isn't said.
    fn give(&mut self, into: &mut Row) -> Give
        requires { length into.old ≡ (shown self.old).width }
        ensures length { length into.new ≡ length into.old }
        ensures gives { Gives (shown self.old) result into.new (shown self.new) };

    /// Tells it the outputs of a tick. After want of memory its log is as before.
    fn told(&mut self, outs: &Row) -> Result<(), NoMemory>
        ensures { IsTold (shown self.old) outs.now result (shown self.new) };
}
