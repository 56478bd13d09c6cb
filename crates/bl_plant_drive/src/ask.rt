//! Asking the plants that are named, in a tick.

ghost use Rattle.std.specs.Prelude.{◌≡◌, ◌+◌, ◌<◌, [], ◌∷◌, List as Elements, map, nat_eq, slice_get, Some, true, false};
ghost use Rattle.std.specs.List.{position_from};
ghost use Rattle.bl_plant.specs.Plants.{PlantView};
ghost use Rattle.bl_plant_drive.specs.inner.Stands.{Asked, IsAround, IsThere};

use crate::driven::Gone;
use crate::fault::DriveFault;
use crate::listed::{drop_at, give_at, place_of, width_at};
use crate::seat::Seat;
use bl_plant::{Give, Plant};
use bl_tree::{List, Row};
use std::alloc::Global;

/// Asks the plant of a seat for its numbers. One that finishes is recorded, taken out of the list and dropped.
pub fn ask(
    alloc: Global,
    plants: &mut Vec<Box<dyn Plant>>,
    seat: &mut Seat,
    ticks: u32,
    gone: &mut List<Gone>,
) -> Result<(), DriveFault>
    requires { IsThere (map (λ b. shown b) plants.old.items) seat.old.name.number }
    ensures { (before : Elements PlantView) (p : PlantView) (after : Elements PlantView) →
        IsAround (map (λ b. shown b) plants.old.items) seat.old.name.number before p after →
        Asked before p after seat.old ticks gone.old (map (λ b. shown b) plants.new.items) seat.new gone.new result }
{
    let Some(at) = place_of(plants, seat.name) else {
        unreachable!()
    };
    let mut row = Row::new(alloc, width_at(plants, at))?;
    match give_at(plants, at, &mut row) {
        Give::Gave => {
            seat.columns = row;
            Ok(())
        }
        Give::Finished => {
            gone.push(Gone {
                name: seat.name,
                rows: ticks,
            })?;
            drop_at(plants, at);
            seat.finished = true;
            Ok(())
        }
        Give::Failed => Err(DriveFault::Failed { name: seat.name }),
        Give::NoMemory => Err(DriveFault::NoMemory),
    }
}
