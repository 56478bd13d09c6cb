//! A seat for each name, before the first tick.

ghost use Rattle.std.specs.Prelude.{◌≡◌, map, IfOk};
ghost use Rattle.bl_plant_drive.specs.inner.Ticks.{new_seat};

use crate::names::width_named;
use crate::seat::Seat;
use bl_plant::{Plant, PlantName};
use bl_tree::{NoMemory, Row};
use std::alloc::Global;

/// The seats of the names, in their order.
pub fn seats_of(
    alloc: Global,
    plants: &[Box<dyn Plant>],
    names: &[PlantName],
) -> Result<Vec<Seat>, NoMemory>
    ensures { IfOk result (λ seats. seats.items ≡ map (new_seat (map (λ b. shown b) plants.now)) (map (λ n. n.number) names.now)) }
{
    let mut seats = Vec::new(alloc);
    for k in 0..names.len() {
        let seat = seat_for(alloc, plants, names[k])?;
        let Ok(()) = seats.push(seat) else {
            return Err(NoMemory);
        };
    }
    Ok(seats)
}

fn seat_for(alloc: Global, plants: &[Box<dyn Plant>], name: PlantName) -> Result<Seat, NoMemory>
    ensures { IfOk result (λ seat. seat ≡ new_seat (map (λ b. shown b) plants.now) name.number) }
{
    Ok(Seat {
        name,
        columns: Row::new(alloc, width_named(plants, name))?,
        finished: false,
    })
}
