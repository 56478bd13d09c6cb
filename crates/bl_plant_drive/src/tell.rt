//! Telling the plants that are named, behind a tick.

ghost use Rattle.std.specs.Prelude.{◌≡◌, ◌<◌, [], ◌∷◌, ◌++◌, List as Elements, length, map};
ghost use Rattle.bl_plant.specs.Plants.{IsTold, PlantView};
ghost use Rattle.bl_plant_drive.specs.inner.Stands.{IsAround, IsThere};
ghost use Rattle.bl_plant_drive.specs.inner.Ticks.{AreTold, Hearing, IsToldNext, ToldSoFar};

use crate::listed::{place_of, tell_at};
use crate::seat::Seat;
use bl_plant::{Plant, PlantName};
use bl_tree::{NoMemory, Row};

/// Tells the plants that haven't finished a row of outputs, in the order of their seats.
pub fn tell_all(
    plants: &mut Vec<Box<dyn Plant>>,
    seats: &[Seat],
    outs: &Row,
) -> Result<(), NoMemory>
    requires { (h : Hearing) × (h.row ≡ outs.now) × ToldSoFar h 0 (map (λ b. shown b) plants.old.items) seats.now }
    ensures { (h : Hearing) → h.row ≡ outs.now → ToldSoFar h 0 (map (λ b. shown b) plants.old.items) seats.now →
        AreTold h (map (λ b. shown b) plants.new.items) seats.now result }
{
    for k in 0..seats.len() {
        tell_next(plants, seats, k, outs)?;
    }
    Ok(())
}

/// Tells the plant of a seat, unless it has finished.
fn tell_next(
    plants: &mut Vec<Box<dyn Plant>>,
    seats: &[Seat],
    k: usize,
    outs: &Row,
) -> Result<(), NoMemory>
    requires within { k < length seats.now }
    requires stands { (h : Hearing) × (h.row ≡ outs.now) × ToldSoFar h k (map (λ b. shown b) plants.old.items) seats.now }
    ensures { (h : Hearing) → h.row ≡ outs.now → ToldSoFar h k (map (λ b. shown b) plants.old.items) seats.now →
        IsToldNext h k (map (λ b. shown b) plants.new.items) seats.now result }
{
    if seats[k].finished {
        return Ok(());
    }
    tell_named(plants, seats[k].name, outs)
}

fn tell_named(plants: &mut Vec<Box<dyn Plant>>, name: PlantName, outs: &Row) -> Result<(), NoMemory>
    requires { IsThere (map (λ b. shown b) plants.old.items) name.number }
    ensures { (before : Elements PlantView) (p : PlantView) (after : Elements PlantView) →
        IsAround (map (λ b. shown b) plants.old.items) name.number before p after →
        (q : PlantView) × IsTold p outs.now result q × (map (λ b. shown b) plants.new.items ≡ before ++ q ∷ after) }
{
    let Some(at) = place_of(plants, name) else {
        unreachable!()
    };
    tell_at(plants, at, outs)
}
