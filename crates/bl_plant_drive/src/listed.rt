//! The plants of a list, one at a time.

ghost use Rattle.std.specs.Prelude.{◌≡◌, ◌<◌, map, length, nat_eq, slice_get, slice_set, Some};
ghost use Rattle.std.specs.List.{position_from, remove};
ghost use Rattle.bl_plant.specs.Plants.{PlantView, Gives, IsTold};

use bl_plant::{Give, Plant, PlantName};
use bl_tree::{NoMemory, Row};

/// The place of the first plant that has a name.
pub fn place_of(plants: &[Box<dyn Plant>], name: PlantName) -> Option<usize>
    ensures { result ≡ position_from (λ p. nat_eq p.name name.number) 0 (map (λ b. shown b) plants.now) }
{
    for k in 0..plants.len() {
        if has_name(&plants[k], name) {
            return Some(k);
        }
    }
    None
}

fn has_name(plant: &Box<dyn Plant>, name: PlantName) -> bool
    ensures { result ≡ nat_eq (shown plant.now).name name.number }
{
    plant.name().number == name.number
}

fn width_of(plant: &Box<dyn Plant>) -> u32
    ensures { result ≡ (shown plant.now).width }
{
    plant.width()
}

/// The width of the plant at a place.
pub fn width_at(plants: &[Box<dyn Plant>], at: usize) -> u32
    requires { at < length plants.now }
    ensures { (p : PlantView) → slice_get (map (λ b. shown b) plants.now) at ≡ Some p → result ≡ p.width }
{
    width_of(&plants[at])
}

fn give_from(plant: &mut Box<dyn Plant>, into: &mut Row) -> Give
    requires { length into.old ≡ (shown plant.old).width }
    ensures length { length into.new ≡ length into.old }
    ensures gives { Gives (shown plant.old) result into.new (shown plant.new) }
{
    plant.give(into)
}

/// Asks the plant at a place for a row.
pub fn give_at(plants: &mut Vec<Box<dyn Plant>>, at: usize, into: &mut Row) -> Give
    requires within { at < length plants.old.items }
    requires width { (p : PlantView) → slice_get (map (λ b. shown b) plants.old.items) at ≡ Some p → length into.old ≡ p.width }
    ensures length { length into.new ≡ length into.old }
    ensures gives { (p : PlantView) → slice_get (map (λ b. shown b) plants.old.items) at ≡ Some p →
        (q : PlantView) × Gives p result into.new q × (map (λ b. shown b) plants.new.items ≡ slice_set (map (λ b. shown b) plants.old.items) at q) }
{
    give_from(&mut plants[at], into)
}

fn tell(plant: &mut Box<dyn Plant>, outs: &Row) -> Result<(), NoMemory>
    ensures { IsTold (shown plant.old) outs.now result (shown plant.new) }
{
    plant.told(outs)
}

/// Tells the plant at a place a row of outputs.
pub fn tell_at(plants: &mut Vec<Box<dyn Plant>>, at: usize, outs: &Row) -> Result<(), NoMemory>
    requires { at < length plants.old.items }
    ensures { (p : PlantView) → slice_get (map (λ b. shown b) plants.old.items) at ≡ Some p →
        (q : PlantView) × IsTold p outs.now result q × (map (λ b. shown b) plants.new.items ≡ slice_set (map (λ b. shown b) plants.old.items) at q) }
{
    tell(&mut plants[at], outs)
}

/// Takes the plant at a place out of the list, and drops it.
pub fn drop_at(plants: &mut Vec<Box<dyn Plant>>, at: usize)
    requires { at < length plants.old.items }
    ensures { map (λ b. shown b) plants.new.items ≡ remove (map (λ b. shown b) plants.old.items) at }
{
    let _plant = plants.remove(at);
}
