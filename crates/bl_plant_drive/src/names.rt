//! Tests of the names and of the widths that they come to.

ghost use Rattle.std.specs.Prelude.{◌≡◌, map, nat_eq};
ghost use Rattle.std.specs.List.{list_any};
ghost use Rattle.bl_ctext_semantics.specs.Saturated.{saturated};
ghost use Rattle.bl_plant_drive.specs.Drives.{widths_of, plant_width};
ghost use Rattle.bl_plant_drive.specs.Roles.{first_named};
ghost use Rattle.bl_plant_drive.specs.inner.Names.{AreDistinct, AreMeant, AreNamed, IsWide};

use crate::fault::DriveFault;
use crate::listed::{place_of, width_at};
use bl_plant::{Plant, PlantName};

/// Tests that each name means a plant, and then that none is named twice.
pub fn test_names(plants: &[Box<dyn Plant>], names: &[PlantName]) -> Result<(), DriveFault>
    ensures { AreNamed (map (λ b. shown b) plants.now) (map (λ n. n.number) names.now) result }
{
    test_meant(plants, names)?;
    test_distinct(names)
}

fn test_meant(plants: &[Box<dyn Plant>], names: &[PlantName]) -> Result<(), DriveFault>
    ensures { AreMeant (map (λ b. shown b) plants.now) (map (λ n. n.number) names.now) result }
{
    for k in 0..names.len() {
        let name = names[k];
        let Some(_at) = place_of(plants, name) else {
            return Err(DriveFault::Absent { name });
        };
    }
    Ok(())
}

fn test_distinct(names: &[PlantName]) -> Result<(), DriveFault>
    ensures { AreDistinct (map (λ n. n.number) names.now) result }
{
    for k in 0..names.len() {
        let name = names[k];
        if is_among(&names[..k], name) {
            return Err(DriveFault::Twice { name });
        }
    }
    Ok(())
}

fn is_among(names: &[PlantName], name: PlantName) -> bool
    ensures { result ≡ list_any (λ n. nat_eq name.number n.number) names.now }
{
    names.iter().any(|other| name.number == other.number)
}

/// The width of the plant that a name means; 0 where it means none.
pub fn width_named(plants: &[Box<dyn Plant>], name: PlantName) -> u32
    ensures { result ≡ plant_width (first_named name.number (map (λ b. shown b) plants.now)) }
{
    match place_of(plants, name) {
        Some(at) => width_at(plants, at),
        None => 0,
    }
}

fn widths(plants: &[Box<dyn Plant>], names: &[PlantName]) -> u64
    ensures { result ≡ saturated (widths_of (map (λ b. shown b) plants.now) (map (λ n. n.number) names.now)) }
{
    let mut sum: u64 = 0;
    for k in 0..names.len() {
        sum = sum.saturating_add(u64::from(width_named(plants, names[k])));
    }
    sum
}

/// Tests that the plants that are named have as many columns as there are inputs.
pub fn test_width(
    plants: &[Box<dyn Plant>],
    names: &[PlantName],
    wanted: u32,
) -> Result<(), DriveFault>
    ensures { IsWide (map (λ b. shown b) plants.now) (map (λ n. n.number) names.now) wanted result }
{
    let given = widths(plants, names);
    if given == u64::from(wanted) {
        return Ok(());
    }
    Err(DriveFault::Width { given, wanted })
}
