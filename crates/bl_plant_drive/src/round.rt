//! The plants that are named, asked one after the other.

ghost use Rattle.std.specs.Prelude.{◌≡◌, ◌+◌, ◌<◌, ◌≤◌, ◌^◌, map, length, take, drop};
ghost use Rattle.bl_tree.specs.Scalar.{in_range};
ghost use Rattle.bl_plant_drive.specs.inner.Round.{IsAsked, IsTested, RoundEnds, seat_numbers};
ghost use Rattle.bl_plant_drive.specs.inner.Stands.{AskedSoFar, Scene};

use crate::ask::ask;
use crate::driven::Gone;
use crate::fault::DriveFault;
use crate::seat::Seat;
use bl_plant::Plant;
use bl_tree::{Column, List, Row, Scalar};
use std::alloc::Global;

/// Asks the plant of a seat for its numbers, unless it has finished.
fn ask_next(
    alloc: Global,
    plants: &mut Vec<Box<dyn Plant>>,
    seats: &mut Vec<Seat>,
    k: usize,
    ticks: u32,
    gone: &mut List<Gone>,
) -> Result<(), DriveFault>
    requires within { k < length seats.old.items }
    requires stands { (s : Scene) × (length s.ins ≡ ticks) × AskedSoFar s k (map (λ b. shown b) plants.old.items) seats.old.items gone.old }
    ensures asked { (s : Scene) → length s.ins ≡ ticks → AskedSoFar s k (map (λ b. shown b) plants.old.items) seats.old.items gone.old →
        IsAsked s k (map (λ b. shown b) plants.new.items) seats.new.items gone.new result }
    ensures front { take k seats.new.items ≡ take k seats.old.items }
    ensures long { length seats.new.items ≡ length seats.old.items }
{
    if seats[k].finished {
        return Ok(());
    }
    ask(alloc, plants, &mut seats[k], ticks, gone)
}

fn fits(kind: Scalar, number: i128) -> bool
    ensures { result ≡ in_range kind number }
{
    let range = kind.range();
    range.low <= number && number <= range.high
}

/// Tests that numbers are in the ranges of the inputs from one on.
fn test_ranges(inputs: &[Column], first: u32, numbers: &Row) -> Result<(), DriveFault>
    requires wide { first + length numbers.now ≤ length inputs.now }
    requires few { length inputs.now < 2 ^ 32 }
    ensures { IsTested inputs.now first numbers.now result }
{
    for k in 0..numbers.len() {
        let number = numbers.at(k);
        if !fits(inputs[(first + k) as usize].ty, number) {
            return Err(DriveFault::Range {
                column: first + k + 1,
                number,
            });
        }
    }
    Ok(())
}

/// Asks the plants that haven't finished, in the order of their seats. The numbers of each are tested before the next one is asked.
pub fn ask_all(
    alloc: Global,
    inputs: &[Column],
    plants: &mut Vec<Box<dyn Plant>>,
    seats: &mut Vec<Seat>,
    ticks: u32,
    gone: &mut List<Gone>,
) -> Result<(), DriveFault>
    requires stands { (s : Scene) × (length s.ins ≡ ticks) × AskedSoFar s 0 (map (λ b. shown b) plants.old.items) seats.old.items gone.old }
    requires wide { length (seat_numbers seats.old.items) ≡ length inputs.now }
    requires few { length inputs.now < 2 ^ 32 }
    ensures { (s : Scene) → length s.ins ≡ ticks → AskedSoFar s 0 (map (λ b. shown b) plants.old.items) seats.old.items gone.old →
        RoundEnds s inputs.now (map (λ b. shown b) plants.new.items) seats.new.items gone.new result }
{
    let mut first = 0;
    for k in 0..seats.len() {
        ask_next(alloc, plants, seats, k, ticks, gone)?;
        test_ranges(inputs, first, &seats[k].columns)?;
        first += seats[k].columns.len();
    }
    Ok(())
}
