//! The row of inputs of a tick.

ghost use Rattle.std.specs.Prelude.{◌≡◌, ◌+◌, ◌<◌, ◌≤◌, ◌^◌, ◌++◌, drop, length, take, IfOk};
ghost use Rattle.bl_plant_drive.specs.inner.Round.{seat_numbers};

use crate::seat::Seat;
use bl_tree::{NoMemory, Row};
use std::alloc::Global;

/// The numbers of all seats as one row, of which it is known how many they are.
pub fn row_of(alloc: Global, seats: &[Seat], wide: u32) -> Result<Row, NoMemory>
    requires { length (seat_numbers seats.now) ≡ wide }
    ensures { IfOk result (λ row. row ≡ seat_numbers seats.now) }
{
    let mut row = Row::new(alloc, wide)?;
    write_seats(seats, &mut row);
    Ok(row)
}

fn write_seats(seats: &[Seat], into: &mut Row)
    requires wide { length (seat_numbers seats.now) ≡ length into.old }
    requires few { length into.old < 2 ^ 32 }
    ensures { into.new ≡ seat_numbers seats.now }
{
    let mut first = 0;
    for k in 0..seats.len() {
        write_at(&seats[k].columns, first, into);
        first += seats[k].columns.len();
    }
}

/// Writes numbers into a row from a place on.
fn write_at(numbers: &Row, first: u32, into: &mut Row)
    requires wide { first + length numbers.now ≤ length into.old }
    requires few { length into.old < 2 ^ 32 }
    ensures { into.new ≡ take first into.old ++ (numbers.now ++ drop (first + length numbers.now) into.old) }
{
    for k in 0..numbers.len() {
        into.set(first + k, numbers.at(k));
    }
}
