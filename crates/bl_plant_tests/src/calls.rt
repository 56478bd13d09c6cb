//! Each kind of plant, asked and told a few times.

ghost use Rattle.std.specs.Prelude.{◌≡◌, length, IfOk};
ghost use Rattle.bl_plant.specs.Kinds.{AreWide};

use bl_plant::{Give, Plant, PlantName, Ramp, Script, Tank, Turn};
use bl_tree::{List, NoMemory, Row};
use std::alloc::Global;
use std::test::Fail;

/// A row of one number.
fn one(alloc: Global, number: i128) -> Result<Row, NoMemory>
    ensures { IfOk result (λ row. length row ≡ 1) }
{
    let mut row = Row::new(alloc, 1)?;
    if row.len() == 1 {
        row.set(0, number);
    }
    Ok(row)
}

/// What a plant of one column gives, if it gives anything.
fn asked<P: Plant>(alloc: Global, plant: &mut P) -> Result<Option<i128>, NoMemory> {
    let mut row = Row::new(alloc, plant.width())?;
    match plant.give(&mut row) {
        Give::Gave if row.len() == 1 => Ok(Some(row.at(0))),
        _ => Ok(None),
    }
}

#[test]
fn a_tank_gives_its_level(rt: HostRuntime) -> Result<(), Fail> {
    let mut tank = Tank::new(rt.alloc(), 500, 7, 2);
    assert_eq!(rt; tank.name(), PlantName { number: 1 });
    assert_eq!(rt; tank.width(), 1);
    assert_eq!(rt; asked(rt.alloc(), &mut tank).ok().flatten(), Some(500));
    let outs = one(rt.alloc(), 10).ok().ok_or("no memory")?;
    assert!(rt; tank.told(&outs).is_ok());
    assert_eq!(rt; asked(rt.alloc(), &mut tank).ok().flatten(), Some(503));
    assert_eq!(rt;
        asked(rt.alloc(), &mut tank).ok().flatten(),
        None,
        "two rows were given"
    );
    assert_eq!(rt; tank.log().given.len(), 2);
    assert_eq!(rt; tank.log().told.len(), 1);
    Ok(())
}

#[test]
fn a_level_stays_within_its_tank(rt: HostRuntime) -> Result<(), Fail> {
    let mut tank = Tank::new(rt.alloc(), 3, 7, 9);
    let none = Row::new(rt.alloc(), 0).ok().ok_or("no memory")?;
    assert!(rt; tank.told(&none).is_ok());
    assert_eq!(rt;
        asked(rt.alloc(), &mut tank).ok().flatten(),
        Some(0),
        "there is no output"
    );
    let most = one(rt.alloc(), i128::MAX).ok().ok_or("no memory")?;
    assert!(rt; tank.told(&most).is_ok());
    assert_eq!(rt; asked(rt.alloc(), &mut tank).ok().flatten(), Some(1000));
    let least = one(rt.alloc(), i128::MIN).ok().ok_or("no memory")?;
    assert!(rt; tank.told(&least).is_ok());
    assert_eq!(rt; asked(rt.alloc(), &mut tank).ok().flatten(), Some(0));
    Ok(())
}

#[test]
fn a_ramp_grows(rt: HostRuntime) -> Result<(), Fail> {
    let mut ramp = Ramp::new(rt.alloc(), 0, 1);
    assert_eq!(rt; ramp.name(), PlantName { number: 2 });
    assert_eq!(rt; asked(rt.alloc(), &mut ramp).ok().flatten(), Some(0));
    assert_eq!(rt; asked(rt.alloc(), &mut ramp).ok().flatten(), Some(1));
    let mut last = Ramp::new(rt.alloc(), i64::MAX, 5);
    assert_eq!(rt;
        asked(rt.alloc(), &mut last).ok().flatten(),
        Some(i128::from(i64::MAX))
    );
    assert_eq!(rt;
        asked(rt.alloc(), &mut last).ok().flatten(),
        Some(i128::from(i64::MAX))
    );
    Ok(())
}

/// Turns that give a row, fail, and give another row.
fn turns_around_a_failure(alloc: Global, first: Row, last: Row) -> Result<List<Turn>, NoMemory>
    requires first { length first ≡ 1 }
    requires last { length last ≡ 1 }
    ensures { IfOk result (λ turns. AreWide 1 turns) }
{
    let mut turns = List::new(alloc);
    turns.push(Turn::Give(first))?;
    turns.push(Turn::Fail)?;
    turns.push(Turn::Give(last))?;
    Ok(turns)
}

/// A script of name 5 that gives a number, fails, and gives another number.
fn script_around_a_failure(alloc: Global, first: i128, last: i128) -> Result<Script, NoMemory> {
    let first = one(alloc, first)?;
    let last = one(alloc, last)?;
    let turns = turns_around_a_failure(alloc, first, last)?;
    Ok(Script::new(alloc, PlantName { number: 5 }, 1, turns))
}

/// How a plant answers, and what then is in the row of one column.
fn answered<P: Plant>(alloc: Global, plant: &mut P) -> Result<(Give, i128), NoMemory> {
    let mut row = Row::new(alloc, plant.width())?;
    let answer = plant.give(&mut row);
    Ok((answer, if row.len() == 1 { row.at(0) } else { 0 }))
}

#[test]
fn a_script_takes_each_turn_once(rt: HostRuntime) -> Result<(), Fail> {
    let made = script_around_a_failure(rt.alloc(), 4, 7);
    let mut script = made.ok().ok_or("no memory")?;
    for answer in [
        (Give::Gave, 4),
        (Give::Failed, 0),
        (Give::Gave, 7),
        (Give::Finished, 0),
        (Give::Finished, 0),
    ] {
        assert_eq!(rt; answered(rt.alloc(), &mut script).ok(), Some(answer));
    }
    assert_eq!(rt; script.log().given.len(), 2);
    Ok(())
}
