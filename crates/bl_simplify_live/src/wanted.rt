//! What is read where only assignments stay whose variables are read. No clause speaks of it: `has_all_read` looks at it.

use crate::reads::{Names, of_block, of_stmt};
use crate::unread::is_dead;
use bl_ctext_places::in_expr;
use bl_ctext_semantics::maps::add;
use bl_simplify_facts::told::is_total;
use bl_simplify_walk::parts::{Branches, Turns, branch_of, branches_of, turns_of};
use bl_tree::NoMemory;
use bl_tree::c::{CPlace, CStmt};
use std::alloc::Global;
use std::collections::HashMap;

/// How deep statements may be nested for what is dead in them to be dropped.
pub const DEEPEST: usize = 1_000;

/// How often a body is gone over. Each time begins with the names that were found before.
const ROUNDS: usize = 100;

/// Adds the names of places from an index on.
fn add_names<'a>(
    names: &mut Names<'a>,
    places: &[&'a CPlace],
    from: usize,
) -> Result<(), NoMemory> {
    for k in from..places.len() {
        add(names, places[k].name.as_str(), ())?;
    }
    Ok(())
}

/// Adds what an `if` reads that stays. Whether it stays itself.
#[cycle(wanting)]
fn of_if<'a>(
    fuel: usize,
    names: &mut Names<'a>,
    places: &mut Vec<&'a CPlace>,
    it: &Branches<'a>,
) -> Result<bool, NoMemory> {
    let other = of_last(fuel, names, places, branch_of(it.other))?;
    let block = of_last(fuel, names, places, it.block)?;
    let stays = block || other || !is_total(it.condition);
    if stays {
        let from = places.len();
        in_expr(places, it.condition)?;
        add_names(names, places, from)?;
    }
    Ok(stays)
}

/// Adds what a loop reads that stays.
#[cycle(wanting)]
fn of_loop<'a>(
    fuel: usize,
    names: &mut Names<'a>,
    places: &mut Vec<&'a CPlace>,
    it: &Turns<'a>,
) -> Result<(), NoMemory> {
    let from = places.len();
    in_expr(places, it.condition)?;
    add_names(names, places, from)?;
    of_last(fuel, names, places, it.body)?;
    Ok(())
}

/// Adds what a statement reads if it stays. Whether it stays.
#[cycle(wanting)]
fn of_one<'a>(
    fuel: usize,
    names: &mut Names<'a>,
    places: &mut Vec<&'a CPlace>,
    stmt: &'a CStmt,
) -> Result<bool, NoMemory> {
    if let Some(it) = branches_of(stmt) {
        return of_if(fuel, names, places, &it);
    }
    if let Some(it) = turns_of(stmt) {
        of_loop(fuel, names, places, &it)?;
        return Ok(true);
    }
    if is_dead(names, stmt) {
        return Ok(false);
    }
    let from = places.len();
    of_stmt(places, stmt)?;
    add_names(names, places, from)?;
    Ok(true)
}

/// Adds what a block reads that stays, the last statement first. Whether any of it stays.
#[cycle(wanting)]
fn of_last<'a>(
    fuel: usize,
    names: &mut Names<'a>,
    places: &mut Vec<&'a CPlace>,
    block: &'a [CStmt],
) -> Result<bool, NoMemory> {
    if fuel == 0 {
        let from = places.len();
        of_block(places, block)?;
        add_names(names, places, from)?;
        return Ok(!block.is_empty());
    }
    let mut stays = false;
    for k in (0..block.len()).rev() {
        stays |= of_one(fuel - 1, names, places, &block[k])?;
    }
    Ok(stays)
}

/// The places that a body reads where no assignment stays to a variable that isn't read.
pub fn wanted<'a>(alloc: Global, body: &'a [CStmt]) -> Result<Vec<&'a CPlace>, NoMemory> {
    let mut names = HashMap::new(alloc);
    for _ in 0..ROUNDS {
        let before = names.len();
        let mut places = Vec::new(alloc);
        of_last(DEEPEST, &mut names, &mut places, body)?;
        if names.len() == before {
            return Ok(places);
        }
    }
    let mut places = Vec::new(alloc);
    of_block(&mut places, body)?;
    Ok(places)
}
