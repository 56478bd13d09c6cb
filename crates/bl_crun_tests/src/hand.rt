//! A state that is divided by each input: the number 5, and a run that ends at 0.

use crate::cells::{Left, hold, leaves};
use crate::drive::{Driven, Seen, ended, gives, loaded, next, row, row_of, trap};
use bl_crun::{Runner, TickAnswer};
use bl_tree::{Row, Scalar, Width};
use std::alloc::{AllocError, Global};
use std::test::Fail;

const STRUCTS: &str = "struct bl_state { int32_t n; };
struct bl_in { uint8_t pad; int32_t i_d; };
struct bl_out { uint8_t pad; int32_t o_n; };
";

const INIT: &str = "void bl_init(struct bl_state *s) { (*s).n = INT32_C(5); }
";

const TICK: &str = "uint32_t bl_tick(struct bl_state *s, struct bl_in *i, struct bl_out *o) {
(*s).n = bl_div_i32((*s).n, (*i).i_d); (*o).o_n = (*s).n;
if (((*s).n == INT32_C(0))) { return UINT32_C(1); } return UINT32_C(0); }
";

#[test]
fn the_run_ends_at_zero(rt: HostRuntime) -> Result<(), Fail> {
    gives(
        &rt,
        rt.alloc(),
        &[STRUCTS, INIT, TICK],
        &[&[2], &[1], &[-3]],
        &[row(2, 4), row(2, 4), ended(0, 4)],
    )
}

#[test]
fn a_division_by_zero_traps_and_leaves_the_outputs(rt: HostRuntime) -> Result<(), Fail> {
    gives(
        &rt,
        rt.alloc(),
        &[STRUCTS, INIT, TICK],
        &[&[2], &[0]],
        &[row(2, 4), trap(2, 1)],
    )
}

/// A start that divides by zero.
const TRAPPING: &str =
    "void bl_init(struct bl_state *s) { (*s).n = bl_div_i32(INT32_C(5), (*s).n); } ";

#[test]
fn a_start_that_traps_shows_at_the_first_tick(rt: HostRuntime) -> Result<(), Fail> {
    let mut driven = loaded(rt.alloc(), &[STRUCTS, TRAPPING, TICK])?;
    assert!(rt; !driven.runner.ready());
    assert!(rt; driven.runner.live());
    let seen = next(rt.alloc(), &mut driven, &[2])?;
    assert_eq!(rt; seen, trap(0, 0));
    Ok(())
}

/// The text before its first tick.
fn hand(alloc: Global) -> Result<Driven, Fail> {
    loaded(alloc, &[STRUCTS, INIT, TICK])
}

/// The tick over 2.
const HALVED: Left<'static> = Left {
    ins: 2,
    seen: Seen {
        answer: TickAnswer::Row,
        out: 2,
        count: 4,
        live: true,
    },
    cells: &[2, 0, 2, 0, 2],
};

#[test]
fn cells_stand_in_order(rt: HostRuntime) -> Result<(), Fail> {
    let mut driven = hand(rt.alloc())?;
    assert!(rt; driven.runner.ready());
    hold(&rt, rt.alloc(), &driven, &[5, 0, 0, 0, 0])?;
    leaves(&rt, rt.alloc(), &mut driven, &HALVED)
}

const INT: Scalar = Scalar::Int(Width::W32);

const BYTE: Scalar = Scalar::Nat(Width::W8);

/// The types of all cells.
fn kinds(alloc: Global, runner: &Runner) -> Result<Vec<Scalar>, AllocError> {
    let mut kinds = Vec::new(alloc);
    for k in 0..runner.cells() {
        kinds.push(runner.kind(k))?;
    }
    Ok(kinds)
}

#[test]
fn cells_have_their_types(rt: HostRuntime) -> Result<(), Fail> {
    let driven = hand(rt.alloc())?;
    let kinds = kinds(rt.alloc(), &driven.runner)?;
    assert_eq!(rt; kinds.as_slice(), [INT, BYTE, INT, BYTE, INT].as_slice());
    Ok(())
}

/// Sets a cell, if there is such a cell and the number is of its type.
fn put(runner: &mut Runner, k: u32, n: i128) -> Result<(), Fail> {
    if k >= runner.cells() {
        return Err(Fail::new("no cell"));
    }
    let range = runner.kind(k).range();
    if n < range.low || range.high < n {
        return Err(Fail::new("out of range"));
    }
    runner.put(k, n);
    Ok(())
}

/// The tick over 3 where the state is 9.
const DIVIDED: Left<'static> = Left {
    ins: 3,
    seen: Seen {
        answer: TickAnswer::Row,
        out: 3,
        count: 4,
        live: true,
    },
    cells: &[3, 0, 3, 0, 3],
};

#[test]
fn a_tick_goes_on_from_what_was_put(rt: HostRuntime) -> Result<(), Fail> {
    let mut driven = hand(rt.alloc())?;
    leaves(&rt, rt.alloc(), &mut driven, &HALVED)?;
    put(&mut driven.runner, 0, 9)?;
    hold(&rt, rt.alloc(), &driven, &[9, 0, 2, 0, 2])?;
    leaves(&rt, rt.alloc(), &mut driven, &DIVIDED)
}

/// Does a tick that isn't counted.
fn plain_tick(runner: &mut Runner, ins: &Row, outs: &mut Row) -> Result<TickAnswer, Fail> {
    if !runner.live() || !runner.fits(ins) || outs.len() as usize != runner.outputs().len() {
        return Err(Fail::new("no tick can be done"));
    }
    Ok(runner.tick(ins, outs))
}

/// The same over this number.
fn plain_next(alloc: Global, driven: &mut Driven, n: i128) -> Result<TickAnswer, Fail> {
    let ins = row_of(alloc, &[n])?;
    plain_tick(&mut driven.runner, &ins, &mut driven.outs)
}

#[test]
fn a_tick_may_go_uncounted(rt: HostRuntime) -> Result<(), Fail> {
    let mut driven = hand(rt.alloc())?;
    assert_eq!(rt; plain_next(rt.alloc(), &mut driven, -2)?, TickAnswer::Row);
    assert_eq!(rt; plain_next(rt.alloc(), &mut driven, 7)?, TickAnswer::Ended);
    assert!(rt; !driven.runner.live());
    hold(&rt, rt.alloc(), &driven, &[0, 0, 7, 0, 0])
}
