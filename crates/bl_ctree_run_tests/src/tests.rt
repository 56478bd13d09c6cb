//! What the programs of texts do in each order, which actions are taken, and what is told of a statement.

use crate::drive::{ORDERS, Order, Seen, Stand, run};
use crate::effects::{Told, is_told};
use bl_rules::accept;
use bl_rules::laws::programs_of_texts_are_of_trees;
use bl_rules_laws::traces::accepted_trees_have_few_instances;
use bl_tree::NoMemory;
use std::alloc::Global;

const TO_AND_FRO: &str = "@[EntryPoint] activity M (i: int32)(o: int32) var x: int32 var y: int32
cobegin repeat x = i + 1 o = y await true end with repeat y = x * 2 await true end end end";

const CALLED: &str = "activity A (i: int32)(x: int32) x = i await true x = x + 10 end
activity B (x: int32)(o: int32) o = o + x await true o = o + 100 end
@[EntryPoint] activity M (i: int32)(o: int32) var x: int32 repeat cobegin run A(i)(x) with run B(x)(o) end end end";

const NESTED: &str =
    "@[EntryPoint] activity M (a: bool, b: bool)(c: int32) when a abort when b reset c = c + 1 await false end end c = 100 await false end";

const TRAPS: &str =
    "@[EntryPoint] activity M (i: int32)(a: int32, b: int32) cobegin a = 1 / (i - 2) with b = 1 / (i - 3) end await true end";

const ENDING: &str = "@[EntryPoint] activity M ()(o: int32) o = 1 await true o = 2 end";

/// A text, its rows of inputs, the outputs of its ticks one row after another, and how its run stands then.
struct Case {
    text: &'static str,
    rows: &'static [&'static [i128]],
    outs: &'static [i128],
    stand: Stand,
}

static CASES: [Case; 10] = [
    // branches that need each other within the tick
    Case {
        text: TO_AND_FRO,
        rows: &[&[3], &[-1]],
        outs: &[8, 0],
        stand: Stand::Open,
    },
    // activities that end and begin again in one tick
    Case {
        text: CALLED,
        rows: &[&[1], &[2], &[3]],
        outs: &[1, 103, 206],
        stand: Stand::Open,
    },
    // the result of a `run` goes to its receiver in the tick in which it ends
    Case {
        text: "activity D (a: int32)() returns int32 await true return a * 2 end @[EntryPoint] activity M (a: int32)(b: int32) repeat run b = D(a)() end end",
        rows: &[&[3], &[4], &[5]],
        outs: &[0, 8, 10],
        stand: Stand::Open,
    },
    // `prev` is the value at the end of the tick before
    Case {
        text: "@[EntryPoint] activity M ()(o: int32) var x: int32 = 5 repeat x = x + 1 o = prev x await true end end",
        rows: &[&[], &[], &[]],
        outs: &[5, 6, 7],
        stand: Stand::Open,
    },
    // an outer guard aborts before an inner one resets
    Case {
        text: NESTED,
        rows: &[&[0, 0], &[0, 1], &[1, 1]],
        outs: &[1, 2, 100],
        stand: Stand::Open,
    },
    // a weak branch completes its tick before it is dropped
    Case {
        text: "@[EntryPoint] activity M (c: bool)(a: int32, b: int32) cobegin weak repeat a = a + 1 await true end with await c end b = 1 await true end",
        rows: &[&[1], &[0], &[1]],
        outs: &[1, 0, 2, 0, 3, 1],
        stand: Stand::Open,
    },
    // a trap in either branch ends the run
    Case {
        text: TRAPS,
        rows: &[&[2], &[5]],
        outs: &[],
        stand: Stand::Trap,
    },
    Case {
        text: TRAPS,
        rows: &[&[3], &[5]],
        outs: &[],
        stand: Stand::Trap,
    },
    // branches share a struct by its fields
    Case {
        text: "struct S var a: int32 var b: int32 end
@[EntryPoint] activity M (i: int32)(o: int32) var s: S cobegin repeat s.a = i + 1 o = s.b await true end with repeat s.b = s.a * 2 await true end end end",
        rows: &[&[3], &[-1]],
        outs: &[8, 0],
        stand: Stand::Open,
    },
    // the tick in which the entry ends gives a row
    Case {
        text: ENDING,
        rows: &[&[], &[], &[]],
        outs: &[1, 2],
        stand: Stand::Ended,
    },
];

/// What is seen of a text's program; nothing where there is none.
fn seen_of(
    alloc: Global,
    text: &str,
    order: Order,
    rows: &[&[i128]],
) -> Result<Option<Seen>, NoMemory> {
    programs_of_texts_are_of_trees();
    accepted_trees_have_few_instances();
    let Ok(accepted) = accept(alloc, text.as_bytes()) else {
        return Ok(None);
    };
    Ok(Some(run(alloc, accepted.program(), order, rows)?))
}

/// Whether a run in this order comes to what the case says.
fn is_so(alloc: Global, case: &Case, order: Order) -> Result<bool, NoMemory> {
    match seen_of(alloc, case.text, order, case.rows)? {
        Some(seen) => Ok(seen.stand == case.stand && seen.outs.as_slice() == case.outs),
        None => Ok(false),
    }
}

#[test]
fn runs_come_to_the_same_in_each_order(rt: HostRuntime) -> Result<(), NoMemory> {
    for case in CASES.iter() {
        for order in ORDERS {
            assert!(rt; is_so(rt.alloc(), case, order)?, "{} {order:?}", case.text);
        }
    }
    Ok(())
}

/// A text, its rows, an order, and the places at which the statements of its actions begin.
struct Steps {
    text: &'static str,
    rows: &'static [&'static [i128]],
    order: Order,
    places: &'static [u32],
}

static STEPS: [Steps; 6] = [
    // reads come after the writes of other branches
    Steps {
        text: TO_AND_FRO,
        rows: &[&[3], &[-1]],
        order: Order::First,
        places: &[
            46, 59, 72, 80, 87, 123, 130, 97, 103, 140, 103, 80, 87, 140, 123, 130, 97, 103, 140,
        ],
    },
    Steps {
        text: TO_AND_FRO,
        rows: &[&[3], &[-1]],
        order: Order::Last,
        places: &[
            46, 59, 72, 123, 80, 87, 130, 140, 97, 103, 140, 123, 103, 80, 87, 130, 140, 97, 103,
        ],
    },
    Steps {
        text: TO_AND_FRO,
        rows: &[&[3], &[-1]],
        order: Order::Mixed,
        places: &[
            46, 59, 72, 123, 80, 87, 130, 140, 97, 103, 103, 140, 80, 123, 87, 130, 97, 140, 103,
        ],
    },
    // a `run` is done before its outputs are read
    Steps {
        text: CALLED,
        rows: &[&[1], &[2]],
        order: Order::Last,
        places: &[
            179, 192, 199, 207, 32, 38, 224, 96, 106, 207, 38, 49, 207, 224, 106, 117, 224, 199,
            192, 199, 207, 32, 38, 224, 96, 106,
        ],
    },
    // guards are tested from the outermost inwards
    Steps {
        text: NESTED,
        rows: &[&[0, 0], &[0, 1], &[1, 1]],
        order: Order::Last,
        places: &[54, 67, 80, 90, 54, 67, 80, 90, 54, 110, 118],
    },
    // an `await` acts in its tick and in the next
    Steps {
        text: ENDING,
        rows: &[&[], &[]],
        order: Order::Last,
        places: &[38, 44, 44, 55],
    },
];

/// Whether a run takes these actions.
fn takes(alloc: Global, steps: &Steps) -> Result<bool, NoMemory> {
    match seen_of(alloc, steps.text, steps.order, steps.rows)? {
        Some(seen) => Ok(seen.steps.as_slice() == steps.places),
        None => Ok(false),
    }
}

#[test]
fn actions_are_taken_in_their_order(rt: HostRuntime) -> Result<(), NoMemory> {
    for steps in STEPS.iter() {
        assert!(rt;
            takes(rt.alloc(), steps)?,
            "{} {:?}",
            steps.text,
            steps.order
        );
    }
    Ok(())
}

/// An activity whose first statement is an `if`, one arm of which may end at once.
const CHOOSING: &str = "struct S var a: int32 var b: int32 end
activity A (s: S, c: bool)(o: int32, p: int32) if c then o = s.b else p = o await c end await c end
@[EntryPoint] activity M ()(o: int32) await true end";

static CHOICE: Told = Told {
    reads: &[(0, &[1]), (1, &[]), (2, &[])],
    writes: &[(2, &[]), (3, &[])],
    instant: true,
};

#[test]
fn effects_are_told(rt: HostRuntime) -> Result<(), NoMemory> {
    let Ok(accepted) = accept(rt.alloc(), CHOOSING.as_bytes()) else {
        return Err(NoMemory);
    };
    assert!(rt; is_told(rt.alloc(), accepted.peeled(), &CHOICE)?);
    Ok(())
}
