//! Of which counters an activity's rules ask what they held when the tick began.

ghost use Rattle.std.specs.Prelude.{◌≡◌, ℕ, suc, IfOk, OnOk, false, ◌||◌, map, nat_eq, slice_get, unwrap_or};
ghost use Rattle.bl_machine_transitions.specs.Told.{rule_in};
ghost use Rattle.bl_emit_tables.specs.Sizes.{grown};
ghost use Rattle.bl_emit_tables.specs.Told.{asks_counter, read_told};
ghost use Rattle.std.specs.List.{list_any};

use bl_machine::Slot;
use bl_machine_transitions::{Condition, Transition};
use bl_tree::{List, NoMemory};
use std::alloc::Global;

/// Makes the table so long that the position stands in it.
#[tactic(auto, using(crate::proofs::GrowLemmas::grown_more, crate::proofs::GrowLemmas::grown_enough))]
fn grow(tests: &mut List<bool>, at: usize) -> Result<(), NoMemory>
    ensures { OnOk result (tests.new ≡ grown false (suc at) tests.old) }
{
    while tests.len() <= at {
        tests.push(false)?;
    }
    Ok(())
}

/// Sets the test of a counter.

fn note(tests: &mut List<bool>, counter: u32) -> Result<(), NoMemory>
    ensures { OnOk result ((k : ℕ) → unwrap_or (slice_get tests.new k) false ≡ nat_eq k counter || unwrap_or (slice_get tests.old k) false) }
{
    let at = counter as usize;
    grow(tests, at)?;
    tests.set(at, true);
    Ok(())
}

/// Sets the tests of the counters of the numbers.
fn note_all(tests: &mut List<bool>, slots: &[Slot]) -> Result<(), NoMemory>
    ensures { OnOk result ((k : ℕ) → unwrap_or (slice_get tests.new k) false
        ≡ list_any (λ slot. nat_eq k slot.counter) slots.now || unwrap_or (slice_get tests.old k) false) }
{
    for slot in slots {
        note(tests, slot.counter)?;
    }
    Ok(())
}

/// Sets the tests of the counters for which the rule asks.
fn note_condition(tests: &mut List<bool>, condition: &Condition) -> Result<(), NoMemory>
    ensures { OnOk result ((k : ℕ) → unwrap_or (slice_get tests.new k) false
        ≡ asks_counter k condition.now || unwrap_or (slice_get tests.old k) false) }
{
    match condition {
        Condition::Flagged | Condition::Ended(_, _) => Ok(()),
        Condition::Rested(slot) => note(tests, slot.counter),
        Condition::RestedIn(slots) => note_all(tests, slots),
    }
}

/// For each counter whether some rule asks what it held when the tick began; those for which none does may be left out at the end. Fails
/// only if memory runs out.
pub fn read_by(alloc: Global, rules: &[Transition]) -> Result<List<bool>, NoMemory>
    ensures { IfOk result (λ tests. (k : ℕ) → unwrap_or (slice_get tests k) false ≡ read_told (map rule_in rules.now) k) }
{
    let mut tests = List::new(alloc);
    for rule in rules {
        note_condition(&mut tests, &rule.condition)?;
    }
    Ok(tests)
}
