//! How many values the counters of an activity have.

ghost use Rattle.std.specs.Prelude.{◌≡◌, [], suc, IfOk, OnOk};
ghost use Rattle.bl_machine_pass.specs.Numbered as numbered;
ghost use Rattle.bl_machine.specs.Slots.{counters_at};
ghost use Rattle.bl_emit_tables.specs.Sizes.{all_counted, grown, one_more_at};

use bl_machine::Slot;
use bl_tree::{List, NoMemory};
use std::alloc::Global;

/// Makes the table so long that the position stands in it.
#[tactic(auto, using(crate::proofs::GrowLemmas::grown_more, crate::proofs::GrowLemmas::grown_enough))]
fn grow(counts: &mut List<u32>, at: usize) -> Result<(), NoMemory>
    ensures { OnOk result (counts.new ≡ grown 0 (suc at) counts.old) }
{
    while counts.len() <= at {
        counts.push(0)?;
    }
    Ok(())
}

/// Counts one more at the position.
#[tactic(auto, using(crate::proofs::GrowLemmas::count_made, crate::proofs::GrowLemmas::room))]
fn count(counts: &mut List<u32>, at: usize) -> Result<(), NoMemory>
    ensures { OnOk result (counts.new ≡ one_more_at at counts.old) }
{
    grow(counts, at)?;
    match counts[at].checked_add(1) {
        Some(n) => {
            counts.set(at, n);
            Ok(())
        }
        None => Err(NoMemory),
    }
}

/// How many of the numbers have each counter, up to the greatest counter.
fn counts_of(alloc: Global, slots: &[Slot]) -> Result<List<u32>, NoMemory>
    ensures { IfOk result (λ counts. counts ≡ all_counted (counters_at slots.now) []) }
{
    let mut counts = List::new(alloc);
    for slot in slots {
        count(&mut counts, slot.counter as usize)?;
    }
    Ok(counts)
}

/// How many values each counter has, up to the greatest counter. Fails only if memory runs out.
pub fn sizes_of(alloc: Global, slots: &[Slot]) -> Result<List<u32>, NoMemory>
    ensures { IfOk result (λ sizes. sizes ≡ numbered.sizes_of slots.now) }
{
    counts_of(alloc, slots)
}
