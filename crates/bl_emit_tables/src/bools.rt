//! Tables of tests.

ghost use Rattle.std.specs.Prelude.{◌≡◌, ◌∷◌, [], IfOk, false, map};
ghost use Rattle.bl_machine.specs.Blocks.{up_to};
ghost use Rattle.bl_emit_spec.specs.Programs.{set_from};

use bl_tree::{List, NoMemory};
use std::alloc::Global;

/// So many tests, none of which is set.
pub fn unset(alloc: Global, count: usize) -> Result<List<bool>, NoMemory>
    ensures { IfOk result (λ tests. tests ≡ map (λ k. false) (up_to count)) }
{
    let mut tests = List::new(alloc);
    for turn in 0..count {
        tests.push(false)?;
    }
    Ok(tests)
}

/// Sets the test at the position, where there is one.
#[tactic(auto, using(crate::proofs::SetLemmas::set_hit, crate::proofs::SetLemmas::set_missed))]
fn set_one(tests: &mut List<bool>, position: u32)
    ensures { tests.new ≡ set_from (position ∷ []) 0 tests.old }
{
    let at = position as usize;
    if at < tests.len() {
        tests.set(at, true);
    }
}

/// Sets the tests at the positions, as far as there are tests.
pub fn set_all(tests: &mut List<bool>, positions: &[u32])
    ensures { tests.new ≡ set_from positions.now 0 tests.old }
{
    for position in positions {
        set_one(tests, *position);
    }
}
