//! The structs of an activity: where it rests, and what it remembers.

ghost use Rattle.std.specs.Prelude.{◌≡◌, ◌++◌, IfOk, OnOk, length, map, nat_lt};
ghost use Rattle.bl_machine.specs.Blocks.{up_to};
ghost use Rattle.bl_tree.specs.Reduce.{joined};
ghost use Rattle.bl_emit_functions.specs.Functions.{members_of, struct_of};
ghost use Rattle.bl_emit_spec.specs.Activities.{counter_member};
ghost use Rattle.bl_emit.specs.Activities.{frame_by, frame_member_told, memory_member_told, remembered_by};
ghost use Rattle.bl_emit.specs.Kept.{run_in};
ghost use Rattle.bl_emit.specs.inner.Members.{members_within};

use crate::chosen::{count_of, is_set};
use crate::counters::counter_type;
use crate::parts::member;
use crate::runs::RunAt;
use bl_emit_acts::parts::{NOWHERE, numbered, prefixed, worded};
use bl_emit_functions::memory;
use bl_emit_tables::name_of;
use bl_tree::c::{CMember, CStruct, CType};
use bl_tree::tree::{StructDef, Unit};
use bl_tree::{List, NoMemory};
use std::alloc::Global;

/// The member for a counter.
fn counter(alloc: Global, sizes: &[u32], k: u32) -> Result<CMember, NoMemory>
    ensures { IfOk result (λ made. made ≡ counter_member sizes.now k) }
{
    let name = numbered(alloc, "c", u64::from(k))?;
    Ok(CMember {
        ty: CType::Scalar(counter_type(sizes, k)),
        name,
        length: None,
    })
}

/// The members for so many counters.
fn counters(alloc: Global, sizes: &[u32], count: u32) -> Result<List<CMember>, NoMemory>
    ensures { IfOk result (λ made. made ≡ map (counter_member sizes.now) (up_to count)) }
{
    let mut made = List::new(alloc);
    for k in 0..count {
        made.push(counter(alloc, sizes, k)?)?;
    }
    Ok(made)
}

/// Where the activity that a `run` calls rests.
fn callee_frame(alloc: Global, earlier: &[Unit], run: RunAt) -> Result<CMember, NoMemory>
    ensures { IfOk result (λ made. made ≡ frame_member_told earlier.now (run_in run)) }
{
    let word = name_of(earlier, run.unit);
    let name = worded(alloc, "x", u64::from(run.number), word)?;
    let of = prefixed(alloc, "f_", word)?;
    Ok(member(name, of))
}

/// Appends where the activities that are run rest.
fn add_frames(
    alloc: Global,
    earlier: &[Unit],
    runs: &[RunAt],
    members: &mut List<CMember>,
) -> Result<(), NoMemory>
    ensures { OnOk result (members.new ≡ members.old ++ map (frame_member_told earlier.now) (map run_in runs.now)) }
{
    for run in runs {
        members.push(callee_frame(alloc, earlier, *run)?)?;
    }
    Ok(())
}

/// The struct of where an activity rests.
pub fn frame(
    alloc: Global,
    earlier: &[Unit],
    name: &str,
    sizes: &[u32],
    runs: &[RunAt],
) -> Result<CStruct, NoMemory>
    ensures { IfOk result (λ made. made ≡ frame_by earlier.now name.now sizes.now (map run_in runs.now)) }
{
    let mut members = counters(alloc, sizes, count_of(sizes)?)?;
    add_frames(alloc, earlier, runs, &mut members)?;
    Ok(CStruct {
        place: NOWHERE,
        name: prefixed(alloc, "f_", name)?,
        members,
    })
}

/// Appends what the activity that a `run` calls remembers, where that is anything.
fn add_memory(
    alloc: Global,
    earlier: &[Unit],
    remember: &[bool],
    run: RunAt,
    members: &mut List<CMember>,
) -> Result<(), NoMemory>
    ensures { OnOk result (members.new ≡ members.old ++ memory_member_told earlier.now remember.now (run_in run)) }
{
    if is_set(remember, run.unit as usize) {
        let word = name_of(earlier, run.unit);
        let name = worded(alloc, "x", u64::from(run.number), word)?;
        let of = prefixed(alloc, "m_", word)?;
        members.push(member(name, of))?;
    }
    Ok(())
}

/// Appends what the activities that are run remember.
fn add_memories(
    alloc: Global,
    earlier: &[Unit],
    remember: &[bool],
    runs: &[RunAt],
    members: &mut List<CMember>,
) -> Result<(), NoMemory>
    ensures { OnOk result (members.new ≡ members.old
        ++ joined (map (memory_member_told earlier.now remember.now) (map run_in runs.now))) }
{
    for run in runs {
        add_memory(alloc, earlier, remember, *run, members)?;
    }
    Ok(())
}

/// The members of the last struct, where there is one.
#[tactic(auto, using(crate::proofs::MemberLemmas::members_last))]
fn members_in(alloc: Global, structs: List<CStruct>) -> List<CMember>
    ensures { result ≡ members_within structs }
{
    let mut made = List::new(alloc);
    for s in structs.into_vec() {
        made = s.members;
    }
    made
}

/// The members of the variables that a unit holds.
#[tactic(auto, using(crate::proofs::MemberLemmas::members_of_struct))]
fn variables(
    alloc: Global,
    structs: &[StructDef],
    earlier: &[Unit],
    unit: &Unit,
) -> Result<List<CMember>, NoMemory>
    ensures { IfOk result (λ made. made ≡ members_of structs.now earlier.now unit.now) }
{
    let made = memory(alloc, structs, earlier, unit)?;
    Ok(members_in(alloc, made))
}

/// What an activity remembers.
pub fn remembered(
    alloc: Global,
    structs: &[StructDef],
    earlier: &[Unit],
    remember: &[bool],
    unit: &Unit,
    runs: &[RunAt],
) -> Result<List<CMember>, NoMemory>
    ensures { IfOk result (λ made. made ≡ remembered_by structs.now earlier.now remember.now unit.now (map run_in runs.now)) }
{
    let mut members = variables(alloc, structs, earlier, unit)?;
    add_memories(alloc, earlier, remember, runs, &mut members)?;
    Ok(members)
}

/// Whether there are any members.
pub fn is_any(members: &[CMember]) -> bool
    ensures { result ≡ nat_lt 0 (length members.now) }
{
    0 < members.len()
}

/// The struct of what an activity remembers, where it is anything.
pub fn remembered_struct(
    alloc: Global,
    name: &str,
    members: List<CMember>,
) -> Result<List<CStruct>, NoMemory>
    ensures { IfOk result (λ made. made ≡ struct_of name.now members) }
{
    let mut made = List::new(alloc);
    if !members.is_empty() {
        made.push(CStruct {
            place: NOWHERE,
            name: prefixed(alloc, "m_", name)?,
            members,
        })?;
    }
    Ok(made)
}
