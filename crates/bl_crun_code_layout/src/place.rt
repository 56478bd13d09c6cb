//! How places are reached.

ghost use Rattle.std.specs.Prelude.{◌≡◌, ◌++◌, if◌then◌else◌, IfOk, List, map, OnOk, option_map, slice_get, Some};
ghost use Rattle.bl_tree.specs.declared.c.CStep.{CStep as Step};
ghost use Rattle.bl_ctext_semantics_laws.specs.Reaching.{Ground, near, start_of_slot, through};
ghost use Rattle.bl_crun_code.specs.Code.{FunctionEntry, start_operand};
ghost use Rattle.bl_crun_code_layout.specs.Places.{cells_before, index_at, IsWalkTo, terms_found, one_step_on, term_if, term_of, type_of_found, reach_so_far};
ghost use Rattle.bl_crun_code_layout.specs.Views.{ground_of, laid_of};

use crate::here::{Here, Laid, type_size};
use crate::numbers::{behind, small};
use bl_crun_code::instruction::Operand;
use bl_ctext_semantics::maps::find;
use bl_tree::c::{CIndex, CPlace, CStep, CType};
use bl_tree::{Box, NoMemory};
use std::alloc::Global;

/// An index: of so many elements, each so many cells long, the one that the index of a step chooses.
#[derive(Clone, Copy)]
pub struct IndexTerm {
    pub length: u32,
    pub size: u32,
    /// How many steps stand before that one.
    pub step: usize,
}

/// How a place is reached.
#[derive(Drop)]
pub struct Walk<'a> {
    /// Where it is read and written, but for the indices.
    pub start: Operand,
    /// The indices, from left to right.
    pub terms: Vec<IndexTerm>,
    /// The type of what stands there.
    pub ty: Option<&'a CType>,
}

/// How a place is reached, as far as its steps were followed.
#[derive(Drop)]
struct Way<'a> {
    /// How many cells of the frame stand before the slot where it begins.
    at: usize,
    /// Whether that slot has a pointer.
    pointer: bool,
    /// How many cells were passed by steps.
    passed: usize,
    terms: Vec<IndexTerm>,
    ty: Option<&'a CType>,
}

/// The type of a member that was found.
fn found_type<'a>(found: Option<Laid<'a>>) -> Option<&'a CType>
    ensures { option_map (λ t. t.now) result ≡ type_of_found (option_map laid_of found.entry) }
{
    match found {
        Some(laid) => Some(&laid.it.ty),
        None => None,
    }
}

/// How many cells stand before a member that was found.
fn found_at(found: Option<Laid<'_>>) -> usize
    ensures { result ≡ cells_before (option_map laid_of found.entry) }
{
    match found {
        Some(laid) => laid.at,
        None => 0,
    }
}

/// The element that the index of a step takes, where the member stands.
fn term_at(
    here: &Here<'_, '_>,
    found: Option<Laid<'_>>,
    index: &Option<Box<CIndex>>,
    step: usize,
) -> Result<Option<IndexTerm>, NoMemory>
    ensures { IfOk result (λ term. (steps : List Step) → index_at steps step ≡ index.now →
        terms_found (ground_of here.now) steps term ≡ term_if (ground_of here.now) (option_map laid_of found.entry) index.now) }
{
    match (index, found) {
        (Some(index), Some(laid)) => {
            let size = small(type_size(here.sizes, &laid.it.ty))?;
            Ok(Some(IndexTerm {
                length: index.length,
                size,
                step,
            }))
        }
        _ => Ok(None),
    }
}

/// Puts an index behind others, where there is one.
fn add_term(terms: &mut Vec<IndexTerm>, term: Option<IndexTerm>) -> Result<(), NoMemory>
    ensures { OnOk result ((here : Ground FunctionEntry) (steps : List Step) →
        map (term_of here steps) terms.new.items ≡ map (term_of here steps) terms.old.items ++ terms_found here steps term) }
{
    match term {
        Some(term) => match terms.push(term) {
            Ok(()) => Ok(()),
            Err(_) => Err(NoMemory),
        },
        None => Ok(()),
    }
}

/// Follows one step more, before which so many stand.
fn follow<'a>(
    here: &Here<'_, 'a>,
    way: &mut Way<'a>,
    step: &CStep,
    before: usize,
) -> Result<(), NoMemory>
    ensures { OnOk result ((steps : List Step) → slice_get steps before ≡ Some step.now →
        reach_so_far (ground_of here.now) steps way.new ≡ one_step_on (ground_of here.now) (reach_so_far (ground_of here.now) steps way.old) step.now) }
{
    let found = here.member(way.ty, &step.member);
    let term = term_at(here, found, &step.index, before)?;
    add_term(&mut way.terms, term)?;
    way.passed = behind(way.passed, found_at(found));
    way.ty = found_type(found);
    Ok(())
}

/// Where the place of a name begins; nowhere where nothing has it.
fn root_at<'a>(here: &Here<'_, 'a>, name: &str) -> Way<'a>
    ensures { (steps : List Step) → reach_so_far (ground_of here.now) steps result ≡ start_of_slot ((ground_of here.now).slots name.now) }
{
    match find(here.slots, name) {
        Some(slot) => Way {
            at: slot.at,
            pointer: slot.pointer,
            passed: 0,
            terms: Vec::new(here.alloc),
            ty: Some(slot.ty),
        },
        None => Way {
            at: 0,
            pointer: false,
            passed: 0,
            terms: Vec::new(here.alloc),
            ty: None,
        },
    }
}

/// Where a place is read and written, but for the indices.
fn starting(at: usize, pointer: bool, passed: usize) -> Result<Operand, NoMemory>
    ensures { IfOk result (λ start. start ≡ start_operand (if pointer then through at else near at) passed) }
{
    if pointer {
        let at = small(at)?;
        let passed = small(passed)?;
        Ok(Operand::Through(at, passed))
    } else {
        let cell = small(behind(at, passed))?;
        Ok(Operand::Near(cell))
    }
}

/// How a place is reached.
pub fn walk_to<'a>(here: &Here<'_, 'a>, at: &CPlace) -> Result<Walk<'a>, NoMemory>
    ensures { IfOk result (λ walk. IsWalkTo (ground_of here.now) at.now walk) }
{
    let mut way = root_at(here, &at.name);
    let steps = at.steps.as_slice();
    for k in 0..steps.len() {
        follow(here, &mut way, &steps[k], k)?;
    }
    let start = starting(way.at, way.pointer, way.passed)?;
    let Way { terms, ty, .. } = way;
    Ok(Walk { start, terms, ty })
}
