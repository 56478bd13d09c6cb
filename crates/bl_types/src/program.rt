//! The items of a program in source order, and what is said of the whole.
#![tactic(auto, using(crate::proofs::NoteLemmas::notes, crate::proofs::StateLemmas::states))]

ghost use Rattle.std.specs.Prelude.{◌≡◌, ◌++◌, IfErr, IfOk, OnOk, length, option_map};
ghost use Rattle.bl_types.specs.Declarations.{after_constant, after_struct};
ghost use Rattle.bl_types.specs.Programs.{after_item, after_items, after_next, begun, failures_behind, global_at, globals_of, known_behind};
ghost use Rattle.bl_types.specs.Programs.{known_of, program_behind, typed_program, with_entry};
ghost use Rattle.bl_types.specs.Rules.{IsCause, IsCauseBehind, Passes, PassesBehind};
ghost use Rattle.bl_types.specs.inner.States.{after, passed};
ghost use Rattle.bl_types.specs.Units.{after_unit};

use crate::declare::{constant, structure};
use crate::environment::{Constant, Environment, Known, State, Typed};
use crate::failure::Notes;
use crate::slices::keep;
use crate::unit::{entries, entry, unit};
use bl_names_tree::Named;
use bl_names_tree::item::{Item, NamedConstant, NamedStruct, NamedUnit};
use bl_tree::slices::element;
use bl_tree::{List, NoMemory, Place, Refusal};
use std::alloc::Global;

/// Judges the rules Type, Literal, Immutable, Constant, Arity, Prev, Return, Where and Entry in their order: the first that
/// fails, at its least places. Where none fails it gives the structs and units with their types.
pub fn judge(alloc: Global, named: &Named) -> Result<Typed, Refusal>
    ensures typed { IfOk result (λ typed. typed ≡ typed_program named.now) }
    ensures passes { OnOk result (Passes named.now) }
    ensures cause { IfErr result (IsCause named.now) }
{
    let env = Environment::new(alloc);
    let known = match judge_behind(alloc, env, named, true) {
        Ok(known) => known,
        Err(refusal) => return Err(refusal),
    };
    match typed(known, &named.units) {
        Ok(typed) => Ok(typed),
        Err(NoMemory) => Err(Refusal::NoMemory),
    }
}

/// Judges the same rules of a program behind a start: what is known before it. In the named tree something stands in place of each
/// struct, constant and unit of the start. A program that isn't the last of several is to have no entry.
pub fn judge_behind(
    alloc: Global,
    env: Environment,
    named: &Named,
    last: bool,
) -> Result<Known, Refusal>
    ensures known { IfOk result (λ known. known ≡ known_behind env named.now) }
    ensures passes { OnOk result (PassesBehind last env named.now) }
    ensures cause { IfErr result (IsCauseBehind last env named.now) }
{
    let walked = match walk(alloc, env, named, last) {
        Ok(walked) => walked,
        Err(NoMemory) => return Err(Refusal::NoMemory),
    };
    let first = walked.state.notes.first;
    match first {
        None => match known(alloc, walked) {
            Ok(known) => Ok(known),
            Err(NoMemory) => Err(Refusal::NoMemory),
        },
        Some(failure) => Err(failure.refusal(alloc)),
    }
}

/// What is known on the way through a program, and the constants so far that stand in no body.
#[derive(Drop)]
struct Walked {
    state: State,
    globals: List<Constant>,
}

fn next_struct(alloc: Global, next: Option<&NamedStruct>, state: &mut State) -> Result<(), NoMemory>
    ensures { OnOk result (state.new ≡ after state.old (after_next after_struct (option_map (λ def. def.now) next.entry))) }
{
    match next {
        Some(def) => structure(alloc, def, state),
        None => Ok(()),
    }
}

fn next_constant(
    alloc: Global,
    next: Option<&NamedConstant>,
    state: &mut State,
) -> Result<(), NoMemory>
    ensures { OnOk result (state.new ≡ after state.old (after_next after_constant (option_map (λ def. def.now) next.entry))) }
{
    match next {
        Some(def) => constant(alloc, def, state),
        None => Ok(()),
    }
}

fn next_unit(
    alloc: Global,
    constants: &[NamedConstant],
    next: Option<&NamedUnit>,
    state: &mut State,
) -> Result<(), NoMemory>
    ensures { OnOk result (state.new ≡ after state.old (after_next (after_unit constants.now) (option_map (λ def. def.now) next.entry))) }
{
    match next {
        Some(def) => unit(alloc, constants, def, state),
        None => Ok(()),
    }
}

/// After an item of the program: its next struct, constant or unit.
fn item(alloc: Global, named: &Named, item: Item, state: &mut State) -> Result<(), NoMemory>
    ensures { OnOk result (state.new ≡ after state.old (after_item named.now item)) }
{
    match item {
        Item::Struct => {
            let next = element(&named.structs, state.env.structs.len());
            next_struct(alloc, next, state)
        }
        Item::Constant => {
            let next = element(&named.constants, state.env.constants.len());
            next_constant(alloc, next, state)
        }
        Item::Unit => {
            let next = element(&named.units, state.env.units.len());
            next_unit(alloc, &named.constants, next, state)
        }
    }
}

/// A constant that the item declares is kept, where it has this position.
fn keep_global(
    item: Item,
    k: usize,
    constants: &[Constant],
    globals: &mut List<Constant>,
) -> Result<(), NoMemory>
    ensures { OnOk result (globals.new ≡ globals.old ++ global_at item k constants.now) }
{
    match item {
        Item::Constant => keep(globals, element(constants, k).copied()),
        Item::Struct | Item::Unit => Ok(()),
    }
}

/// After an item of the program, with the constant that it declares.
fn next_item(
    alloc: Global,
    named: &Named,
    next: Item,
    state: &mut State,
    globals: &mut List<Constant>,
) -> Result<(), NoMemory>
    ensures state { OnOk result (state.new ≡ after state.old (after_item named.now next)) }
    ensures globals { OnOk result (globals.new ≡ globals.old ++ global_at next (length state.old.env.constants) state.new.env.constants) }
{
    let k = state.env.constants.len();
    item(alloc, named, next, state)?;
    keep_global(next, k, &state.env.constants, globals)?;
    Ok(())
}

/// After these items, one after another, with the constants that they declare.
fn items(
    alloc: Global,
    order: &[Item],
    named: &Named,
    state: &mut State,
    globals: &mut List<Constant>,
) -> Result<(), NoMemory>
    ensures state { OnOk result (state.new ≡ after state.old (after_items named.now order.now)) }
    ensures globals { OnOk result (globals.new ≡ globals.old ++ globals_of named.now order.now state.old.env) }
{
    for one in order {
        next_item(alloc, named, *one, state, globals)?;
    }
    Ok(())
}

/// What is known after all items of the program, where this is known before it.
fn all_items(alloc: Global, env: Environment, named: &Named) -> Result<Walked, NoMemory>
    ensures state { IfOk result (λ walked. walked.state ≡ after (begun env) (after_items named.now named.now.order)) }
    ensures globals { IfOk result (λ walked. walked.globals ≡ env.constants ++ globals_of named.now named.now.order env) }
{
    let mut globals = env.copied_constants(alloc)?;
    let mut state = State {
        env,
        notes: Notes { first: None },
    };
    items(alloc, &named.order, named, &mut state, &mut globals)?;
    Ok(Walked { state, globals })
}

/// What is known after the whole program, where this is known before it.
fn walk(alloc: Global, env: Environment, named: &Named, last: bool) -> Result<Walked, NoMemory>
    ensures state { IfOk result (λ walked. walked.state ≡ passed (begun env) (program_behind env named.now).env (failures_behind last env named.now)) }
    ensures globals { IfOk result (λ walked. walked.globals ≡ env.constants ++ globals_of named.now named.now.order env) }
{
    let mut walked = all_items(alloc, env, named)?;
    let end = Place {
        start: named.bytes,
        end: named.bytes,
    };
    entries(!last, end, &named.units, &mut walked.state.notes);
    Ok(walked)
}

/// What is known at the end.
fn known(alloc: Global, walked: Walked) -> Result<Known, NoMemory>
    ensures { IfOk result (λ known. known ≡ known_of walked.state.env walked.globals) }
{
    let Walked { state, globals } = walked;
    let State { env, .. } = state;
    let Environment { structs, units, .. } = env;
    let structs = structs.into_list(alloc)?;
    Ok(Known {
        structs,
        globals,
        units,
    })
}

/// The structs and units that are known at the end of a program, which has these units.
fn typed(known: Known, named: &[NamedUnit]) -> Result<Typed, NoMemory>
    ensures { IfOk result (λ typed. typed ≡ with_entry known named.now) }
{
    let entry = entry(named)?;
    let Known { structs, units, .. } = known;
    Ok(Typed {
        structs,
        units,
        entry,
    })
}
