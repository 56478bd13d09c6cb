//! The parts of an execution that call nothing back.

ghost use Rattle.std.specs.Prelude.{◌≡◌, [], ◌++◌, IfOk, drop, take, map, option_map, option_and_then, slice_get, if◌then◌else◌};
ghost use Rattle.bl_tree.specs.Numbers.{is_one};
ghost use Rattle.bl_tree.specs.Types.{scalar_in};
ghost use Rattle.bl_eval.specs.Changes.{all_changed, current_of, ended, put_of, puts_of};
ghost use Rattle.bl_eval.specs.Functions.{Flow as Ending, frame_of, left_by};
ghost use Rattle.bl_eval.specs.Meaning.{datum_of, position_in, read_at, scalar_of};
ghost use Rattle.bl_eval.specs.Values.{put_at, zero_of};

use crate::copying::copy;
use crate::datum::{Datum, Left, Operand, Put, Target};
use crate::evaluation::Flow;
use crate::operators::{datum, scalar_in};
use crate::parts::{find, put};
use crate::zero::zero_value;
use bl_tree::slices::element;
use bl_tree::tree::{StructDef, Ty, Unit, Var};
use bl_tree::{List, NoMemory, Scalar, Value};
use std::alloc::{AllocError, Global};

/// What a path of the type names, where it leads to the positions in a variable.
pub fn reading(
    alloc: Global,
    now: &[Value],
    root: usize,
    positions: &[usize],
    ty: &Ty,
) -> Result<Option<Datum>, NoMemory>
    ensures { IfOk result (λ given. given ≡ option_map (datum_of (scalar_in ty.now)) (read_at root now.now positions.now)) }
{
    match find(now, root, positions) {
        None => Ok(None),
        Some(value) => Ok(Some(datum(scalar_in(ty), copy(alloc, value)?))),
    }
}

/// What a variable was before.
pub fn previous(
    alloc: Global,
    vars: &[Var],
    before: &[Value],
    k: usize,
) -> Result<Option<Datum>, NoMemory>
    ensures { IfOk result (λ given. given ≡ option_map (datum_of (scalar_of (slice_get vars.now k))) (slice_get before.now k)) }
{
    match element(before, k) {
        None => Ok(None),
        Some(value) => Ok(Some(datum(scalar_at(vars, k), copy(alloc, value)?))),
    }
}

fn scalar_at(vars: &[Var], k: usize) -> Option<Scalar>
    ensures { result ≡ scalar_of (slice_get vars.now k) }
{
    match element(vars, k) {
        None => None,
        Some(var) => scalar_in(&var.ty),
    }
}

/// The position that an index stands for.
pub fn position(index: Option<Operand>) -> Option<usize>
    ensures { result ≡ option_and_then position_in index }
{
    let index = index?;
    if index.n < 0 || index.n > u64::MAX as i128 {
        None
    } else {
        Some(index.n as usize)
    }
}

/// Whether a condition is true.
pub fn is_true(test: Option<Operand>) -> Option<bool>
    ensures { result ≡ option_map (λ a. is_one a.n) test }
{
    let test = test?;
    Some(test.n == 1)
}

/// The result of a call.
pub fn result_of(left: Option<Left>) -> Option<Datum>
    ensures { result ≡ option_and_then (λ left. left.result) left }
{
    left?.result
}

/// The variables of a function as it begins: the arguments, and zero for the others.
pub fn frame(
    alloc: Global,
    structs: &[StructDef],
    unit: &Unit,
    arguments: List<Value>,
) -> Result<Vec<Value>, NoMemory>
    ensures { IfOk result (λ frame. frame.items ≡ frame_of structs.now unit.now arguments) }
{
    let mut frame = arguments;
    let parameters = unit.inputs as usize + unit.outputs as usize;
    for var in locals(&unit.vars, parameters) {
        frame.push(zero_value(alloc, structs, &var.ty)?)?;
    }
    Ok(frame.into_vec())
}

fn locals(vars: &[Var], parameters: usize) -> &[Var]
    ensures { result.now ≡ drop parameters vars.now }
{
    if parameters <= vars.len() {
        &vars[parameters..]
    } else {
        &[]
    }
}

/// What the end of a function's body leaves.
pub fn left(
    alloc: Global,
    unit: &Unit,
    frame: Vec<Value>,
    flow: Flow,
) -> Result<Option<Left>, NoMemory>
    ensures { IfOk result (λ left. left ≡ option_map (left_by unit.now) (ended flow frame.items)) }
{
    let result = match flow {
        Flow::On => None,
        Flow::Back(result) => result,
        Flow::Trap => return Ok(None),
    };
    let outputs = outputs(alloc, frame, unit.inputs as usize, unit.outputs as usize)?;
    Ok(Some(Left {
        outputs: List::from_vec(outputs),
        result,
    }))
}

fn outputs(
    alloc: Global,
    frame: Vec<Value>,
    inputs: usize,
    outputs: usize,
) -> Result<Vec<Value>, AllocError>
    ensures { IfOk result (λ values. values.items ≡ take outputs (drop inputs frame.items)) }
{
    frame.into_iter().skip(inputs).take(outputs).collect(alloc)
}

/// One change, where its place exists.
pub fn single(
    alloc: Global,
    now: &[Value],
    root: usize,
    positions: List<usize>,
    value: Value,
) -> Result<Option<List<Put>>, NoMemory>
    ensures { IfOk result (λ changes. option_map (λ puts. all_changed puts now.now) changes ≡ put_at root positions value now.now) }
{
    if find(now, root, &positions).is_none() {
        return Ok(None);
    }
    let mut changes = List::new(alloc);
    changes.push(Put {
        root,
        positions,
        value,
    })?;
    Ok(Some(changes))
}

/// The change of a declaration without an initial value.
pub fn declared_zero(
    alloc: Global,
    structs: &[StructDef],
    vars: &[Var],
    now: &[Value],
    k: usize,
) -> Result<Option<List<Put>>, NoMemory>
    ensures { IfOk result (λ changes. option_map (λ puts. all_changed puts now.now) changes
        ≡ option_and_then (λ var. put_at k [] (zero_of structs.now var.ty) now.now) (slice_get vars.now k)) }
{
    match element(vars, k) {
        None => Ok(None),
        Some(var) => {
            let zero = zero_value(alloc, structs, &var.ty)?;
            single(alloc, now, k, List::new(alloc), zero)
        }
    }
}

/// The inputs, and behind them what stands where the outputs lead; `None` where one leads outside.
pub fn with_current(
    alloc: Global,
    now: &[Value],
    inputs: List<Value>,
    targets: &[Target],
) -> Result<Option<List<Value>>, NoMemory>
    ensures { IfOk result (λ values. values ≡ option_map (λ current. inputs ++ current) (current_of targets.now now.now)) }
{
    let mut values = inputs;
    for target in targets {
        match find(now, target.root, &target.positions) {
            None => return Ok(None),
            Some(value) => values.push(copy(alloc, value)?)?,
        }
    }
    Ok(Some(values))
}

/// What a call changes that left this.
pub fn returned(
    alloc: Global,
    targets: List<Target>,
    left: Option<Left>,
) -> Result<Option<List<Put>>, NoMemory>
    ensures { IfOk result (λ changes. changes ≡ option_map (λ left. puts_of targets left.outputs) left) }
{
    match left {
        None => Ok(None),
        Some(Left { outputs, .. }) => Ok(Some(written(alloc, targets, outputs)?)),
    }
}

/// The changes that give each target its value.
fn written(alloc: Global, targets: List<Target>, values: List<Value>) -> Result<List<Put>, NoMemory>
    ensures { IfOk result (λ puts. puts ≡ puts_of targets values) }
{
    Ok(List::from_vec(pair_up(alloc, targets.into_vec(), values.into_vec())?))
}

fn pair_up(alloc: Global, targets: Vec<Target>, values: Vec<Value>) -> Result<Vec<Put>, AllocError>
    ensures { IfOk result (λ puts. puts.items ≡ puts_of targets.items values.items) }
{
    targets
        .into_iter()
        .zip(values)
        .map(|(target, value)| put_at_target(target, value))
        .collect(alloc)
}

fn put_at_target(target: Target, value: Value) -> Put
    ensures { result ≡ put_of record { 0 = target; 1 = value } }
{
    let Target { root, positions } = target;
    Put {
        root,
        positions,
        value,
    }
}

/// Makes the changes of a statement that does not trap.
pub fn make(frame: &mut Vec<Value>, changes: Option<List<Put>>) -> Flow
    ensures { ended result frame.new.items ≡ option_map (λ puts. Ending.On (all_changed puts frame.old.items)) changes }
{
    match changes {
        None => Flow::Trap,
        Some(puts) => {
            make_all(frame, puts);
            Flow::On
        }
    }
}

pub fn make_all(now: &mut Vec<Value>, puts: List<Put>)
    ensures { now.new.items ≡ all_changed puts now.old.items }
{
    for change in puts.into_vec() {
        let Put {
            root,
            positions,
            value,
        } = change;
        put(now, root, &positions, value);
    }
}

/// The end of a `return` with an expression.
pub fn back(given: Option<Datum>) -> Flow
    ensures { (now : _) → ended result now ≡ option_map (λ datum. Ending.Back now (Some datum)) given }
{
    match given {
        None => Flow::Trap,
        Some(datum) => Flow::Back(Some(datum)),
    }
}

/// The end of a loop whose last turn is over.
pub fn after_last(goes: Option<bool>) -> Flow
    ensures { (now : _) → ended result now ≡ option_and_then (λ more. if more then None else Some (Ending.On now)) goes }
{
    match goes {
        None => Flow::Trap,
        Some(true) => Flow::Trap,
        Some(false) => Flow::On,
    }
}
