//! What may follow in the text of a face: one state after each token.

ghost use Rattle.std.specs.Prelude.{◌≡◌};
ghost use Rattle.bl_face.specs.inner.States.{next_name, named_first, next_mark, item_begun, list_opened, first, first_field, closed, behind_params, colon};
ghost use Rattle.bl_face.specs.inner.States.{in_type, length, length_end, type_end, behind_field, behind_param, behind_outputs, scalar_typed};
ghost use Rattle.bl_face.specs.inner.States.{const_colon, assign, value, magnitude, is_end};

use crate::class::Mark;

/// What a name and a type are written for.
#[derive(Clone, Copy)]
pub enum Slot {
    Field,
    Input,
    Output,
}

/// What was read last, and so what may follow.
#[derive(Clone, Copy)]
pub enum State {
    /// An item has ended, or none has begun.
    Items,
    Struct,
    Unit,
    /// Before the parentheses of a list of parameters.
    Params(Slot),
    /// Before the first field or parameter.
    First(Slot),
    /// Before the name of a field or parameter.
    Part(Slot),
    /// Behind that name.
    PartName(Slot),
    Type(Slot),
    Length(Slot),
    LengthEnd(Slot),
    TypeEnd(Slot),
    /// Behind the outputs.
    Outputs,
    Returns,
    Const,
    ConstName,
    ConstType,
    ConstTypeEnd,
    Value,
    Minus,
}

pub fn next_name(state: State) -> Option<State>
    ensures { result ≡ next_name state }
{
    match state {
        State::Struct => Some(State::First(Slot::Field)),
        State::Unit => Some(State::Params(Slot::Input)),
        State::First(slot) => named_first(slot),
        State::Part(slot) => Some(State::PartName(slot)),
        State::Type(slot) => Some(State::TypeEnd(slot)),
        State::Const => Some(State::ConstName),
        _ => None,
    }
}

fn named_first(slot: Slot) -> Option<State>
    ensures { result ≡ named_first slot }
{
    match slot {
        Slot::Field => None,
        Slot::Input | Slot::Output => Some(State::PartName(slot)),
    }
}

pub fn next_mark(state: State, mark: Mark) -> Option<State>
    ensures { result ≡ next_mark state mark }
{
    match state {
        State::Items => item_begun(mark),
        State::Params(slot) => list_opened(slot, mark),
        State::First(slot) => first(slot, mark),
        State::PartName(slot) => colon(slot, mark),
        State::Type(slot) => in_type(slot, mark),
        State::Length(slot) => length(slot, mark),
        State::LengthEnd(slot) => length_end(slot, mark),
        State::TypeEnd(slot) => type_end(slot, mark),
        State::Outputs => behind_outputs(mark),
        State::Returns => scalar_typed(State::Items, mark),
        State::ConstName => const_colon(mark),
        State::ConstType => scalar_typed(State::ConstTypeEnd, mark),
        State::ConstTypeEnd => assign(mark),
        State::Value => value(mark),
        State::Minus => magnitude(mark),
        State::Struct | State::Unit | State::Part(_) | State::Const => None,
    }
}

fn item_begun(mark: Mark) -> Option<State>
    ensures { result ≡ item_begun mark }
{
    match mark {
        Mark::Struct => Some(State::Struct),
        Mark::Unit(_) => Some(State::Unit),
        Mark::Const => Some(State::Const),
        _ => None,
    }
}

fn list_opened(slot: Slot, mark: Mark) -> Option<State>
    ensures { result ≡ list_opened slot mark }
{
    match mark {
        Mark::OpenParen => Some(State::First(slot)),
        _ => None,
    }
}

fn first(slot: Slot, mark: Mark) -> Option<State>
    ensures { result ≡ first slot mark }
{
    match slot {
        Slot::Field => first_field(mark),
        Slot::Input | Slot::Output => closed(slot, mark),
    }
}

fn first_field(mark: Mark) -> Option<State>
    ensures { result ≡ first_field mark }
{
    match mark {
        Mark::Var => Some(State::Part(Slot::Field)),
        _ => None,
    }
}

/// The state behind `)`, if the mark is that.
fn closed(slot: Slot, mark: Mark) -> Option<State>
    ensures { result ≡ closed slot mark }
{
    match mark {
        Mark::CloseParen => Some(behind_params(slot)),
        _ => None,
    }
}

fn behind_params(slot: Slot) -> State
    ensures { result ≡ behind_params slot }
{
    match slot {
        Slot::Input => State::Params(Slot::Output),
        Slot::Field | Slot::Output => State::Outputs,
    }
}

fn colon(slot: Slot, mark: Mark) -> Option<State>
    ensures { result ≡ colon slot mark }
{
    match mark {
        Mark::Colon => Some(State::Type(slot)),
        _ => None,
    }
}

fn in_type(slot: Slot, mark: Mark) -> Option<State>
    ensures { result ≡ in_type slot mark }
{
    match mark {
        Mark::Scalar(_) => Some(State::TypeEnd(slot)),
        Mark::OpenBracket => Some(State::Length(slot)),
        _ => None,
    }
}

fn length(slot: Slot, mark: Mark) -> Option<State>
    ensures { result ≡ length slot mark }
{
    match mark {
        Mark::Number(_) => Some(State::LengthEnd(slot)),
        _ => None,
    }
}

fn length_end(slot: Slot, mark: Mark) -> Option<State>
    ensures { result ≡ length_end slot mark }
{
    match mark {
        Mark::CloseBracket => Some(State::Type(slot)),
        _ => None,
    }
}

fn type_end(slot: Slot, mark: Mark) -> Option<State>
    ensures { result ≡ type_end slot mark }
{
    match slot {
        Slot::Field => behind_field(mark),
        Slot::Input | Slot::Output => behind_param(slot, mark),
    }
}

fn behind_field(mark: Mark) -> Option<State>
    ensures { result ≡ behind_field mark }
{
    match mark {
        Mark::Var => Some(State::Part(Slot::Field)),
        Mark::End => Some(State::Items),
        _ => None,
    }
}

fn behind_param(slot: Slot, mark: Mark) -> Option<State>
    ensures { result ≡ behind_param slot mark }
{
    match mark {
        Mark::Comma => Some(State::Part(slot)),
        _ => closed(slot, mark),
    }
}

fn behind_outputs(mark: Mark) -> Option<State>
    ensures { result ≡ behind_outputs mark }
{
    match mark {
        Mark::Returns => Some(State::Returns),
        _ => item_begun(mark),
    }
}

/// The given state, if the mark is a scalar type.
fn scalar_typed(behind: State, mark: Mark) -> Option<State>
    ensures { result ≡ scalar_typed behind mark }
{
    match mark {
        Mark::Scalar(_) => Some(behind),
        _ => None,
    }
}

fn const_colon(mark: Mark) -> Option<State>
    ensures { result ≡ const_colon mark }
{
    match mark {
        Mark::Colon => Some(State::ConstType),
        _ => None,
    }
}

fn assign(mark: Mark) -> Option<State>
    ensures { result ≡ assign mark }
{
    match mark {
        Mark::Assign => Some(State::Value),
        _ => None,
    }
}

fn value(mark: Mark) -> Option<State>
    ensures { result ≡ value mark }
{
    match mark {
        Mark::Truth(_) | Mark::Number(_) => Some(State::Items),
        Mark::Minus => Some(State::Minus),
        _ => None,
    }
}

fn magnitude(mark: Mark) -> Option<State>
    ensures { result ≡ magnitude mark }
{
    match mark {
        Mark::Number(_) => Some(State::Items),
        _ => None,
    }
}

/// The text of a face may end in this state.
pub fn is_end(state: State) -> bool
    ensures { result ≡ is_end state }
{
    match state {
        State::Items | State::Outputs => true,
        _ => false,
    }
}
