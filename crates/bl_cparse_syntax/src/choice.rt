//! Which production the next piece decides on.

ghost use Rattle.std.specs.Prelude.{◌≡◌, ℕ, List, Bool, None, Some, map, option_map};
ghost use Rattle.bl_cparse_syntax.specs.Classes.{matches};
ghost use Rattle.bl_cparse_syntax.specs.Tables.{choices, decided_production, has, absent, decided, pick};
ghost use Rattle.bl_cparse_syntax.specs.inner.Stacks.{class_shown};
ghost use Rattle.bl_cparse_syntax.specs.inner.Rows.{choice_shown, wanted_from, production_shown};

use crate::classes::is_of;
use crate::grammar::{Class, Part, Roomed, Within};
use crate::seen::Seen;
use crate::{expressions, items, statements};
use bl_grammar::{Productions, Symbol, needed, optional};

/// A class or part of a production.
pub type Shape = Symbol<Class<'static>, Within>;

/// A production, and the classes of the next piece that decide on it.
#[derive(Clone, Copy)]
pub struct Choice {
    pub on: &'static [Class<'static>],
    /// How many brackets must be left to open.
    pub needs: u16,
    pub production: &'static [Shape],
}

/// The production of the part that stands before this next piece. It is empty where the part is absent.
#[tactic(auto, unfolding(crate::specs::Tables::pick))]
pub fn pick(whole: Roomed, piece: &Seen<'_>) -> Option<&'static [Shape]>
    ensures { option_map (λ shapes. wanted_from whole.room piece.now shapes.now) result ≡ pick whole piece.now }
{
    let productions = productions_of(whole.part);
    match chosen(productions.choices, piece) {
        Some(choice) => roomed(choice, whole.room),
        None => empty_if(productions.may_be_absent),
    }
}

/// The part may stand for nothing.
pub fn may_be_absent(part: Part) -> bool
    ensures { result ≡ absent part }
{
    productions_of(part).may_be_absent
}

/// The production, where so many brackets suffice.
fn roomed(choice: Choice, room: u16) -> Option<&'static [Shape]>
    ensures { (piece : List ℕ) (may : Bool) → option_map (λ shapes. wanted_from room piece shapes.now) result
        ≡ decided room piece may (Some (production_shown choice)) }
{
    if choice.needs <= room {
        Some(choice.production)
    } else {
        None
    }
}

fn empty_if(absent: bool) -> Option<&'static [Shape]>
    ensures { (room : ℕ) (piece : List ℕ) → option_map (λ shapes. wanted_from room piece shapes.now) result ≡ decided room piece absent None }
{
    if absent { Some(&[]) } else { None }
}

fn chosen(choices: &'static [Choice], piece: &Seen<'_>) -> Option<Choice>
    ensures { option_map production_shown result ≡ decided_production (map choice_shown choices.now) piece.now }
{
    for choice in choices {
        if has(choice.on, piece) {
            return Some(*choice);
        }
    }
    None
}

fn has(classes: &[Class<'_>], piece: &Seen<'_>) -> bool
    ensures { result ≡ has (map class_shown classes.now) piece.now }
{
    for class in classes {
        if is_of(*class, piece) {
            return true;
        }
    }
    false
}

/// The productions of each part.
#[tactic(auto, unfolding(crate::specs::Tables::choices, crate::specs::Tables::starts, crate::specs::Tables::absent))]
fn productions_of(part: Part) -> Productions<Choice>
    ensures choices { map choice_shown result.choices.now ≡ choices part }
    ensures absent { result.may_be_absent ≡ absent part }
{
    match part {
        Part::File => needed(&items::FILE),
        Part::Structs => optional(&items::STRUCTS),
        Part::Struct => needed(&items::STRUCT),
        Part::StructName => needed(&items::STRUCT_NAME),
        Part::Members => optional(&items::MEMBERS),
        Part::Member => needed(&items::MEMBER),
        Part::TypeName => needed(&items::TYPE_NAME),
        Part::Length => optional(&items::LENGTH),
        Part::Funcs => optional(&items::FUNCS),
        Part::Func => needed(&items::FUNC),
        Part::PlainFunc => needed(&items::PLAIN_FUNC),
        Part::FuncRest => needed(&items::FUNC_REST),
        Part::FuncName => needed(&items::FUNC_NAME),
        Part::Params => optional(&items::PARAMS),
        Part::ParamRest => optional(&items::PARAM_REST),
        Part::Param => needed(&items::PARAM),
        Part::Star => optional(&items::STAR),
        Part::Locals => optional(&items::LOCALS),
        Part::Local => needed(&items::LOCAL),
        Part::Stmts => optional(&statements::STMTS),
        Part::Stmt => needed(&statements::STMT),
        Part::Else => optional(&statements::ELSE),
        Part::Turns => needed(&statements::TURNS),
        Part::AfterName => needed(&statements::AFTER_NAME),
        Part::AssignTail => needed(&statements::ASSIGN_TAIL),
        Part::Value => needed(&statements::VALUE),
        Part::AfterOpen => needed(&statements::AFTER_OPEN),
        Part::Result => needed(&statements::RESULT),
        Part::Expr => needed(&expressions::EXPR),
        Part::Simple => needed(&expressions::SIMPLE),
        Part::Constant => needed(&expressions::CONSTANT),
        Part::Inside => needed(&expressions::INSIDE),
        Part::Negative => needed(&expressions::NEGATIVE),
        Part::NameUse => optional(&expressions::NAME_USE),
        Part::Steps => optional(&expressions::STEPS),
        Part::Index => optional(&expressions::INDEX),
        Part::Args => optional(&expressions::ARGS),
        Part::ArgRest => optional(&expressions::ARG_REST),
        Part::Arg => needed(&expressions::ARG),
        Part::Place => needed(&expressions::PLACE),
    }
}
