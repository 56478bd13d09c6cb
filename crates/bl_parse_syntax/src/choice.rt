//! Which production the next token decides on.

ghost use Rattle.std.specs.Prelude.{◌≡◌, None, map, option_map};
ghost use Rattle.bl_parse_syntax.specs.Grammar.{same_class};
ghost use Rattle.bl_parse_syntax.specs.Tables.{has, shown, choices, chosen, absent, or_absent, permits, pick};

use crate::grammar::{Class, Part, TokenView};
use crate::{expressions, items, statements};
use bl_grammar::{Productions, Symbol, needed, optional};

/// A symbol of the grammar.
pub type Piece = Symbol<Class, Part>;

/// A production, and the classes of the next token that decide on it.
#[derive(Clone, Copy)]
pub struct Choice {
    pub on: &'static [Class],
    pub production: &'static [Piece],
}

/// The production of the part that stands before this next token. It is empty where the part is absent.
#[tactic(auto, unfolding(crate::specs::Tables::pick))]
pub fn pick(part: Part, next: TokenView) -> Option<&'static [Piece]>
    ensures { option_map (λ production. production.now) result ≡ pick part next }
{
    let productions = productions_of(part);
    let choice = if permits(part, next) {
        chosen(productions.choices, next.class)
    } else {
        None
    };
    match choice {
        Some(production) => Some(production),
        None => empty_if(productions.may_be_absent),
    }
}

/// The part may stand for nothing.
pub fn may_be_absent(part: Part) -> bool
    ensures { result ≡ absent part }
{
    productions_of(part).may_be_absent
}

fn empty_if(absent: bool) -> Option<&'static [Piece]>
    ensures { option_map (λ production. production.now) result ≡ or_absent absent None }
{
    if absent { Some(&[]) } else { None }
}

/// An expression that `return` gives stands on its line.
fn permits(part: Part, next: TokenView) -> bool
    ensures { result ≡ permits part next }
{
    match part {
        Part::AfterReturn => !next.fresh,
        _ => true,
    }
}

fn chosen(choices: &'static [Choice], class: Class) -> Option<&'static [Piece]>
    ensures { option_map (λ production. production.now) result ≡ chosen (map shown choices.now) class }
{
    for choice in choices {
        if has(choice.on, class) {
            return Some(choice.production);
        }
    }
    None
}

fn has(classes: &[Class], class: Class) -> bool
    ensures { result ≡ has classes.now class }
{
    classes.iter().any(|one| is_same(*one, class))
}

/// Two classes are one.
pub fn is_same(one: Class, other: Class) -> bool
    ensures { result ≡ same_class one other }
{
    match (one, other) {
        (Class::AnyName, Class::AnyName) | (Class::AnyNumber, Class::AnyNumber) => true,
        (Class::Keyword(one), Class::Keyword(other)) => one == other,
        (Class::Mark(one), Class::Mark(other)) => one == other,
        _ => false,
    }
}

/// The productions of each part.
#[tactic(auto, unfolding(crate::specs::Tables::choices, crate::specs::Tables::starts, crate::specs::Tables::absent))]
fn productions_of(part: Part) -> Productions<Choice>
    ensures choices { map shown result.choices.now ≡ choices part }
    ensures absent { result.may_be_absent ≡ absent part }
{
    match part {
        Part::Program => optional(&items::PROGRAM),
        Part::Item => needed(&items::ITEM),
        Part::Struct => needed(&items::STRUCT),
        Part::Field => needed(&items::FIELD),
        Part::Fields => optional(&items::FIELDS),
        Part::Constant => needed(&items::CONSTANT),
        Part::TypeMark => optional(&items::TYPE_MARK),
        Part::Unit => needed(&items::UNIT),
        Part::PlainUnit => needed(&items::PLAIN_UNIT),
        Part::UnitTail => needed(&items::UNIT_TAIL),
        Part::Params => needed(&items::PARAMS),
        Part::SecondParams => optional(&items::SECOND_PARAMS),
        Part::ParamList => optional(&items::PARAM_LIST),
        Part::ParamRest => optional(&items::PARAM_REST),
        Part::Param => needed(&items::PARAM),
        Part::Returns => optional(&items::RETURNS),
        Part::Ty => needed(&items::TY),
        Part::Scalar => needed(&items::SCALAR),
        Part::Length => needed(&items::LENGTH),
        Part::Block => optional(&statements::BLOCK),
        Part::Stmt => needed(&statements::STMT),
        Part::VarTail => needed(&statements::VAR_TAIL),
        Part::Initial => optional(&statements::INITIAL),
        Part::AfterName => needed(&statements::AFTER_NAME),
        Part::CallTail => needed(&statements::CALL_TAIL),
        Part::AssignTail => needed(&statements::ASSIGN_TAIL),
        Part::Access => needed(&statements::ACCESS),
        Part::Accesses => optional(&statements::ACCESSES),
        Part::RunTail => needed(&statements::RUN_TAIL),
        Part::RunTarget => needed(&statements::RUN_TARGET),
        Part::Weak => optional(&statements::WEAK),
        Part::Branches => optional(&statements::BRANCHES),
        Part::Guard => needed(&statements::GUARD),
        Part::Until => optional(&statements::UNTIL),
        Part::Elseifs => optional(&statements::ELSEIFS),
        Part::Else => optional(&statements::ELSE),
        Part::AfterReturn => optional(&statements::AFTER_RETURN),
        Part::Inputs => needed(&statements::INPUTS),
        Part::InputList => optional(&statements::INPUT_LIST),
        Part::InputRest => optional(&statements::INPUT_REST),
        Part::Outputs => needed(&statements::OUTPUTS),
        Part::SecondOutputs => optional(&statements::SECOND_OUTPUTS),
        Part::OutputList => optional(&statements::OUTPUT_LIST),
        Part::OutputRest => optional(&statements::OUTPUT_REST),
        Part::Path => needed(&statements::PATH),
        Part::PathRest => optional(&statements::PATH_REST),
        Part::Expr => needed(&expressions::EXPR),
        Part::ExprRest => optional(&expressions::EXPR_REST),
        Part::And => needed(&expressions::AND),
        Part::AndRest => optional(&expressions::AND_REST),
        Part::Comparison => needed(&expressions::COMPARISON),
        Part::ComparisonRest => optional(&expressions::COMPARISON_REST),
        Part::BitOr => needed(&expressions::BIT_OR),
        Part::BitOrRest => optional(&expressions::BIT_OR_REST),
        Part::BitXor => needed(&expressions::BIT_XOR),
        Part::BitXorRest => optional(&expressions::BIT_XOR_REST),
        Part::BitAnd => needed(&expressions::BIT_AND),
        Part::BitAndRest => optional(&expressions::BIT_AND_REST),
        Part::Shift => needed(&expressions::SHIFT),
        Part::ShiftRest => optional(&expressions::SHIFT_REST),
        Part::Sum => needed(&expressions::SUM),
        Part::SumRest => optional(&expressions::SUM_REST),
        Part::Product => needed(&expressions::PRODUCT),
        Part::ProductRest => optional(&expressions::PRODUCT_REST),
        Part::Cast => needed(&expressions::CAST),
        Part::CastRest => optional(&expressions::CAST_REST),
        Part::Unary => needed(&expressions::UNARY),
        Part::Primary => needed(&expressions::PRIMARY),
        Part::NameUse => optional(&expressions::NAME_USE),
        Part::NoOutputs => optional(&expressions::NO_OUTPUTS),
    }
}
