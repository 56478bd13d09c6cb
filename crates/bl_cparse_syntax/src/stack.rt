//! The recogniser: a stack of what the pieces that follow must spell.

ghost use Rattle.std.specs.Prelude.{◌≡◌, ℕ, true, List, [], ◌∷◌, ◌++◌, map, reverse, IfOk, OnOk};
ghost use Rattle.std.specs.List.{list_all};
ghost use Rattle.bl_cparse_syntax.specs.Grammar.{wanted_for, with_turn_name};
ghost use Rattle.bl_cparse_syntax.specs.Tables.{turn_name_for};
ghost use Rattle.bl_cparse_syntax.specs.inner.Rows.{shape_shown};
ghost use Rattle.bl_cparse_syntax.specs.Stack.{CStackCompletes, IsGood};
ghost use Rattle.bl_cparse_syntax.specs.inner.Stacks.{StackAnswers, may_vanish, class_shown, shown};

use crate::choice::{Shape, may_be_absent, pick};
use crate::classes::is_of;
use crate::grammar::{Class, Part, Roomed};
use crate::seen::Seen;
use crate::words::is_turn_name;
use bl_grammar::Symbol;
use bl_tree::NoMemory;
use std::alloc::Global;

/// How many brackets may be open at once.
pub const MOST_OPEN: u16 = 2_000;

/// A class or part that a text must go on with.
pub type Wanted<'a> = Symbol<Class<'a>, Roomed>;

/// What must follow; the last one comes first.
#[derive(Drop)]
pub struct Stack<'a> {
    pub wanted: Vec<Wanted<'a>>,
}

impl<'a> Stack<'a> {
    /// A whole text must follow.
    pub fn new(alloc: Global) -> Result<Stack<'a>, NoMemory>
        ensures { IfOk result (λ stack. CStackCompletes [] (reverse (map shown stack.wanted.items))) }
    {
        let mut wanted = Vec::new(alloc);
        let whole = Roomed {
            part: Part::File,
            room: MOST_OPEN,
        };
        if wanted.push(Symbol::Nonterminal(whole)).is_err() {
            return Err(NoMemory);
        }
        Ok(Stack { wanted })
    }

    /// Whether the piece can follow. If so, it is taken off.
    pub fn take(&mut self, piece: &Seen<'a>) -> Result<bool, NoMemory>
        requires { IsGood (reverse (map shown self.old.wanted.items)) }
        ensures { IfOk result (λ taken. StackAnswers piece.now (reverse (map shown self.old.wanted.items)) taken (reverse (map shown self.new.wanted.items))) }
    {
        while let Some(first) = self.wanted.pop() {
            match first {
                Symbol::Terminal(class) => return Ok(is_of(class, piece)),
                Symbol::Nonterminal(whole) => match pick(whole, piece) {
                    Some(shapes) => push_all(
                        &mut self.wanted,
                        shapes,
                        whole.room,
                        turn_of(piece.bytes()),
                    )?,
                    None => return Ok(false),
                },
            }
        }
        Ok(false)
    }

    /// Nothing more need follow.
    pub fn may_end(&self) -> bool
        ensures { result ≡ list_all may_vanish (map shown self.now.wanted.items) }
    {
        for wanted in self.wanted.iter() {
            if !may_vanish(*wanted) {
                return false;
            }
        }
        true
    }
}

/// The class or part may stand for nothing.
fn may_vanish(wanted: Wanted<'_>) -> bool
    ensures { result ≡ may_vanish (shown wanted.entry) }
{
    match wanted {
        Symbol::Terminal(_) => false,
        Symbol::Nonterminal(whole) => may_be_absent(whole.part),
    }
}

/// The piece, where it can name the turns of a loop, and else some such name.
fn turn_of(piece: &[u8]) -> &[u8]
    ensures { result.now ≡ turn_name_for piece.now }
{
    if is_turn_name(piece) { piece } else { b"t0" }
}

/// What stands in a production, where so many brackets may still be opened around it.
fn placed<'a>(shape: Shape, room: u16, turn: &'a [u8]) -> Wanted<'a>
    ensures { shown result ≡ wanted_for room turn.now (shape_shown shape.entry) }
{
    match shape {
        Symbol::Terminal(class) => Symbol::Terminal(named(class, turn)),
        Symbol::Nonterminal(within) => Symbol::Nonterminal(Roomed {
            part: within.part,
            room: room.saturating_sub(within.around),
        }),
    }
}

/// The class, where this is the name of the loop's turns.
fn named<'a>(class: Class<'static>, turn: &'a [u8]) -> Class<'a>
    ensures { class_shown result ≡ with_turn_name turn.now (class_shown class.entry) }
{
    match class {
        Class::Exactly(word) => Class::Exactly(word),
        Class::OneOf(group) => Class::OneOf(group),
        Class::Name => Class::Name,
        Class::Number(digits) => Class::Number(digits),
        Class::Turn => Class::Named(turn),
        Class::Named(name) => Class::Named(name),
    }
}

/// Puts the production on the stack, so that its first class or part comes first.
fn push_all<'a>(
    wanted: &mut Vec<Wanted<'a>>,
    shapes: &[Shape],
    room: u16,
    turn: &'a [u8],
) -> Result<(), NoMemory>
    ensures { OnOk result (reverse (map shown wanted.new.items)
        ≡ map (wanted_for room turn.now) (map shape_shown shapes.now) ++ reverse (map shown wanted.old.items)) }
{
    let mut left = shapes.len();
    while left > 0 {
        left -= 1;
        if wanted.push(placed(shapes[left], room, turn)).is_err() {
            return Err(NoMemory);
        }
    }
    Ok(())
}
