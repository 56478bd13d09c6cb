//! The rules by name, how they fail, and the first failure of several (docs/LANGUAGE.md, "Rules").

ghost use Rattle.std.specs.Prelude.{◌≡◌, ◌∷◌, [], Some, IfOk};
ghost use Rattle.bl_tree.specs.Rules.{Refuses, come_before, comes_before, first_of, further_places, is_before, lesser, name_of, number_of, same_place};

use crate::List;
use crate::memory::NoMemory;
use crate::place::Place;
use std::alloc::Global;

/// A rule that a source text must pass. Of several that fail the first of this list is told.
#[derive(Clone, Copy, PartialEq, Eq, Debug)]
pub enum Rule {
    /// The text isn't too long.
    Size,
    /// The text is cut into white space, comments and tokens.
    Lex,
    /// No token is one that the profile leaves out.
    Profile,
    /// Blocks and operators aren't nested too deep.
    Depth,
    /// The tokens spell a program.
    Syntax,
    /// No scope declares a name twice, and no struct a field.
    Duplicate,
    /// A name that is used is declared and visible.
    Unknown,
    /// A name stands for the kind of thing that its place needs.
    Kind,
    /// Operands, arguments and both sides of an assignment have the types that are wanted.
    Type,
    /// A number is in the range of its type.
    Literal,
    /// What is written is a `var` or an output.
    Immutable,
    /// The value of a `const` and the length of an array are known.
    Constant,
    /// A call has as many arguments as its unit has parameters.
    Arity,
    /// `prev` stands before a scalar `var` of an activity's body.
    Prev,
    /// `return` stands where it may, and where it must.
    Return,
    /// A function never pauses.
    Where,
    /// There is one activity that the environment can drive.
    Entry,
    /// An activity pauses at least once.
    Pause,
    /// No two branches write the same.
    Conflict,
    /// Arguments by reference don't overlap.
    Alias,
    /// The body of a loop takes time.
    Instant,
    /// No statement of an activity may act twice in one tick.
    Twice,
    /// Branches don't wait for each other.
    Cycle,
    /// There aren't too many instances, and units don't call each other too deep.
    Frames,
    /// The state isn't too large.
    Cells,
}

impl Rule {
    /// From 1 to 25.
    pub fn number(self) -> u8
        ensures { result ≡ number_of self }
    {
        match self {
            Rule::Size => 1,
            Rule::Lex => 2,
            Rule::Profile => 3,
            Rule::Depth => 4,
            Rule::Syntax => 5,
            Rule::Duplicate => 6,
            Rule::Unknown => 7,
            Rule::Kind => 8,
            Rule::Type => 9,
            Rule::Literal => 10,
            Rule::Immutable => 11,
            Rule::Constant => 12,
            Rule::Arity => 13,
            Rule::Prev => 14,
            Rule::Return => 15,
            Rule::Where => 16,
            Rule::Entry => 17,
            Rule::Pause => 18,
            Rule::Conflict => 19,
            Rule::Alias => 20,
            Rule::Instant => 21,
            Rule::Twice => 22,
            Rule::Cycle => 23,
            Rule::Frames => 24,
            Rule::Cells => 25,
        }
    }

    /// The word by which a line names the rule.
    pub fn name(self) -> &'static str
        ensures { result.now ≡ name_of self }
    {
        match self {
            Rule::Size => "Size",
            Rule::Lex => "Lex",
            Rule::Profile => "Profile",
            Rule::Depth => "Depth",
            Rule::Syntax => "Syntax",
            Rule::Duplicate => "Duplicate",
            Rule::Unknown => "Unknown",
            Rule::Kind => "Kind",
            Rule::Type => "Type",
            Rule::Literal => "Literal",
            Rule::Immutable => "Immutable",
            Rule::Constant => "Constant",
            Rule::Arity => "Arity",
            Rule::Prev => "Prev",
            Rule::Return => "Return",
            Rule::Where => "Where",
            Rule::Entry => "Entry",
            Rule::Pause => "Pause",
            Rule::Conflict => "Conflict",
            Rule::Alias => "Alias",
            Rule::Instant => "Instant",
            Rule::Twice => "Twice",
            Rule::Cycle => "Cycle",
            Rule::Frames => "Frames",
            Rule::Cells => "Cells",
        }
    }
}

/// Why a text isn't accepted.
#[derive(Drop)]
pub enum Refusal {
    /// The first rule that fails, its place, and the further places that its line names.
    Rule {
        rule: Rule,
        place: Place,
        also: List<Place>,
    },
    NoMemory,
}

/// The places that a line names beside the first.
#[derive(Clone, Copy, PartialEq, Eq, Debug)]
pub enum Further {
    Nothing,
    One(Place),
    Two(Place, Place),
}

/// A rule that fails, at a place, with the further places that its line names.
#[derive(Clone, Copy, PartialEq, Eq, Debug)]
pub struct Failure {
    pub rule: Rule,
    pub at: Place,
    pub further: Further,
}

fn same_place(a: Place, b: Place) -> bool
    ensures { result ≡ same_place a b }
{
    a.start == b.start && a.end == b.end
}

fn further_before(a: Further, b: Further) -> bool
    ensures { result ≡ come_before (further_places a) (further_places b) }
{
    match a {
        Further::Nothing => !matches!(b, Further::Nothing),
        Further::One(x) => one_before(x, b),
        Further::Two(x, y) => two_before(x, y, b),
    }
}

fn one_before(x: Place, b: Further) -> bool
    ensures { result ≡ come_before (x ∷ []) (further_places b) }
{
    match b {
        Further::Nothing => false,
        Further::One(u) => x.is_before(u),
        Further::Two(u, _) => same_place(x, u) || x.is_before(u),
    }
}

fn two_before(x: Place, y: Place, b: Further) -> bool
    ensures { result ≡ come_before (x ∷ y ∷ []) (further_places b) }
{
    match b {
        Further::Nothing => false,
        Further::One(u) => x.is_before(u),
        Further::Two(u, v) => {
            if same_place(x, u) {
                y.is_before(v)
            } else {
                x.is_before(u)
            }
        }
    }
}

/// The lesser rule comes first, and of one rule the first places that differ decide.
fn comes_before(a: Failure, b: Failure) -> bool
    ensures { result ≡ comes_before a b }
{
    let (one, other) = (a.rule.number(), b.rule.number());
    if one != other {
        return one < other;
    }
    if !same_place(a.at, b.at) {
        return a.at.is_before(b.at);
    }
    further_before(a.further, b.further)
}

/// The failure, where it comes before the first so far, and else that.
pub fn lesser(first: Option<Failure>, failure: Failure) -> Option<Failure>
    ensures { result ≡ lesser first failure }
{
    match first {
        None => Some(failure),
        Some(first) => {
            if comes_before(failure, first) {
                Some(failure)
            } else {
                Some(first)
            }
        }
    }
}

impl Failure {
    /// The refusal that tells the failure. Without memory for its further places it is want of memory.
    pub fn refusal(self, alloc: Global) -> Refusal
        ensures { Refuses self result }
    {
        match also(alloc, self.further) {
            Ok(also) => Refusal::Rule {
                rule: self.rule,
                place: self.at,
                also,
            },
            Err(NoMemory) => Refusal::NoMemory,
        }
    }
}

fn also(alloc: Global, further: Further) -> Result<List<Place>, NoMemory>
    ensures { IfOk result (λ also. also ≡ further_places further) }
{
    let mut also = List::new(alloc);
    match further {
        Further::Nothing => {}
        Further::One(x) => also.push(x)?,
        Further::Two(x, y) => {
            also.push(x)?;
            also.push(y)?;
        }
    }
    Ok(also)
}
