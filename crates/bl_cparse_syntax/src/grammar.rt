//! The grammar's parts, and the classes of pieces that it tells apart (docs/C_SUBSET.md, "Grammar").

use bl_tree::Width;

/// Lists of words and signs that stand at one place.
#[derive(Clone, Copy, PartialEq, Eq, Debug)]
pub enum Group {
    ScalarTypes,
    /// The literals that are one word.
    PlainLiterals,
    Operators,
    IndexFunctions,
    /// What may stand behind `struct` beside names.
    StructWords,
    /// What may name a function beside names.
    FunctionWords,
    PreludeFunctions,
}

/// What decimal digits stand for, which says from which number to which they go.
#[derive(Clone, Copy, PartialEq, Eq, Debug)]
pub enum Digits {
    /// How many elements an array has.
    Elements,
    /// A number of an int type.
    Int(Width),
    /// What follows the minus of a number of an int type.
    Negated(Width),
    /// A number of an unsigned type.
    Unsigned(Width),
}

/// What a piece must be.
#[derive(Clone, Copy, PartialEq, Eq, Debug)]
pub enum Class<'a> {
    /// This word or sign.
    Exactly(&'static str),
    /// A word or sign of the list.
    OneOf(Group),
    Name,
    Number(Digits),
    /// The name of a loop's turns, where it stands first.
    Turn,
    /// The name that stood there.
    Named(&'a [u8]),
}

/// The parts of the grammar: its productions, with common beginnings joined.
#[derive(Clone, Copy, PartialEq, Eq, Debug)]
pub enum Part {
    File,
    Structs,
    Struct,
    StructName,
    Members,
    Member,
    TypeName,
    Length,
    Funcs,
    Func,
    PlainFunc,
    FuncRest,
    FuncName,
    Params,
    ParamRest,
    Param,
    Star,
    Locals,
    Local,
    Stmts,
    Stmt,
    Else,
    /// A loop behind its brace and the type of its turns.
    Turns,
    /// A statement behind the name that it begins with.
    AfterName,
    AssignTail,
    /// What is assigned.
    Value,
    /// The same behind its parenthesis.
    AfterOpen,
    /// A `return` behind its word.
    Result,
    Expr,
    /// An expression that begins with no parenthesis.
    Simple,
    Constant,
    /// An expression behind its parenthesis.
    Inside,
    Negative,
    /// What follows a name in an expression.
    NameUse,
    Steps,
    Index,
    Args,
    ArgRest,
    Arg,
    Place,
}

/// A part in a production, and how many brackets of the production are open around it.
#[derive(Clone, Copy, PartialEq, Eq, Debug)]
pub struct Within {
    pub part: Part,
    pub around: u16,
}

/// A part in a text, and how many brackets may still be opened there.
#[derive(Clone, Copy, PartialEq, Eq, Debug)]
pub struct Roomed {
    pub part: Part,
    pub room: u16,
}
