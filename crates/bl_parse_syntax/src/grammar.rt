//! The grammar's parts, and tokens as the grammar sees them (docs/LANGUAGE.md, "Grammar").

use bl_tree::token::Keyword;

/// What the grammar tells tokens apart by.
#[derive(Clone, Copy, PartialEq, Eq, Debug)]
pub enum Class {
    AnyName,
    AnyNumber,
    Keyword(Keyword),
    /// The position in the list of signs.
    Mark(u8),
}

/// A token as the grammar sees it.
#[derive(Clone, Copy, PartialEq, Eq, Debug)]
pub struct TokenView {
    pub class: Class,
    /// It doesn't stand on the line of the token before it.
    pub fresh: bool,
}

/// The parts of the grammar: its productions, with common beginnings joined.
#[derive(Clone, Copy, PartialEq, Eq, Debug)]
pub enum Part {
    Program,
    Item,
    Struct,
    Field,
    Fields,
    Constant,
    TypeMark,
    Unit,
    PlainUnit,
    UnitTail,
    Params,
    SecondParams,
    ParamList,
    ParamRest,
    Param,
    Returns,
    Ty,
    Scalar,
    Length,
    Block,
    Stmt,
    VarTail,
    Initial,
    AfterName,
    CallTail,
    AssignTail,
    Access,
    Accesses,
    RunTail,
    RunTarget,
    Weak,
    Branches,
    Guard,
    Until,
    Elseifs,
    Else,
    AfterReturn,
    Inputs,
    InputList,
    InputRest,
    Outputs,
    SecondOutputs,
    OutputList,
    OutputRest,
    Path,
    PathRest,
    Expr,
    ExprRest,
    And,
    AndRest,
    Comparison,
    ComparisonRest,
    BitOr,
    BitOrRest,
    BitXor,
    BitXorRest,
    BitAnd,
    BitAndRest,
    Shift,
    ShiftRest,
    Sum,
    SumRest,
    Product,
    ProductRest,
    Cast,
    CastRest,
    Unary,
    Primary,
    NameUse,
    NoOutputs,
}
