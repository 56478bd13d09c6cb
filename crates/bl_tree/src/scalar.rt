//! Scalar types, their ranges, and the operators on them.

ghost use Rattle.std.specs.Prelude.{◌≡◌, ◌^◌, ◌<◌, ◌↔◌, ◌≤ℤ◌, pos, IsTrue};
ghost use Rattle.bl_tree.specs.Scalar.{bits_of, width_of, low_of, high_of, InRange, is_whole};
ghost use Rattle.bl_tree.specs.Numbers.{takes_two, takes_one, type_of_result};

/// How many bits a whole-number type has.
#[derive(Clone, Copy, PartialEq, Eq, Debug)]
pub enum Width {
    W8,
    W16,
    W32,
    W64,
}

impl Width {
    pub fn bits(self) -> u32
        ensures { result ≡ bits_of self }
    {
        match self {
            Width::W8 => 8,
            Width::W16 => 16,
            Width::W32 => 32,
            Width::W64 => 64,
        }
    }

    /// How many numbers a type of this width has.
    pub fn count(self) -> u128
        ensures { result ≡ 2 ^ bits_of self }
    {
        match self {
            Width::W8 => 0x100,
            Width::W16 => 0x1_0000,
            Width::W32 => 0x1_0000_0000,
            Width::W64 => 0x1_0000_0000_0000_0000,
        }
    }
}

/// A type without parts (docs/LANGUAGE.md, "Types").
#[derive(Clone, Copy, PartialEq, Eq, Debug)]
pub enum Scalar {
    Bool,
    /// Signed and checked.
    Int(Width),
    /// Unsigned and checked.
    Nat(Width),
    /// Unsigned, with results modulo two to the width.
    Bits(Width),
}

impl Scalar {
    /// The numbers of the type (docs/LANGUAGE.md, "Types"). Those of bool are 0 and 1.
    pub fn range(self) -> Range
        ensures low { result.low ≡ low_of self }
        ensures high { result.high ≡ high_of self }
    {
        match self {
            Scalar::Bool => Range { low: 0, high: 1 },
            Scalar::Int(width) => signed_range(width),
            Scalar::Nat(width) | Scalar::Bits(width) => Range {
                low: 0,
                high: width.count() as i128 - 1,
            },
        }
    }

    /// How many binary digits a number of the type has; 1 for bool.
    pub fn bits(self) -> u32
        ensures { result ≡ width_of self }
    {
        match self {
            Scalar::Bool => 1,
            Scalar::Int(width) | Scalar::Nat(width) | Scalar::Bits(width) => width.bits(),
        }
    }

    pub fn contains(self, n: i128) -> bool
        ensures { IsTrue result ↔ InRange self n }
    {
        self.range().holds(n)
    }

    /// Whether it is an int, a nat or a bits type.
    pub fn is_whole(self) -> bool
        ensures { result ≡ is_whole self }
    {
        match self {
            Scalar::Bool => false,
            Scalar::Int(_) | Scalar::Nat(_) | Scalar::Bits(_) => true,
        }
    }
}

fn signed_range(width: Width) -> Range
    ensures low { result.low ≡ low_of (Scalar.Int width) }
    ensures high { result.high ≡ high_of (Scalar.Int width) }
{
    let half = (width.count() / 2) as i128;
    Range {
        low: -half,
        high: half - 1,
    }
}

/// The whole numbers from `low` to `high`, both included.
#[derive(Clone, Copy, PartialEq, Eq, Debug)]
pub struct Range {
    pub low: i128,
    pub high: i128,
}

impl Range {
    pub fn holds(&self, n: i128) -> bool
        ensures { IsTrue result ↔ ((self.now.low ≤ℤ n) × (n ≤ℤ self.now.high)) }
    {
        self.low <= n && n <= self.high
    }
}

/// What an operator does with its operands.
#[derive(Clone, Copy, PartialEq, Eq, Debug)]
pub enum Op {
    Add,
    Sub,
    Mul,
    Div,
    Rem,
    Minus,
    BitAnd,
    BitOr,
    BitXor,
    BitNot,
    Shl,
    Shr,
    Eq,
    Ne,
    Lt,
    Le,
    Gt,
    Ge,
    /// `and`, which looks at its right operand only where the left is true.
    And,
    /// `or`, which looks at its right operand only where the left is false.
    Or,
    /// `not`.
    Not,
}

impl Op {
    /// Whether the operator takes two operands of the type (docs/LANGUAGE.md, "Types").
    pub fn takes_two(self, t: Scalar) -> bool
        ensures { result ≡ takes_two self t }
    {
        match self {
            Op::Add | Op::Sub | Op::Mul | Op::Div | Op::Rem => t.is_whole(),
            Op::BitAnd | Op::BitOr | Op::BitXor | Op::Shl | Op::Shr => matches!(t, Scalar::Bits(_)),
            Op::Eq | Op::Ne => true,
            Op::Lt | Op::Le | Op::Gt | Op::Ge => t.is_whole(),
            Op::And | Op::Or => matches!(t, Scalar::Bool),
            Op::Minus | Op::BitNot | Op::Not => false,
        }
    }

    /// Whether the operator takes one operand of the type.
    pub fn takes_one(self, t: Scalar) -> bool
        ensures { result ≡ takes_one self t }
    {
        match self {
            Op::Minus => matches!(t, Scalar::Int(_) | Scalar::Bits(_)),
            Op::BitNot => matches!(t, Scalar::Bits(_)),
            Op::Not => matches!(t, Scalar::Bool),
            _ => false,
        }
    }

    /// The type of what the operator gives for operands of the type.
    pub fn type_of_result(self, t: Scalar) -> Scalar
        ensures { result ≡ type_of_result self t }
    {
        match self {
            Op::Eq | Op::Ne | Op::Lt | Op::Le | Op::Gt | Op::Ge => Scalar::Bool,
            Op::And | Op::Or | Op::Not => Scalar::Bool,
            _ => t,
        }
    }
}
