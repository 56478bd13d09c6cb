//! What stands at the top of a text: structs, constants, units and their parameters and types.

use crate::choice::Choice;
use crate::grammar::{Class, Part};
use bl_grammar::Symbol;
use bl_lex::sign;
use bl_tree::token::Keyword;

/// The scalar types.
const SCALARS: [Class; 13] = [
    Class::Keyword(Keyword::Bool),
    Class::Keyword(Keyword::Int8),
    Class::Keyword(Keyword::Int16),
    Class::Keyword(Keyword::Int32),
    Class::Keyword(Keyword::Int64),
    Class::Keyword(Keyword::Nat8),
    Class::Keyword(Keyword::Nat16),
    Class::Keyword(Keyword::Nat32),
    Class::Keyword(Keyword::Nat64),
    Class::Keyword(Keyword::Bits8),
    Class::Keyword(Keyword::Bits16),
    Class::Keyword(Keyword::Bits32),
    Class::Keyword(Keyword::Bits64),
];

/// The classes that an item begins with.
const ITEM_STARTS: [Class; 5] = [
    Class::Keyword(Keyword::Struct),
    Class::Keyword(Keyword::Const),
    Class::Mark(sign::AT),
    Class::Keyword(Keyword::Function),
    Class::Keyword(Keyword::Activity),
];

/// The classes that a unit begins with.
const UNIT_STARTS: [Class; 3] = [
    Class::Mark(sign::AT),
    Class::Keyword(Keyword::Function),
    Class::Keyword(Keyword::Activity),
];

pub static PROGRAM: [Choice; 1] = [Choice {
    on: &ITEM_STARTS,
    production: &[
        Symbol::Nonterminal(Part::Item),
        Symbol::Nonterminal(Part::Program),
    ],
}];

pub static ITEM: [Choice; 3] = [
    Choice {
        on: &[Class::Keyword(Keyword::Struct)],
        production: &[Symbol::Nonterminal(Part::Struct)],
    },
    Choice {
        on: &[Class::Keyword(Keyword::Const)],
        production: &[Symbol::Nonterminal(Part::Constant)],
    },
    Choice {
        on: &UNIT_STARTS,
        production: &[Symbol::Nonterminal(Part::Unit)],
    },
];

pub static STRUCT: [Choice; 1] = [Choice {
    on: &[Class::Keyword(Keyword::Struct)],
    production: &[
        Symbol::Terminal(Class::Keyword(Keyword::Struct)),
        Symbol::Terminal(Class::AnyName),
        Symbol::Nonterminal(Part::Field),
        Symbol::Nonterminal(Part::Fields),
        Symbol::Terminal(Class::Keyword(Keyword::End)),
    ],
}];

pub static FIELD: [Choice; 1] = [Choice {
    on: &[Class::Keyword(Keyword::Var)],
    production: &[
        Symbol::Terminal(Class::Keyword(Keyword::Var)),
        Symbol::Terminal(Class::AnyName),
        Symbol::Terminal(Class::Mark(sign::COLON)),
        Symbol::Nonterminal(Part::Ty),
    ],
}];

pub static FIELDS: [Choice; 1] = [Choice {
    on: &[Class::Keyword(Keyword::Var)],
    production: &[
        Symbol::Nonterminal(Part::Field),
        Symbol::Nonterminal(Part::Fields),
    ],
}];

pub static CONSTANT: [Choice; 1] = [Choice {
    on: &[Class::Keyword(Keyword::Const)],
    production: &[
        Symbol::Terminal(Class::Keyword(Keyword::Const)),
        Symbol::Terminal(Class::AnyName),
        Symbol::Nonterminal(Part::TypeMark),
        Symbol::Terminal(Class::Mark(sign::ASSIGN)),
        Symbol::Nonterminal(Part::Expr),
    ],
}];

pub static TYPE_MARK: [Choice; 1] = [Choice {
    on: &[Class::Mark(sign::COLON)],
    production: &[
        Symbol::Terminal(Class::Mark(sign::COLON)),
        Symbol::Nonterminal(Part::Ty),
    ],
}];

pub static UNIT: [Choice; 2] = [
    Choice {
        on: &[Class::Mark(sign::AT)],
        production: &[
            Symbol::Terminal(Class::Mark(sign::AT)),
            Symbol::Terminal(Class::Mark(sign::OPEN_BRACKET)),
            Symbol::Terminal(Class::AnyName),
            Symbol::Terminal(Class::Mark(sign::CLOSE_BRACKET)),
            Symbol::Nonterminal(Part::PlainUnit),
        ],
    },
    Choice {
        on: &[
            Class::Keyword(Keyword::Function),
            Class::Keyword(Keyword::Activity),
        ],
        production: &[Symbol::Nonterminal(Part::PlainUnit)],
    },
];

pub static PLAIN_UNIT: [Choice; 2] = [
    Choice {
        on: &[Class::Keyword(Keyword::Function)],
        production: &[
            Symbol::Terminal(Class::Keyword(Keyword::Function)),
            Symbol::Terminal(Class::AnyName),
            Symbol::Nonterminal(Part::UnitTail),
        ],
    },
    Choice {
        on: &[Class::Keyword(Keyword::Activity)],
        production: &[
            Symbol::Terminal(Class::Keyword(Keyword::Activity)),
            Symbol::Terminal(Class::AnyName),
            Symbol::Nonterminal(Part::UnitTail),
        ],
    },
];

pub static UNIT_TAIL: [Choice; 1] = [Choice {
    on: &[Class::Mark(sign::OPEN_PAREN)],
    production: &[
        Symbol::Nonterminal(Part::Params),
        Symbol::Nonterminal(Part::SecondParams),
        Symbol::Nonterminal(Part::Returns),
        Symbol::Nonterminal(Part::Block),
        Symbol::Terminal(Class::Keyword(Keyword::End)),
    ],
}];

pub static PARAMS: [Choice; 1] = [Choice {
    on: &[Class::Mark(sign::OPEN_PAREN)],
    production: &[
        Symbol::Terminal(Class::Mark(sign::OPEN_PAREN)),
        Symbol::Nonterminal(Part::ParamList),
        Symbol::Terminal(Class::Mark(sign::CLOSE_PAREN)),
    ],
}];

pub static SECOND_PARAMS: [Choice; 1] = [Choice {
    on: &[Class::Mark(sign::OPEN_PAREN)],
    production: &[Symbol::Nonterminal(Part::Params)],
}];

pub static PARAM_LIST: [Choice; 1] = [Choice {
    on: &[Class::AnyName],
    production: &[
        Symbol::Nonterminal(Part::Param),
        Symbol::Nonterminal(Part::ParamRest),
    ],
}];

pub static PARAM_REST: [Choice; 1] = [Choice {
    on: &[Class::Mark(sign::COMMA)],
    production: &[
        Symbol::Terminal(Class::Mark(sign::COMMA)),
        Symbol::Nonterminal(Part::Param),
        Symbol::Nonterminal(Part::ParamRest),
    ],
}];

pub static PARAM: [Choice; 1] = [Choice {
    on: &[Class::AnyName],
    production: &[
        Symbol::Terminal(Class::AnyName),
        Symbol::Terminal(Class::Mark(sign::COLON)),
        Symbol::Nonterminal(Part::Ty),
    ],
}];

pub static RETURNS: [Choice; 1] = [Choice {
    on: &[Class::Keyword(Keyword::Returns)],
    production: &[
        Symbol::Terminal(Class::Keyword(Keyword::Returns)),
        Symbol::Nonterminal(Part::Ty),
    ],
}];

pub static TY: [Choice; 3] = [
    Choice {
        on: &SCALARS,
        production: &[Symbol::Nonterminal(Part::Scalar)],
    },
    Choice {
        on: &[Class::AnyName],
        production: &[Symbol::Terminal(Class::AnyName)],
    },
    Choice {
        on: &[Class::Mark(sign::OPEN_BRACKET)],
        production: &[
            Symbol::Terminal(Class::Mark(sign::OPEN_BRACKET)),
            Symbol::Nonterminal(Part::Length),
            Symbol::Terminal(Class::Mark(sign::CLOSE_BRACKET)),
            Symbol::Nonterminal(Part::Ty),
        ],
    },
];

pub static SCALAR: [Choice; 13] = [
    Choice {
        on: &[Class::Keyword(Keyword::Bool)],
        production: &[Symbol::Terminal(Class::Keyword(Keyword::Bool))],
    },
    Choice {
        on: &[Class::Keyword(Keyword::Int8)],
        production: &[Symbol::Terminal(Class::Keyword(Keyword::Int8))],
    },
    Choice {
        on: &[Class::Keyword(Keyword::Int16)],
        production: &[Symbol::Terminal(Class::Keyword(Keyword::Int16))],
    },
    Choice {
        on: &[Class::Keyword(Keyword::Int32)],
        production: &[Symbol::Terminal(Class::Keyword(Keyword::Int32))],
    },
    Choice {
        on: &[Class::Keyword(Keyword::Int64)],
        production: &[Symbol::Terminal(Class::Keyword(Keyword::Int64))],
    },
    Choice {
        on: &[Class::Keyword(Keyword::Nat8)],
        production: &[Symbol::Terminal(Class::Keyword(Keyword::Nat8))],
    },
    Choice {
        on: &[Class::Keyword(Keyword::Nat16)],
        production: &[Symbol::Terminal(Class::Keyword(Keyword::Nat16))],
    },
    Choice {
        on: &[Class::Keyword(Keyword::Nat32)],
        production: &[Symbol::Terminal(Class::Keyword(Keyword::Nat32))],
    },
    Choice {
        on: &[Class::Keyword(Keyword::Nat64)],
        production: &[Symbol::Terminal(Class::Keyword(Keyword::Nat64))],
    },
    Choice {
        on: &[Class::Keyword(Keyword::Bits8)],
        production: &[Symbol::Terminal(Class::Keyword(Keyword::Bits8))],
    },
    Choice {
        on: &[Class::Keyword(Keyword::Bits16)],
        production: &[Symbol::Terminal(Class::Keyword(Keyword::Bits16))],
    },
    Choice {
        on: &[Class::Keyword(Keyword::Bits32)],
        production: &[Symbol::Terminal(Class::Keyword(Keyword::Bits32))],
    },
    Choice {
        on: &[Class::Keyword(Keyword::Bits64)],
        production: &[Symbol::Terminal(Class::Keyword(Keyword::Bits64))],
    },
];

pub static LENGTH: [Choice; 2] = [
    Choice {
        on: &[Class::AnyNumber],
        production: &[Symbol::Terminal(Class::AnyNumber)],
    },
    Choice {
        on: &[Class::AnyName],
        production: &[Symbol::Terminal(Class::AnyName)],
    },
];
