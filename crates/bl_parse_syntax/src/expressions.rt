//! Expressions, one part a level of binding.

use crate::choice::Choice;
use crate::grammar::{Class, Part};
use bl_grammar::Symbol;
use bl_lex::sign;
use bl_tree::token::Keyword;

/// The classes that an expression begins with.
const EXPRESSION_STARTS: [Class; 9] = [
    Class::Mark(sign::MINUS),
    Class::Mark(sign::TILDE),
    Class::Keyword(Keyword::Not),
    Class::AnyNumber,
    Class::Keyword(Keyword::True),
    Class::Keyword(Keyword::False),
    Class::Keyword(Keyword::Prev),
    Class::AnyName,
    Class::Mark(sign::OPEN_PAREN),
];

/// The classes that an operand without a sign begins with.
const PRIMARY_STARTS: [Class; 6] = [
    Class::AnyNumber,
    Class::Keyword(Keyword::True),
    Class::Keyword(Keyword::False),
    Class::Keyword(Keyword::Prev),
    Class::AnyName,
    Class::Mark(sign::OPEN_PAREN),
];

pub static EXPR: [Choice; 1] = [Choice {
    on: &EXPRESSION_STARTS,
    production: &[
        Symbol::Nonterminal(Part::And),
        Symbol::Nonterminal(Part::ExprRest),
    ],
}];

pub static EXPR_REST: [Choice; 1] = [Choice {
    on: &[Class::Keyword(Keyword::Or)],
    production: &[
        Symbol::Terminal(Class::Keyword(Keyword::Or)),
        Symbol::Nonterminal(Part::And),
        Symbol::Nonterminal(Part::ExprRest),
    ],
}];

pub static AND: [Choice; 1] = [Choice {
    on: &EXPRESSION_STARTS,
    production: &[
        Symbol::Nonterminal(Part::Comparison),
        Symbol::Nonterminal(Part::AndRest),
    ],
}];

pub static AND_REST: [Choice; 1] = [Choice {
    on: &[Class::Keyword(Keyword::And)],
    production: &[
        Symbol::Terminal(Class::Keyword(Keyword::And)),
        Symbol::Nonterminal(Part::Comparison),
        Symbol::Nonterminal(Part::AndRest),
    ],
}];

pub static COMPARISON: [Choice; 1] = [Choice {
    on: &EXPRESSION_STARTS,
    production: &[
        Symbol::Nonterminal(Part::BitOr),
        Symbol::Nonterminal(Part::ComparisonRest),
    ],
}];

pub static COMPARISON_REST: [Choice; 6] = [
    Choice {
        on: &[Class::Mark(sign::EQUAL)],
        production: &[
            Symbol::Terminal(Class::Mark(sign::EQUAL)),
            Symbol::Nonterminal(Part::BitOr),
        ],
    },
    Choice {
        on: &[Class::Mark(sign::NOT_EQUAL)],
        production: &[
            Symbol::Terminal(Class::Mark(sign::NOT_EQUAL)),
            Symbol::Nonterminal(Part::BitOr),
        ],
    },
    Choice {
        on: &[Class::Mark(sign::LESS)],
        production: &[
            Symbol::Terminal(Class::Mark(sign::LESS)),
            Symbol::Nonterminal(Part::BitOr),
        ],
    },
    Choice {
        on: &[Class::Mark(sign::LESS_OR_EQUAL)],
        production: &[
            Symbol::Terminal(Class::Mark(sign::LESS_OR_EQUAL)),
            Symbol::Nonterminal(Part::BitOr),
        ],
    },
    Choice {
        on: &[Class::Mark(sign::GREATER)],
        production: &[
            Symbol::Terminal(Class::Mark(sign::GREATER)),
            Symbol::Nonterminal(Part::BitOr),
        ],
    },
    Choice {
        on: &[Class::Mark(sign::GREATER_OR_EQUAL)],
        production: &[
            Symbol::Terminal(Class::Mark(sign::GREATER_OR_EQUAL)),
            Symbol::Nonterminal(Part::BitOr),
        ],
    },
];

pub static BIT_OR: [Choice; 1] = [Choice {
    on: &EXPRESSION_STARTS,
    production: &[
        Symbol::Nonterminal(Part::BitXor),
        Symbol::Nonterminal(Part::BitOrRest),
    ],
}];

pub static BIT_OR_REST: [Choice; 1] = [Choice {
    on: &[Class::Mark(sign::BAR)],
    production: &[
        Symbol::Terminal(Class::Mark(sign::BAR)),
        Symbol::Nonterminal(Part::BitXor),
        Symbol::Nonterminal(Part::BitOrRest),
    ],
}];

pub static BIT_XOR: [Choice; 1] = [Choice {
    on: &EXPRESSION_STARTS,
    production: &[
        Symbol::Nonterminal(Part::BitAnd),
        Symbol::Nonterminal(Part::BitXorRest),
    ],
}];

pub static BIT_XOR_REST: [Choice; 1] = [Choice {
    on: &[Class::Mark(sign::CARET)],
    production: &[
        Symbol::Terminal(Class::Mark(sign::CARET)),
        Symbol::Nonterminal(Part::BitAnd),
        Symbol::Nonterminal(Part::BitXorRest),
    ],
}];

pub static BIT_AND: [Choice; 1] = [Choice {
    on: &EXPRESSION_STARTS,
    production: &[
        Symbol::Nonterminal(Part::Shift),
        Symbol::Nonterminal(Part::BitAndRest),
    ],
}];

pub static BIT_AND_REST: [Choice; 1] = [Choice {
    on: &[Class::Mark(sign::AMPERSAND)],
    production: &[
        Symbol::Terminal(Class::Mark(sign::AMPERSAND)),
        Symbol::Nonterminal(Part::Shift),
        Symbol::Nonterminal(Part::BitAndRest),
    ],
}];

pub static SHIFT: [Choice; 1] = [Choice {
    on: &EXPRESSION_STARTS,
    production: &[
        Symbol::Nonterminal(Part::Sum),
        Symbol::Nonterminal(Part::ShiftRest),
    ],
}];

pub static SHIFT_REST: [Choice; 2] = [
    Choice {
        on: &[Class::Mark(sign::SHIFT_LEFT)],
        production: &[
            Symbol::Terminal(Class::Mark(sign::SHIFT_LEFT)),
            Symbol::Nonterminal(Part::Sum),
            Symbol::Nonterminal(Part::ShiftRest),
        ],
    },
    Choice {
        on: &[Class::Mark(sign::SHIFT_RIGHT)],
        production: &[
            Symbol::Terminal(Class::Mark(sign::SHIFT_RIGHT)),
            Symbol::Nonterminal(Part::Sum),
            Symbol::Nonterminal(Part::ShiftRest),
        ],
    },
];

pub static SUM: [Choice; 1] = [Choice {
    on: &EXPRESSION_STARTS,
    production: &[
        Symbol::Nonterminal(Part::Product),
        Symbol::Nonterminal(Part::SumRest),
    ],
}];

pub static SUM_REST: [Choice; 2] = [
    Choice {
        on: &[Class::Mark(sign::PLUS)],
        production: &[
            Symbol::Terminal(Class::Mark(sign::PLUS)),
            Symbol::Nonterminal(Part::Product),
            Symbol::Nonterminal(Part::SumRest),
        ],
    },
    Choice {
        on: &[Class::Mark(sign::MINUS)],
        production: &[
            Symbol::Terminal(Class::Mark(sign::MINUS)),
            Symbol::Nonterminal(Part::Product),
            Symbol::Nonterminal(Part::SumRest),
        ],
    },
];

pub static PRODUCT: [Choice; 1] = [Choice {
    on: &EXPRESSION_STARTS,
    production: &[
        Symbol::Nonterminal(Part::Cast),
        Symbol::Nonterminal(Part::ProductRest),
    ],
}];

pub static PRODUCT_REST: [Choice; 3] = [
    Choice {
        on: &[Class::Mark(sign::STAR)],
        production: &[
            Symbol::Terminal(Class::Mark(sign::STAR)),
            Symbol::Nonterminal(Part::Cast),
            Symbol::Nonterminal(Part::ProductRest),
        ],
    },
    Choice {
        on: &[Class::Mark(sign::SLASH)],
        production: &[
            Symbol::Terminal(Class::Mark(sign::SLASH)),
            Symbol::Nonterminal(Part::Cast),
            Symbol::Nonterminal(Part::ProductRest),
        ],
    },
    Choice {
        on: &[Class::Mark(sign::PERCENT)],
        production: &[
            Symbol::Terminal(Class::Mark(sign::PERCENT)),
            Symbol::Nonterminal(Part::Cast),
            Symbol::Nonterminal(Part::ProductRest),
        ],
    },
];

pub static CAST: [Choice; 1] = [Choice {
    on: &EXPRESSION_STARTS,
    production: &[
        Symbol::Nonterminal(Part::Unary),
        Symbol::Nonterminal(Part::CastRest),
    ],
}];

pub static CAST_REST: [Choice; 1] = [Choice {
    on: &[Class::Keyword(Keyword::As)],
    production: &[
        Symbol::Terminal(Class::Keyword(Keyword::As)),
        Symbol::Nonterminal(Part::Scalar),
        Symbol::Nonterminal(Part::CastRest),
    ],
}];

pub static UNARY: [Choice; 4] = [
    Choice {
        on: &[Class::Mark(sign::MINUS)],
        production: &[
            Symbol::Terminal(Class::Mark(sign::MINUS)),
            Symbol::Nonterminal(Part::Unary),
        ],
    },
    Choice {
        on: &[Class::Mark(sign::TILDE)],
        production: &[
            Symbol::Terminal(Class::Mark(sign::TILDE)),
            Symbol::Nonterminal(Part::Unary),
        ],
    },
    Choice {
        on: &[Class::Keyword(Keyword::Not)],
        production: &[
            Symbol::Terminal(Class::Keyword(Keyword::Not)),
            Symbol::Nonterminal(Part::Unary),
        ],
    },
    Choice {
        on: &PRIMARY_STARTS,
        production: &[Symbol::Nonterminal(Part::Primary)],
    },
];

pub static PRIMARY: [Choice; 6] = [
    Choice {
        on: &[Class::AnyNumber],
        production: &[Symbol::Terminal(Class::AnyNumber)],
    },
    Choice {
        on: &[Class::Keyword(Keyword::True)],
        production: &[Symbol::Terminal(Class::Keyword(Keyword::True))],
    },
    Choice {
        on: &[Class::Keyword(Keyword::False)],
        production: &[Symbol::Terminal(Class::Keyword(Keyword::False))],
    },
    Choice {
        on: &[Class::Keyword(Keyword::Prev)],
        production: &[
            Symbol::Terminal(Class::Keyword(Keyword::Prev)),
            Symbol::Terminal(Class::AnyName),
        ],
    },
    Choice {
        on: &[Class::AnyName],
        production: &[
            Symbol::Terminal(Class::AnyName),
            Symbol::Nonterminal(Part::NameUse),
        ],
    },
    Choice {
        on: &[Class::Mark(sign::OPEN_PAREN)],
        production: &[
            Symbol::Terminal(Class::Mark(sign::OPEN_PAREN)),
            Symbol::Nonterminal(Part::Expr),
            Symbol::Terminal(Class::Mark(sign::CLOSE_PAREN)),
        ],
    },
];

pub static NAME_USE: [Choice; 2] = [
    Choice {
        on: &[Class::Mark(sign::OPEN_PAREN)],
        production: &[
            Symbol::Nonterminal(Part::Inputs),
            Symbol::Nonterminal(Part::NoOutputs),
        ],
    },
    Choice {
        on: &[Class::Mark(sign::DOT), Class::Mark(sign::OPEN_BRACKET)],
        production: &[
            Symbol::Nonterminal(Part::Access),
            Symbol::Nonterminal(Part::Accesses),
        ],
    },
];

pub static NO_OUTPUTS: [Choice; 1] = [Choice {
    on: &[Class::Mark(sign::OPEN_PAREN)],
    production: &[
        Symbol::Terminal(Class::Mark(sign::OPEN_PAREN)),
        Symbol::Terminal(Class::Mark(sign::CLOSE_PAREN)),
    ],
}];
