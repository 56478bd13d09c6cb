//! Blocks, statements, and what calls and assignments are made of.

use crate::choice::Choice;
use crate::grammar::{Class, Part};
use bl_grammar::Symbol;
use bl_lex::sign;
use bl_tree::token::Keyword;

/// The classes that an expression begins with.
const EXPRESSION_STARTS: [Class; 9] = [
    Class::Mark(sign::MINUS),
    Class::Mark(sign::TILDE),
    Class::Keyword(Keyword::Not),
    Class::AnyNumber,
    Class::Keyword(Keyword::True),
    Class::Keyword(Keyword::False),
    Class::Keyword(Keyword::Prev),
    Class::AnyName,
    Class::Mark(sign::OPEN_PAREN),
];

/// The classes that a statement begins with.
const STATEMENT_STARTS: [Class; 12] = [
    Class::Keyword(Keyword::Var),
    Class::Keyword(Keyword::Let),
    Class::Keyword(Keyword::Const),
    Class::AnyName,
    Class::Keyword(Keyword::Await),
    Class::Keyword(Keyword::Run),
    Class::Keyword(Keyword::Cobegin),
    Class::Keyword(Keyword::When),
    Class::Keyword(Keyword::Repeat),
    Class::Keyword(Keyword::While),
    Class::Keyword(Keyword::If),
    Class::Keyword(Keyword::Return),
];

/// The classes that go on with an assignment after its first name.
const ASSIGN_STARTS: [Class; 3] = [
    Class::Mark(sign::ASSIGN),
    Class::Mark(sign::DOT),
    Class::Mark(sign::OPEN_BRACKET),
];

pub static BLOCK: [Choice; 1] = [Choice {
    on: &STATEMENT_STARTS,
    production: &[
        Symbol::Nonterminal(Part::Stmt),
        Symbol::Nonterminal(Part::Block),
    ],
}];

pub static STMT: [Choice; 12] = [
    Choice {
        on: &[Class::Keyword(Keyword::Var)],
        production: &[
            Symbol::Terminal(Class::Keyword(Keyword::Var)),
            Symbol::Terminal(Class::AnyName),
            Symbol::Nonterminal(Part::VarTail),
        ],
    },
    Choice {
        on: &[Class::Keyword(Keyword::Let)],
        production: &[
            Symbol::Terminal(Class::Keyword(Keyword::Let)),
            Symbol::Terminal(Class::AnyName),
            Symbol::Nonterminal(Part::TypeMark),
            Symbol::Terminal(Class::Mark(sign::ASSIGN)),
            Symbol::Nonterminal(Part::Expr),
        ],
    },
    Choice {
        on: &[Class::Keyword(Keyword::Const)],
        production: &[Symbol::Nonterminal(Part::Constant)],
    },
    Choice {
        on: &[Class::AnyName],
        production: &[
            Symbol::Terminal(Class::AnyName),
            Symbol::Nonterminal(Part::AfterName),
        ],
    },
    Choice {
        on: &[Class::Keyword(Keyword::Await)],
        production: &[
            Symbol::Terminal(Class::Keyword(Keyword::Await)),
            Symbol::Nonterminal(Part::Expr),
        ],
    },
    Choice {
        on: &[Class::Keyword(Keyword::Run)],
        production: &[
            Symbol::Terminal(Class::Keyword(Keyword::Run)),
            Symbol::Terminal(Class::AnyName),
            Symbol::Nonterminal(Part::RunTail),
        ],
    },
    Choice {
        on: &[Class::Keyword(Keyword::Cobegin)],
        production: &[
            Symbol::Terminal(Class::Keyword(Keyword::Cobegin)),
            Symbol::Nonterminal(Part::Weak),
            Symbol::Nonterminal(Part::Block),
            Symbol::Nonterminal(Part::Branches),
            Symbol::Terminal(Class::Keyword(Keyword::End)),
        ],
    },
    Choice {
        on: &[Class::Keyword(Keyword::When)],
        production: &[
            Symbol::Terminal(Class::Keyword(Keyword::When)),
            Symbol::Nonterminal(Part::Expr),
            Symbol::Nonterminal(Part::Guard),
            Symbol::Nonterminal(Part::Block),
            Symbol::Terminal(Class::Keyword(Keyword::End)),
        ],
    },
    Choice {
        on: &[Class::Keyword(Keyword::Repeat)],
        production: &[
            Symbol::Terminal(Class::Keyword(Keyword::Repeat)),
            Symbol::Nonterminal(Part::Block),
            Symbol::Nonterminal(Part::Until),
            Symbol::Terminal(Class::Keyword(Keyword::End)),
        ],
    },
    Choice {
        on: &[Class::Keyword(Keyword::While)],
        production: &[
            Symbol::Terminal(Class::Keyword(Keyword::While)),
            Symbol::Nonterminal(Part::Expr),
            Symbol::Terminal(Class::Keyword(Keyword::Repeat)),
            Symbol::Nonterminal(Part::Block),
            Symbol::Terminal(Class::Keyword(Keyword::End)),
        ],
    },
    Choice {
        on: &[Class::Keyword(Keyword::If)],
        production: &[
            Symbol::Terminal(Class::Keyword(Keyword::If)),
            Symbol::Nonterminal(Part::Expr),
            Symbol::Terminal(Class::Keyword(Keyword::Then)),
            Symbol::Nonterminal(Part::Block),
            Symbol::Nonterminal(Part::Elseifs),
            Symbol::Nonterminal(Part::Else),
            Symbol::Terminal(Class::Keyword(Keyword::End)),
        ],
    },
    Choice {
        on: &[Class::Keyword(Keyword::Return)],
        production: &[
            Symbol::Terminal(Class::Keyword(Keyword::Return)),
            Symbol::Nonterminal(Part::AfterReturn),
        ],
    },
];

pub static VAR_TAIL: [Choice; 2] = [
    Choice {
        on: &[Class::Mark(sign::COLON)],
        production: &[
            Symbol::Terminal(Class::Mark(sign::COLON)),
            Symbol::Nonterminal(Part::Ty),
            Symbol::Nonterminal(Part::Initial),
        ],
    },
    Choice {
        on: &[Class::Mark(sign::ASSIGN)],
        production: &[
            Symbol::Terminal(Class::Mark(sign::ASSIGN)),
            Symbol::Nonterminal(Part::Expr),
        ],
    },
];

pub static INITIAL: [Choice; 1] = [Choice {
    on: &[Class::Mark(sign::ASSIGN)],
    production: &[
        Symbol::Terminal(Class::Mark(sign::ASSIGN)),
        Symbol::Nonterminal(Part::Expr),
    ],
}];

pub static AFTER_NAME: [Choice; 2] = [
    Choice {
        on: &[Class::Mark(sign::OPEN_PAREN)],
        production: &[Symbol::Nonterminal(Part::CallTail)],
    },
    Choice {
        on: &ASSIGN_STARTS,
        production: &[Symbol::Nonterminal(Part::AssignTail)],
    },
];

pub static CALL_TAIL: [Choice; 1] = [Choice {
    on: &[Class::Mark(sign::OPEN_PAREN)],
    production: &[
        Symbol::Nonterminal(Part::Inputs),
        Symbol::Nonterminal(Part::SecondOutputs),
    ],
}];

pub static ASSIGN_TAIL: [Choice; 2] = [
    Choice {
        on: &[Class::Mark(sign::ASSIGN)],
        production: &[
            Symbol::Terminal(Class::Mark(sign::ASSIGN)),
            Symbol::Nonterminal(Part::Expr),
        ],
    },
    Choice {
        on: &[Class::Mark(sign::DOT), Class::Mark(sign::OPEN_BRACKET)],
        production: &[
            Symbol::Nonterminal(Part::Access),
            Symbol::Nonterminal(Part::AssignTail),
        ],
    },
];

pub static ACCESS: [Choice; 2] = [
    Choice {
        on: &[Class::Mark(sign::DOT)],
        production: &[
            Symbol::Terminal(Class::Mark(sign::DOT)),
            Symbol::Terminal(Class::AnyName),
        ],
    },
    Choice {
        on: &[Class::Mark(sign::OPEN_BRACKET)],
        production: &[
            Symbol::Terminal(Class::Mark(sign::OPEN_BRACKET)),
            Symbol::Nonterminal(Part::Expr),
            Symbol::Terminal(Class::Mark(sign::CLOSE_BRACKET)),
        ],
    },
];

pub static ACCESSES: [Choice; 1] = [Choice {
    on: &[Class::Mark(sign::DOT), Class::Mark(sign::OPEN_BRACKET)],
    production: &[
        Symbol::Nonterminal(Part::Access),
        Symbol::Nonterminal(Part::Accesses),
    ],
}];

pub static RUN_TAIL: [Choice; 2] = [
    Choice {
        on: &[Class::Mark(sign::OPEN_PAREN)],
        production: &[Symbol::Nonterminal(Part::CallTail)],
    },
    Choice {
        on: &[Class::Mark(sign::DOT), Class::Mark(sign::ASSIGN)],
        production: &[Symbol::Nonterminal(Part::RunTarget)],
    },
];

pub static RUN_TARGET: [Choice; 2] = [
    Choice {
        on: &[Class::Mark(sign::DOT)],
        production: &[
            Symbol::Terminal(Class::Mark(sign::DOT)),
            Symbol::Terminal(Class::AnyName),
            Symbol::Nonterminal(Part::RunTarget),
        ],
    },
    Choice {
        on: &[Class::Mark(sign::ASSIGN)],
        production: &[
            Symbol::Terminal(Class::Mark(sign::ASSIGN)),
            Symbol::Terminal(Class::AnyName),
            Symbol::Nonterminal(Part::CallTail),
        ],
    },
];

pub static WEAK: [Choice; 1] = [Choice {
    on: &[Class::Keyword(Keyword::Weak)],
    production: &[Symbol::Terminal(Class::Keyword(Keyword::Weak))],
}];

pub static BRANCHES: [Choice; 1] = [Choice {
    on: &[Class::Keyword(Keyword::With)],
    production: &[
        Symbol::Terminal(Class::Keyword(Keyword::With)),
        Symbol::Nonterminal(Part::Weak),
        Symbol::Nonterminal(Part::Block),
        Symbol::Nonterminal(Part::Branches),
    ],
}];

pub static GUARD: [Choice; 2] = [
    Choice {
        on: &[Class::Keyword(Keyword::Abort)],
        production: &[Symbol::Terminal(Class::Keyword(Keyword::Abort))],
    },
    Choice {
        on: &[Class::Keyword(Keyword::Reset)],
        production: &[Symbol::Terminal(Class::Keyword(Keyword::Reset))],
    },
];

pub static UNTIL: [Choice; 1] = [Choice {
    on: &[Class::Keyword(Keyword::Until)],
    production: &[
        Symbol::Terminal(Class::Keyword(Keyword::Until)),
        Symbol::Nonterminal(Part::Expr),
    ],
}];

pub static ELSEIFS: [Choice; 1] = [Choice {
    on: &[Class::Keyword(Keyword::Elseif)],
    production: &[
        Symbol::Terminal(Class::Keyword(Keyword::Elseif)),
        Symbol::Nonterminal(Part::Expr),
        Symbol::Terminal(Class::Keyword(Keyword::Then)),
        Symbol::Nonterminal(Part::Block),
        Symbol::Nonterminal(Part::Elseifs),
    ],
}];

pub static ELSE: [Choice; 1] = [Choice {
    on: &[Class::Keyword(Keyword::Else)],
    production: &[
        Symbol::Terminal(Class::Keyword(Keyword::Else)),
        Symbol::Nonterminal(Part::Block),
    ],
}];

pub static AFTER_RETURN: [Choice; 1] = [Choice {
    on: &EXPRESSION_STARTS,
    production: &[Symbol::Nonterminal(Part::Expr)],
}];

pub static INPUTS: [Choice; 1] = [Choice {
    on: &[Class::Mark(sign::OPEN_PAREN)],
    production: &[
        Symbol::Terminal(Class::Mark(sign::OPEN_PAREN)),
        Symbol::Nonterminal(Part::InputList),
        Symbol::Terminal(Class::Mark(sign::CLOSE_PAREN)),
    ],
}];

pub static INPUT_LIST: [Choice; 1] = [Choice {
    on: &EXPRESSION_STARTS,
    production: &[
        Symbol::Nonterminal(Part::Expr),
        Symbol::Nonterminal(Part::InputRest),
    ],
}];

pub static INPUT_REST: [Choice; 1] = [Choice {
    on: &[Class::Mark(sign::COMMA)],
    production: &[
        Symbol::Terminal(Class::Mark(sign::COMMA)),
        Symbol::Nonterminal(Part::Expr),
        Symbol::Nonterminal(Part::InputRest),
    ],
}];

pub static OUTPUTS: [Choice; 1] = [Choice {
    on: &[Class::Mark(sign::OPEN_PAREN)],
    production: &[
        Symbol::Terminal(Class::Mark(sign::OPEN_PAREN)),
        Symbol::Nonterminal(Part::OutputList),
        Symbol::Terminal(Class::Mark(sign::CLOSE_PAREN)),
    ],
}];

pub static SECOND_OUTPUTS: [Choice; 1] = [Choice {
    on: &[Class::Mark(sign::OPEN_PAREN)],
    production: &[Symbol::Nonterminal(Part::Outputs)],
}];

pub static OUTPUT_LIST: [Choice; 1] = [Choice {
    on: &[Class::AnyName],
    production: &[
        Symbol::Nonterminal(Part::Path),
        Symbol::Nonterminal(Part::OutputRest),
    ],
}];

pub static OUTPUT_REST: [Choice; 1] = [Choice {
    on: &[Class::Mark(sign::COMMA)],
    production: &[
        Symbol::Terminal(Class::Mark(sign::COMMA)),
        Symbol::Nonterminal(Part::Path),
        Symbol::Nonterminal(Part::OutputRest),
    ],
}];

pub static PATH: [Choice; 1] = [Choice {
    on: &[Class::AnyName],
    production: &[
        Symbol::Terminal(Class::AnyName),
        Symbol::Nonterminal(Part::PathRest),
    ],
}];

pub static PATH_REST: [Choice; 1] = [Choice {
    on: &[Class::Mark(sign::DOT)],
    production: &[
        Symbol::Terminal(Class::Mark(sign::DOT)),
        Symbol::Terminal(Class::AnyName),
        Symbol::Nonterminal(Part::PathRest),
    ],
}];
