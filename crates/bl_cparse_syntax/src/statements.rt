//! Statements, and what follows their beginnings.

use crate::choice::Choice;
use crate::grammar::{Class, Group, Part, Within};
use bl_grammar::Symbol;

pub static STMTS: [Choice; 1] = [Choice {
    on: &[
        Class::Name,
        Class::OneOf(Group::PreludeFunctions),
        Class::Exactly("("),
        Class::Exactly("if"),
        Class::Exactly("{"),
        Class::Exactly("break"),
        Class::Exactly("return"),
    ],
    needs: 0,
    production: &[
        Symbol::Nonterminal(Within {
            part: Part::Stmt,
            around: 0,
        }),
        Symbol::Nonterminal(Within {
            part: Part::Stmts,
            around: 0,
        }),
    ],
}];

pub static STMT: [Choice; 7] = [
    Choice {
        on: &[Class::Name],
        needs: 0,
        production: &[
            Symbol::Terminal(Class::Name),
            Symbol::Nonterminal(Within {
                part: Part::AfterName,
                around: 0,
            }),
        ],
    },
    Choice {
        on: &[Class::OneOf(Group::PreludeFunctions)],
        needs: 1,
        production: &[
            Symbol::Terminal(Class::OneOf(Group::PreludeFunctions)),
            Symbol::Terminal(Class::Exactly("(")),
            Symbol::Nonterminal(Within {
                part: Part::Args,
                around: 1,
            }),
            Symbol::Terminal(Class::Exactly(")")),
            Symbol::Terminal(Class::Exactly(";")),
        ],
    },
    Choice {
        on: &[Class::Exactly("(")],
        needs: 1,
        production: &[
            Symbol::Terminal(Class::Exactly("(")),
            Symbol::Terminal(Class::Exactly("*")),
            Symbol::Terminal(Class::Name),
            Symbol::Terminal(Class::Exactly(")")),
            Symbol::Nonterminal(Within {
                part: Part::AssignTail,
                around: 0,
            }),
        ],
    },
    Choice {
        on: &[Class::Exactly("if")],
        needs: 1,
        production: &[
            Symbol::Terminal(Class::Exactly("if")),
            Symbol::Terminal(Class::Exactly("(")),
            Symbol::Nonterminal(Within {
                part: Part::Expr,
                around: 1,
            }),
            Symbol::Terminal(Class::Exactly(")")),
            Symbol::Terminal(Class::Exactly("{")),
            Symbol::Nonterminal(Within {
                part: Part::Stmts,
                around: 1,
            }),
            Symbol::Terminal(Class::Exactly("}")),
            Symbol::Nonterminal(Within {
                part: Part::Else,
                around: 0,
            }),
        ],
    },
    Choice {
        on: &[Class::Exactly("{")],
        needs: 3,
        production: &[
            Symbol::Terminal(Class::Exactly("{")),
            Symbol::Terminal(Class::Exactly("uint32_t")),
            Symbol::Nonterminal(Within {
                part: Part::Turns,
                around: 0,
            }),
        ],
    },
    Choice {
        on: &[Class::Exactly("break")],
        needs: 0,
        production: &[
            Symbol::Terminal(Class::Exactly("break")),
            Symbol::Terminal(Class::Exactly(";")),
        ],
    },
    Choice {
        on: &[Class::Exactly("return")],
        needs: 0,
        production: &[
            Symbol::Terminal(Class::Exactly("return")),
            Symbol::Nonterminal(Within {
                part: Part::Result,
                around: 0,
            }),
        ],
    },
];

pub static ELSE: [Choice; 1] = [Choice {
    on: &[Class::Exactly("else")],
    needs: 0,
    production: &[
        Symbol::Terminal(Class::Exactly("else")),
        Symbol::Terminal(Class::Exactly("{")),
        Symbol::Nonterminal(Within {
            part: Part::Stmts,
            around: 1,
        }),
        Symbol::Terminal(Class::Exactly("}")),
    ],
}];

pub static TURNS: [Choice; 1] = [Choice {
    on: &[Class::Turn],
    needs: 0,
    production: &[
        Symbol::Terminal(Class::Turn),
        Symbol::Terminal(Class::Exactly("=")),
        Symbol::Terminal(Class::Exactly("0")),
        Symbol::Terminal(Class::Exactly(";")),
        Symbol::Terminal(Class::Exactly("while")),
        Symbol::Terminal(Class::Exactly("(")),
        Symbol::Nonterminal(Within {
            part: Part::Expr,
            around: 2,
        }),
        Symbol::Terminal(Class::Exactly(")")),
        Symbol::Terminal(Class::Exactly("{")),
        Symbol::Terminal(Class::Turn),
        Symbol::Terminal(Class::Exactly("=")),
        Symbol::Terminal(Class::Exactly("bl_turn")),
        Symbol::Terminal(Class::Exactly("(")),
        Symbol::Terminal(Class::Turn),
        Symbol::Terminal(Class::Exactly(")")),
        Symbol::Terminal(Class::Exactly(";")),
        Symbol::Nonterminal(Within {
            part: Part::Stmts,
            around: 2,
        }),
        Symbol::Terminal(Class::Exactly("}")),
        Symbol::Terminal(Class::Exactly("}")),
    ],
}];

pub static AFTER_NAME: [Choice; 2] = [
    Choice {
        on: &[Class::Exactly("(")],
        needs: 1,
        production: &[
            Symbol::Terminal(Class::Exactly("(")),
            Symbol::Nonterminal(Within {
                part: Part::Args,
                around: 1,
            }),
            Symbol::Terminal(Class::Exactly(")")),
            Symbol::Terminal(Class::Exactly(";")),
        ],
    },
    Choice {
        on: &[Class::Exactly("="), Class::Exactly(".")],
        needs: 0,
        production: &[Symbol::Nonterminal(Within {
            part: Part::AssignTail,
            around: 0,
        })],
    },
];

pub static ASSIGN_TAIL: [Choice; 2] = [
    Choice {
        on: &[Class::Exactly("=")],
        needs: 0,
        production: &[
            Symbol::Terminal(Class::Exactly("=")),
            Symbol::Nonterminal(Within {
                part: Part::Value,
                around: 0,
            }),
            Symbol::Terminal(Class::Exactly(";")),
        ],
    },
    Choice {
        on: &[Class::Exactly(".")],
        needs: 0,
        production: &[
            Symbol::Terminal(Class::Exactly(".")),
            Symbol::Terminal(Class::Name),
            Symbol::Nonterminal(Within {
                part: Part::Index,
                around: 0,
            }),
            Symbol::Nonterminal(Within {
                part: Part::AssignTail,
                around: 0,
            }),
        ],
    },
];

pub static VALUE: [Choice; 2] = [
    Choice {
        on: &[Class::Exactly("(")],
        needs: 1,
        production: &[
            Symbol::Terminal(Class::Exactly("(")),
            Symbol::Nonterminal(Within {
                part: Part::AfterOpen,
                around: 0,
            }),
        ],
    },
    Choice {
        on: &[
            Class::Name,
            Class::OneOf(Group::PreludeFunctions),
            Class::OneOf(Group::PlainLiterals),
            Class::Exactly("INT8_C"),
            Class::Exactly("INT16_C"),
            Class::Exactly("INT32_C"),
            Class::Exactly("INT64_C"),
            Class::Exactly("UINT8_C"),
            Class::Exactly("UINT16_C"),
            Class::Exactly("UINT32_C"),
            Class::Exactly("UINT64_C"),
        ],
        needs: 0,
        production: &[Symbol::Nonterminal(Within {
            part: Part::Simple,
            around: 0,
        })],
    },
];

pub static AFTER_OPEN: [Choice; 2] = [
    Choice {
        on: &[Class::Exactly("struct")],
        needs: 0,
        production: &[
            Symbol::Terminal(Class::Exactly("struct")),
            Symbol::Nonterminal(Within {
                part: Part::StructName,
                around: 0,
            }),
            Symbol::Terminal(Class::Exactly(")")),
            Symbol::Terminal(Class::Exactly("{")),
            Symbol::Terminal(Class::Exactly("0")),
            Symbol::Terminal(Class::Exactly("}")),
        ],
    },
    Choice {
        on: &[
            Class::Exactly("*"),
            Class::Exactly("!"),
            Class::Exactly("-"),
            Class::Exactly("("),
            Class::Name,
            Class::OneOf(Group::PreludeFunctions),
            Class::OneOf(Group::PlainLiterals),
            Class::Exactly("INT8_C"),
            Class::Exactly("INT16_C"),
            Class::Exactly("INT32_C"),
            Class::Exactly("INT64_C"),
            Class::Exactly("UINT8_C"),
            Class::Exactly("UINT16_C"),
            Class::Exactly("UINT32_C"),
            Class::Exactly("UINT64_C"),
        ],
        needs: 0,
        production: &[Symbol::Nonterminal(Within {
            part: Part::Inside,
            around: 0,
        })],
    },
];

pub static RESULT: [Choice; 2] = [
    Choice {
        on: &[Class::Exactly(";")],
        needs: 0,
        production: &[Symbol::Terminal(Class::Exactly(";"))],
    },
    Choice {
        on: &[
            Class::Exactly("("),
            Class::Name,
            Class::OneOf(Group::PreludeFunctions),
            Class::OneOf(Group::PlainLiterals),
            Class::Exactly("INT8_C"),
            Class::Exactly("INT16_C"),
            Class::Exactly("INT32_C"),
            Class::Exactly("INT64_C"),
            Class::Exactly("UINT8_C"),
            Class::Exactly("UINT16_C"),
            Class::Exactly("UINT32_C"),
            Class::Exactly("UINT64_C"),
        ],
        needs: 0,
        production: &[
            Symbol::Nonterminal(Within {
                part: Part::Expr,
                around: 0,
            }),
            Symbol::Terminal(Class::Exactly(";")),
        ],
    },
];
