//! Expressions, and what places, calls and literals are made of.

use crate::choice::Choice;
use crate::grammar::{Class, Digits, Group, Part, Within};
use bl_grammar::Symbol;
use bl_tree::Width;

pub static EXPR: [Choice; 2] = [
    Choice {
        on: &[Class::Exactly("(")],
        needs: 1,
        production: &[
            Symbol::Terminal(Class::Exactly("(")),
            Symbol::Nonterminal(Within {
                part: Part::Inside,
                around: 0,
            }),
        ],
    },
    Choice {
        on: &[
            Class::Name,
            Class::OneOf(Group::PreludeFunctions),
            Class::OneOf(Group::PlainLiterals),
            Class::Exactly("INT8_C"),
            Class::Exactly("INT16_C"),
            Class::Exactly("INT32_C"),
            Class::Exactly("INT64_C"),
            Class::Exactly("UINT8_C"),
            Class::Exactly("UINT16_C"),
            Class::Exactly("UINT32_C"),
            Class::Exactly("UINT64_C"),
        ],
        needs: 0,
        production: &[Symbol::Nonterminal(Within {
            part: Part::Simple,
            around: 0,
        })],
    },
];

pub static SIMPLE: [Choice; 4] = [
    Choice {
        on: &[Class::Name],
        needs: 0,
        production: &[
            Symbol::Terminal(Class::Name),
            Symbol::Nonterminal(Within {
                part: Part::NameUse,
                around: 0,
            }),
        ],
    },
    Choice {
        on: &[Class::OneOf(Group::PreludeFunctions)],
        needs: 1,
        production: &[
            Symbol::Terminal(Class::OneOf(Group::PreludeFunctions)),
            Symbol::Terminal(Class::Exactly("(")),
            Symbol::Nonterminal(Within {
                part: Part::Args,
                around: 1,
            }),
            Symbol::Terminal(Class::Exactly(")")),
        ],
    },
    Choice {
        on: &[Class::OneOf(Group::PlainLiterals)],
        needs: 0,
        production: &[Symbol::Terminal(Class::OneOf(Group::PlainLiterals))],
    },
    Choice {
        on: &[
            Class::Exactly("INT8_C"),
            Class::Exactly("INT16_C"),
            Class::Exactly("INT32_C"),
            Class::Exactly("INT64_C"),
            Class::Exactly("UINT8_C"),
            Class::Exactly("UINT16_C"),
            Class::Exactly("UINT32_C"),
            Class::Exactly("UINT64_C"),
        ],
        needs: 1,
        production: &[Symbol::Nonterminal(Within {
            part: Part::Constant,
            around: 0,
        })],
    },
];

pub static CONSTANT: [Choice; 8] = [
    Choice {
        on: &[Class::Exactly("INT8_C")],
        needs: 0,
        production: &[
            Symbol::Terminal(Class::Exactly("INT8_C")),
            Symbol::Terminal(Class::Exactly("(")),
            Symbol::Terminal(Class::Number(Digits::Int(Width::W8))),
            Symbol::Terminal(Class::Exactly(")")),
        ],
    },
    Choice {
        on: &[Class::Exactly("INT16_C")],
        needs: 0,
        production: &[
            Symbol::Terminal(Class::Exactly("INT16_C")),
            Symbol::Terminal(Class::Exactly("(")),
            Symbol::Terminal(Class::Number(Digits::Int(Width::W16))),
            Symbol::Terminal(Class::Exactly(")")),
        ],
    },
    Choice {
        on: &[Class::Exactly("INT32_C")],
        needs: 0,
        production: &[
            Symbol::Terminal(Class::Exactly("INT32_C")),
            Symbol::Terminal(Class::Exactly("(")),
            Symbol::Terminal(Class::Number(Digits::Int(Width::W32))),
            Symbol::Terminal(Class::Exactly(")")),
        ],
    },
    Choice {
        on: &[Class::Exactly("INT64_C")],
        needs: 0,
        production: &[
            Symbol::Terminal(Class::Exactly("INT64_C")),
            Symbol::Terminal(Class::Exactly("(")),
            Symbol::Terminal(Class::Number(Digits::Int(Width::W64))),
            Symbol::Terminal(Class::Exactly(")")),
        ],
    },
    Choice {
        on: &[Class::Exactly("UINT8_C")],
        needs: 0,
        production: &[
            Symbol::Terminal(Class::Exactly("UINT8_C")),
            Symbol::Terminal(Class::Exactly("(")),
            Symbol::Terminal(Class::Number(Digits::Unsigned(Width::W8))),
            Symbol::Terminal(Class::Exactly(")")),
        ],
    },
    Choice {
        on: &[Class::Exactly("UINT16_C")],
        needs: 0,
        production: &[
            Symbol::Terminal(Class::Exactly("UINT16_C")),
            Symbol::Terminal(Class::Exactly("(")),
            Symbol::Terminal(Class::Number(Digits::Unsigned(Width::W16))),
            Symbol::Terminal(Class::Exactly(")")),
        ],
    },
    Choice {
        on: &[Class::Exactly("UINT32_C")],
        needs: 0,
        production: &[
            Symbol::Terminal(Class::Exactly("UINT32_C")),
            Symbol::Terminal(Class::Exactly("(")),
            Symbol::Terminal(Class::Number(Digits::Unsigned(Width::W32))),
            Symbol::Terminal(Class::Exactly(")")),
        ],
    },
    Choice {
        on: &[Class::Exactly("UINT64_C")],
        needs: 0,
        production: &[
            Symbol::Terminal(Class::Exactly("UINT64_C")),
            Symbol::Terminal(Class::Exactly("(")),
            Symbol::Terminal(Class::Number(Digits::Unsigned(Width::W64))),
            Symbol::Terminal(Class::Exactly(")")),
        ],
    },
];

pub static INSIDE: [Choice; 4] = [
    Choice {
        on: &[Class::Exactly("*")],
        needs: 0,
        production: &[
            Symbol::Terminal(Class::Exactly("*")),
            Symbol::Terminal(Class::Name),
            Symbol::Terminal(Class::Exactly(")")),
            Symbol::Nonterminal(Within {
                part: Part::Steps,
                around: 0,
            }),
        ],
    },
    Choice {
        on: &[Class::Exactly("!")],
        needs: 0,
        production: &[
            Symbol::Terminal(Class::Exactly("!")),
            Symbol::Nonterminal(Within {
                part: Part::Expr,
                around: 1,
            }),
            Symbol::Terminal(Class::Exactly(")")),
        ],
    },
    Choice {
        on: &[Class::Exactly("-")],
        needs: 2,
        production: &[
            Symbol::Terminal(Class::Exactly("-")),
            Symbol::Nonterminal(Within {
                part: Part::Negative,
                around: 0,
            }),
            Symbol::Terminal(Class::Exactly(")")),
        ],
    },
    Choice {
        on: &[
            Class::Exactly("("),
            Class::Name,
            Class::OneOf(Group::PreludeFunctions),
            Class::OneOf(Group::PlainLiterals),
            Class::Exactly("INT8_C"),
            Class::Exactly("INT16_C"),
            Class::Exactly("INT32_C"),
            Class::Exactly("INT64_C"),
            Class::Exactly("UINT8_C"),
            Class::Exactly("UINT16_C"),
            Class::Exactly("UINT32_C"),
            Class::Exactly("UINT64_C"),
        ],
        needs: 0,
        production: &[
            Symbol::Nonterminal(Within {
                part: Part::Expr,
                around: 1,
            }),
            Symbol::Terminal(Class::OneOf(Group::Operators)),
            Symbol::Nonterminal(Within {
                part: Part::Expr,
                around: 1,
            }),
            Symbol::Terminal(Class::Exactly(")")),
        ],
    },
];

pub static NEGATIVE: [Choice; 4] = [
    Choice {
        on: &[Class::Exactly("INT8_C")],
        needs: 0,
        production: &[
            Symbol::Terminal(Class::Exactly("INT8_C")),
            Symbol::Terminal(Class::Exactly("(")),
            Symbol::Terminal(Class::Number(Digits::Negated(Width::W8))),
            Symbol::Terminal(Class::Exactly(")")),
        ],
    },
    Choice {
        on: &[Class::Exactly("INT16_C")],
        needs: 0,
        production: &[
            Symbol::Terminal(Class::Exactly("INT16_C")),
            Symbol::Terminal(Class::Exactly("(")),
            Symbol::Terminal(Class::Number(Digits::Negated(Width::W16))),
            Symbol::Terminal(Class::Exactly(")")),
        ],
    },
    Choice {
        on: &[Class::Exactly("INT32_C")],
        needs: 0,
        production: &[
            Symbol::Terminal(Class::Exactly("INT32_C")),
            Symbol::Terminal(Class::Exactly("(")),
            Symbol::Terminal(Class::Number(Digits::Negated(Width::W32))),
            Symbol::Terminal(Class::Exactly(")")),
        ],
    },
    Choice {
        on: &[Class::Exactly("INT64_C")],
        needs: 0,
        production: &[
            Symbol::Terminal(Class::Exactly("INT64_C")),
            Symbol::Terminal(Class::Exactly("(")),
            Symbol::Terminal(Class::Number(Digits::Negated(Width::W64))),
            Symbol::Terminal(Class::Exactly(")")),
        ],
    },
];

pub static NAME_USE: [Choice; 2] = [
    Choice {
        on: &[Class::Exactly("(")],
        needs: 1,
        production: &[
            Symbol::Terminal(Class::Exactly("(")),
            Symbol::Nonterminal(Within {
                part: Part::Args,
                around: 1,
            }),
            Symbol::Terminal(Class::Exactly(")")),
        ],
    },
    Choice {
        on: &[Class::Exactly(".")],
        needs: 0,
        production: &[
            Symbol::Terminal(Class::Exactly(".")),
            Symbol::Terminal(Class::Name),
            Symbol::Nonterminal(Within {
                part: Part::Index,
                around: 0,
            }),
            Symbol::Nonterminal(Within {
                part: Part::Steps,
                around: 0,
            }),
        ],
    },
];

pub static STEPS: [Choice; 1] = [Choice {
    on: &[Class::Exactly(".")],
    needs: 0,
    production: &[
        Symbol::Terminal(Class::Exactly(".")),
        Symbol::Terminal(Class::Name),
        Symbol::Nonterminal(Within {
            part: Part::Index,
            around: 0,
        }),
        Symbol::Nonterminal(Within {
            part: Part::Steps,
            around: 0,
        }),
    ],
}];

pub static INDEX: [Choice; 1] = [Choice {
    on: &[Class::Exactly("[")],
    needs: 2,
    production: &[
        Symbol::Terminal(Class::Exactly("[")),
        Symbol::Terminal(Class::OneOf(Group::IndexFunctions)),
        Symbol::Terminal(Class::Exactly("(")),
        Symbol::Nonterminal(Within {
            part: Part::Expr,
            around: 2,
        }),
        Symbol::Terminal(Class::Exactly(",")),
        Symbol::Terminal(Class::Number(Digits::Elements)),
        Symbol::Terminal(Class::Exactly(")")),
        Symbol::Terminal(Class::Exactly("]")),
    ],
}];

pub static ARGS: [Choice; 1] = [Choice {
    on: &[
        Class::Exactly("&"),
        Class::Exactly("("),
        Class::Name,
        Class::OneOf(Group::PreludeFunctions),
        Class::OneOf(Group::PlainLiterals),
        Class::Exactly("INT8_C"),
        Class::Exactly("INT16_C"),
        Class::Exactly("INT32_C"),
        Class::Exactly("INT64_C"),
        Class::Exactly("UINT8_C"),
        Class::Exactly("UINT16_C"),
        Class::Exactly("UINT32_C"),
        Class::Exactly("UINT64_C"),
    ],
    needs: 0,
    production: &[
        Symbol::Nonterminal(Within {
            part: Part::Arg,
            around: 0,
        }),
        Symbol::Nonterminal(Within {
            part: Part::ArgRest,
            around: 0,
        }),
    ],
}];

pub static ARG_REST: [Choice; 1] = [Choice {
    on: &[Class::Exactly(",")],
    needs: 0,
    production: &[
        Symbol::Terminal(Class::Exactly(",")),
        Symbol::Nonterminal(Within {
            part: Part::Arg,
            around: 0,
        }),
        Symbol::Nonterminal(Within {
            part: Part::ArgRest,
            around: 0,
        }),
    ],
}];

pub static ARG: [Choice; 2] = [
    Choice {
        on: &[Class::Exactly("&")],
        needs: 0,
        production: &[
            Symbol::Terminal(Class::Exactly("&")),
            Symbol::Nonterminal(Within {
                part: Part::Place,
                around: 0,
            }),
        ],
    },
    Choice {
        on: &[
            Class::Exactly("("),
            Class::Name,
            Class::OneOf(Group::PreludeFunctions),
            Class::OneOf(Group::PlainLiterals),
            Class::Exactly("INT8_C"),
            Class::Exactly("INT16_C"),
            Class::Exactly("INT32_C"),
            Class::Exactly("INT64_C"),
            Class::Exactly("UINT8_C"),
            Class::Exactly("UINT16_C"),
            Class::Exactly("UINT32_C"),
            Class::Exactly("UINT64_C"),
        ],
        needs: 0,
        production: &[Symbol::Nonterminal(Within {
            part: Part::Expr,
            around: 0,
        })],
    },
];

pub static PLACE: [Choice; 2] = [
    Choice {
        on: &[Class::Name],
        needs: 0,
        production: &[
            Symbol::Terminal(Class::Name),
            Symbol::Nonterminal(Within {
                part: Part::Steps,
                around: 0,
            }),
        ],
    },
    Choice {
        on: &[Class::Exactly("(")],
        needs: 1,
        production: &[
            Symbol::Terminal(Class::Exactly("(")),
            Symbol::Terminal(Class::Exactly("*")),
            Symbol::Terminal(Class::Name),
            Symbol::Terminal(Class::Exactly(")")),
            Symbol::Nonterminal(Within {
                part: Part::Steps,
                around: 0,
            }),
        ],
    },
];
