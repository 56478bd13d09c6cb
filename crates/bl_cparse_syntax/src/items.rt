//! What stands at the top of a text: structs, functions, and their members, parameters, locals and types.

use crate::choice::Choice;
use crate::grammar::{Class, Digits, Group, Part, Within};
use bl_grammar::Symbol;

pub static FILE: [Choice; 1] = [Choice {
    on: &[Class::Exactly("struct")],
    needs: 0,
    production: &[
        Symbol::Nonterminal(Within {
            part: Part::Struct,
            around: 0,
        }),
        Symbol::Nonterminal(Within {
            part: Part::Structs,
            around: 0,
        }),
        Symbol::Nonterminal(Within {
            part: Part::Func,
            around: 0,
        }),
        Symbol::Nonterminal(Within {
            part: Part::Funcs,
            around: 0,
        }),
    ],
}];

pub static STRUCTS: [Choice; 1] = [Choice {
    on: &[Class::Exactly("struct")],
    needs: 0,
    production: &[
        Symbol::Nonterminal(Within {
            part: Part::Struct,
            around: 0,
        }),
        Symbol::Nonterminal(Within {
            part: Part::Structs,
            around: 0,
        }),
    ],
}];

pub static STRUCT: [Choice; 1] = [Choice {
    on: &[Class::Exactly("struct")],
    needs: 0,
    production: &[
        Symbol::Terminal(Class::Exactly("struct")),
        Symbol::Nonterminal(Within {
            part: Part::StructName,
            around: 0,
        }),
        Symbol::Terminal(Class::Exactly("{")),
        Symbol::Nonterminal(Within {
            part: Part::Member,
            around: 1,
        }),
        Symbol::Nonterminal(Within {
            part: Part::Members,
            around: 1,
        }),
        Symbol::Terminal(Class::Exactly("}")),
        Symbol::Terminal(Class::Exactly(";")),
    ],
}];

pub static STRUCT_NAME: [Choice; 2] = [
    Choice {
        on: &[Class::Name],
        needs: 0,
        production: &[Symbol::Terminal(Class::Name)],
    },
    Choice {
        on: &[Class::OneOf(Group::StructWords)],
        needs: 0,
        production: &[Symbol::Terminal(Class::OneOf(Group::StructWords))],
    },
];

pub static MEMBERS: [Choice; 1] = [Choice {
    on: &[Class::OneOf(Group::ScalarTypes), Class::Exactly("struct")],
    needs: 0,
    production: &[
        Symbol::Nonterminal(Within {
            part: Part::Member,
            around: 0,
        }),
        Symbol::Nonterminal(Within {
            part: Part::Members,
            around: 0,
        }),
    ],
}];

pub static MEMBER: [Choice; 1] = [Choice {
    on: &[Class::OneOf(Group::ScalarTypes), Class::Exactly("struct")],
    needs: 0,
    production: &[
        Symbol::Nonterminal(Within {
            part: Part::TypeName,
            around: 0,
        }),
        Symbol::Terminal(Class::Name),
        Symbol::Nonterminal(Within {
            part: Part::Length,
            around: 0,
        }),
        Symbol::Terminal(Class::Exactly(";")),
    ],
}];

pub static TYPE_NAME: [Choice; 2] = [
    Choice {
        on: &[Class::OneOf(Group::ScalarTypes)],
        needs: 0,
        production: &[Symbol::Terminal(Class::OneOf(Group::ScalarTypes))],
    },
    Choice {
        on: &[Class::Exactly("struct")],
        needs: 0,
        production: &[
            Symbol::Terminal(Class::Exactly("struct")),
            Symbol::Nonterminal(Within {
                part: Part::StructName,
                around: 0,
            }),
        ],
    },
];

pub static LENGTH: [Choice; 1] = [Choice {
    on: &[Class::Exactly("[")],
    needs: 0,
    production: &[
        Symbol::Terminal(Class::Exactly("[")),
        Symbol::Terminal(Class::Number(Digits::Elements)),
        Symbol::Terminal(Class::Exactly("]")),
    ],
}];

pub static FUNCS: [Choice; 1] = [Choice {
    on: &[
        Class::Exactly("static"),
        Class::Exactly("void"),
        Class::OneOf(Group::ScalarTypes),
    ],
    needs: 0,
    production: &[
        Symbol::Nonterminal(Within {
            part: Part::Func,
            around: 0,
        }),
        Symbol::Nonterminal(Within {
            part: Part::Funcs,
            around: 0,
        }),
    ],
}];

pub static FUNC: [Choice; 2] = [
    Choice {
        on: &[Class::Exactly("static")],
        needs: 0,
        production: &[
            Symbol::Terminal(Class::Exactly("static")),
            Symbol::Nonterminal(Within {
                part: Part::PlainFunc,
                around: 0,
            }),
        ],
    },
    Choice {
        on: &[Class::Exactly("void"), Class::OneOf(Group::ScalarTypes)],
        needs: 0,
        production: &[Symbol::Nonterminal(Within {
            part: Part::PlainFunc,
            around: 0,
        })],
    },
];

pub static PLAIN_FUNC: [Choice; 2] = [
    Choice {
        on: &[Class::Exactly("void")],
        needs: 0,
        production: &[
            Symbol::Terminal(Class::Exactly("void")),
            Symbol::Nonterminal(Within {
                part: Part::FuncRest,
                around: 0,
            }),
        ],
    },
    Choice {
        on: &[Class::OneOf(Group::ScalarTypes)],
        needs: 0,
        production: &[
            Symbol::Terminal(Class::OneOf(Group::ScalarTypes)),
            Symbol::Nonterminal(Within {
                part: Part::FuncRest,
                around: 0,
            }),
        ],
    },
];

pub static FUNC_REST: [Choice; 1] = [Choice {
    on: &[Class::Name, Class::OneOf(Group::FunctionWords)],
    needs: 0,
    production: &[
        Symbol::Nonterminal(Within {
            part: Part::FuncName,
            around: 0,
        }),
        Symbol::Terminal(Class::Exactly("(")),
        Symbol::Nonterminal(Within {
            part: Part::Params,
            around: 1,
        }),
        Symbol::Terminal(Class::Exactly(")")),
        Symbol::Terminal(Class::Exactly("{")),
        Symbol::Nonterminal(Within {
            part: Part::Locals,
            around: 1,
        }),
        Symbol::Nonterminal(Within {
            part: Part::Stmts,
            around: 1,
        }),
        Symbol::Terminal(Class::Exactly("}")),
    ],
}];

pub static FUNC_NAME: [Choice; 2] = [
    Choice {
        on: &[Class::Name],
        needs: 0,
        production: &[Symbol::Terminal(Class::Name)],
    },
    Choice {
        on: &[Class::OneOf(Group::FunctionWords)],
        needs: 0,
        production: &[Symbol::Terminal(Class::OneOf(Group::FunctionWords))],
    },
];

pub static PARAMS: [Choice; 1] = [Choice {
    on: &[Class::OneOf(Group::ScalarTypes), Class::Exactly("struct")],
    needs: 0,
    production: &[
        Symbol::Nonterminal(Within {
            part: Part::Param,
            around: 0,
        }),
        Symbol::Nonterminal(Within {
            part: Part::ParamRest,
            around: 0,
        }),
    ],
}];

pub static PARAM_REST: [Choice; 1] = [Choice {
    on: &[Class::Exactly(",")],
    needs: 0,
    production: &[
        Symbol::Terminal(Class::Exactly(",")),
        Symbol::Nonterminal(Within {
            part: Part::Param,
            around: 0,
        }),
        Symbol::Nonterminal(Within {
            part: Part::ParamRest,
            around: 0,
        }),
    ],
}];

pub static PARAM: [Choice; 1] = [Choice {
    on: &[Class::OneOf(Group::ScalarTypes), Class::Exactly("struct")],
    needs: 0,
    production: &[
        Symbol::Nonterminal(Within {
            part: Part::TypeName,
            around: 0,
        }),
        Symbol::Nonterminal(Within {
            part: Part::Star,
            around: 0,
        }),
        Symbol::Terminal(Class::Name),
    ],
}];

pub static STAR: [Choice; 1] = [Choice {
    on: &[Class::Exactly("*")],
    needs: 0,
    production: &[Symbol::Terminal(Class::Exactly("*"))],
}];

pub static LOCALS: [Choice; 1] = [Choice {
    on: &[Class::OneOf(Group::ScalarTypes), Class::Exactly("struct")],
    needs: 0,
    production: &[
        Symbol::Nonterminal(Within {
            part: Part::Local,
            around: 0,
        }),
        Symbol::Nonterminal(Within {
            part: Part::Locals,
            around: 0,
        }),
    ],
}];

pub static LOCAL: [Choice; 2] = [
    Choice {
        on: &[Class::OneOf(Group::ScalarTypes)],
        needs: 0,
        production: &[
            Symbol::Terminal(Class::OneOf(Group::ScalarTypes)),
            Symbol::Terminal(Class::Name),
            Symbol::Terminal(Class::Exactly("=")),
            Symbol::Terminal(Class::Exactly("0")),
            Symbol::Terminal(Class::Exactly(";")),
        ],
    },
    Choice {
        on: &[Class::Exactly("struct")],
        needs: 0,
        production: &[
            Symbol::Terminal(Class::Exactly("struct")),
            Symbol::Nonterminal(Within {
                part: Part::StructName,
                around: 0,
            }),
            Symbol::Terminal(Class::Name),
            Symbol::Terminal(Class::Exactly("=")),
            Symbol::Terminal(Class::Exactly("{")),
            Symbol::Terminal(Class::Exactly("0")),
            Symbol::Terminal(Class::Exactly("}")),
            Symbol::Terminal(Class::Exactly(";")),
        ],
    },
];
