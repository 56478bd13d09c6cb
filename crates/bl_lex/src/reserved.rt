//! The words that aren't names.

ghost use Rattle.std.specs.Prelude.{◌≢◌, All, MatchOption, length};
ghost use Rattle.bl_lex.specs.inner.Steps.{IsMeaningOf, IsUnreserved, AreReservedOf};

use bl_tree::token::Keyword;

/// What a reserved word is.
#[derive(Clone, Copy, PartialEq, Eq, Debug)]
pub enum Meaning {
    Keyword(Keyword),
    /// A word of the whole language that the profile leaves out.
    Outside,
}

#[derive(Clone, Copy)]
pub struct Reserved {
    pub text: &'static str,
    pub meaning: Meaning,
}

static OF_TWO: [Reserved; 3] = [
    Reserved {
        text: "if",
        meaning: Meaning::Keyword(Keyword::If),
    },
    Reserved {
        text: "as",
        meaning: Meaning::Keyword(Keyword::As),
    },
    Reserved {
        text: "or",
        meaning: Meaning::Keyword(Keyword::Or),
    },
];

static OF_THREE: [Reserved; 6] = [
    Reserved {
        text: "var",
        meaning: Meaning::Keyword(Keyword::Var),
    },
    Reserved {
        text: "let",
        meaning: Meaning::Keyword(Keyword::Let),
    },
    Reserved {
        text: "end",
        meaning: Meaning::Keyword(Keyword::End),
    },
    Reserved {
        text: "run",
        meaning: Meaning::Keyword(Keyword::Run),
    },
    Reserved {
        text: "not",
        meaning: Meaning::Keyword(Keyword::Not),
    },
    Reserved {
        text: "and",
        meaning: Meaning::Keyword(Keyword::And),
    },
];

static OF_FOUR: [Reserved; 12] = [
    Reserved {
        text: "then",
        meaning: Meaning::Keyword(Keyword::Then),
    },
    Reserved {
        text: "else",
        meaning: Meaning::Keyword(Keyword::Else),
    },
    Reserved {
        text: "weak",
        meaning: Meaning::Keyword(Keyword::Weak),
    },
    Reserved {
        text: "with",
        meaning: Meaning::Keyword(Keyword::With),
    },
    Reserved {
        text: "when",
        meaning: Meaning::Keyword(Keyword::When),
    },
    Reserved {
        text: "prev",
        meaning: Meaning::Keyword(Keyword::Prev),
    },
    Reserved {
        text: "true",
        meaning: Meaning::Keyword(Keyword::True),
    },
    Reserved {
        text: "bool",
        meaning: Meaning::Keyword(Keyword::Bool),
    },
    Reserved {
        text: "int8",
        meaning: Meaning::Keyword(Keyword::Int8),
    },
    Reserved {
        text: "nat8",
        meaning: Meaning::Keyword(Keyword::Nat8),
    },
    Reserved {
        text: "unit",
        meaning: Meaning::Outside,
    },
    Reserved {
        text: "enum",
        meaning: Meaning::Outside,
    },
];

static OF_FIVE: [Reserved; 15] = [
    Reserved {
        text: "const",
        meaning: Meaning::Keyword(Keyword::Const),
    },
    Reserved {
        text: "await",
        meaning: Meaning::Keyword(Keyword::Await),
    },
    Reserved {
        text: "abort",
        meaning: Meaning::Keyword(Keyword::Abort),
    },
    Reserved {
        text: "reset",
        meaning: Meaning::Keyword(Keyword::Reset),
    },
    Reserved {
        text: "until",
        meaning: Meaning::Keyword(Keyword::Until),
    },
    Reserved {
        text: "while",
        meaning: Meaning::Keyword(Keyword::While),
    },
    Reserved {
        text: "false",
        meaning: Meaning::Keyword(Keyword::False),
    },
    Reserved {
        text: "int16",
        meaning: Meaning::Keyword(Keyword::Int16),
    },
    Reserved {
        text: "int32",
        meaning: Meaning::Keyword(Keyword::Int32),
    },
    Reserved {
        text: "int64",
        meaning: Meaning::Keyword(Keyword::Int64),
    },
    Reserved {
        text: "nat16",
        meaning: Meaning::Keyword(Keyword::Nat16),
    },
    Reserved {
        text: "nat32",
        meaning: Meaning::Keyword(Keyword::Nat32),
    },
    Reserved {
        text: "nat64",
        meaning: Meaning::Keyword(Keyword::Nat64),
    },
    Reserved {
        text: "bits8",
        meaning: Meaning::Keyword(Keyword::Bits8),
    },
    Reserved {
        text: "param",
        meaning: Meaning::Outside,
    },
];

static OF_SIX: [Reserved; 10] = [
    Reserved {
        text: "return",
        meaning: Meaning::Keyword(Keyword::Return),
    },
    Reserved {
        text: "struct",
        meaning: Meaning::Keyword(Keyword::Struct),
    },
    Reserved {
        text: "elseif",
        meaning: Meaning::Keyword(Keyword::Elseif),
    },
    Reserved {
        text: "repeat",
        meaning: Meaning::Keyword(Keyword::Repeat),
    },
    Reserved {
        text: "bits16",
        meaning: Meaning::Keyword(Keyword::Bits16),
    },
    Reserved {
        text: "bits32",
        meaning: Meaning::Keyword(Keyword::Bits32),
    },
    Reserved {
        text: "bits64",
        meaning: Meaning::Keyword(Keyword::Bits64),
    },
    Reserved {
        text: "extern",
        meaning: Meaning::Outside,
    },
    Reserved {
        text: "import",
        meaning: Meaning::Outside,
    },
    Reserved {
        text: "module",
        meaning: Meaning::Outside,
    },
];

static OF_SEVEN: [Reserved; 5] = [
    Reserved {
        text: "returns",
        meaning: Meaning::Keyword(Keyword::Returns),
    },
    Reserved {
        text: "cobegin",
        meaning: Meaning::Keyword(Keyword::Cobegin),
    },
    Reserved {
        text: "float32",
        meaning: Meaning::Outside,
    },
    Reserved {
        text: "float64",
        meaning: Meaning::Outside,
    },
    Reserved {
        text: "suspend",
        meaning: Meaning::Outside,
    },
];

static OF_EIGHT: [Reserved; 2] = [
    Reserved {
        text: "function",
        meaning: Meaning::Keyword(Keyword::Function),
    },
    Reserved {
        text: "activity",
        meaning: Meaning::Keyword(Keyword::Activity),
    },
];

static OF_NINE: [Reserved; 1] = [Reserved {
    text: "singleton",
    meaning: Meaning::Outside,
}];

/// What a word means, if it is reserved.
pub fn meaning_of(word: &[u8]) -> Option<Meaning>
    ensures { MatchOption result (IsUnreserved word.now) (IsMeaningOf word.now) }
{
    meaning_among(reserved_of_length(word.len()), word)
}

/// The reserved words of so many bytes.
fn reserved_of_length(length: usize) -> &'static [Reserved]
    ensures { AreReservedOf length result.now }
{
    match length {
        2 => &OF_TWO,
        3 => &OF_THREE,
        4 => &OF_FOUR,
        5 => &OF_FIVE,
        6 => &OF_SIX,
        7 => &OF_SEVEN,
        8 => &OF_EIGHT,
        9 => &OF_NINE,
        _ => &[],
    }
}

fn meaning_among(entries: &[Reserved], word: &[u8]) -> Option<Meaning>
    requires { All (λ entry. IsMeaningOf entry.text.now entry.meaning) entries.now }
    ensures { MatchOption result (All (λ entry. entry.text.now ≢ word.now) entries.now) (IsMeaningOf word.now) }
{
    for entry in entries {
        if entry.text.as_bytes() == word {
            return Some(entry.meaning);
        }
    }
    None
}
