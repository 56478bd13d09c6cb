//! A stream of bytes, cut into the contents of messages (Language Server Protocol 3.17, "Base Protocol").

ghost use Rattle.std.specs.Prelude.{◌≡◌, ◌+◌, ◌++◌, ◌∷◌, [], IfOk, OnOk, length, true};
ghost use Rattle.bl_lsp.specs.Framing.{framing_after, after_head, after_line, after_field, after_content, at_head, field_of, keeps_line, lower, read_all, read_on, says, says_content, says_head, says_line, says_field};

use std::alloc::{AllocError, Global};
use std::marker::Model;

/// The most bytes of a line of a header.
pub const LONGEST_LINE: usize = 1024;
/// The most bytes of a content: 64 MiB.
pub const MOST_BYTES: usize = 67_108_864;
/// The field that tells a content's length, in small letters.
pub const LENGTH_FIELD: &[u8] = b"content-length:";

/// What a byte completes.
#[derive(Clone, Copy, PartialEq, Eq, Debug)]
pub enum Taken {
    More,
    /// The content of a message, which `content` hands out.
    Whole,
    /// The header tells no length, or one above the limit, or a line of it is too long. Nothing that follows can be cut.
    Broken,
}

/// A line of a header.
#[derive(Clone, Copy, PartialEq, Eq, Debug)]
pub enum Field {
    Length(usize),
    Wrong,
    Other,
}

/// How far a length has been read.
#[derive(Clone, Copy, PartialEq, Eq, Debug)]
pub enum Digits {
    Blank,
    Number(usize),
    Wrong,
}

/// A reader of a stream.
#[derive(Drop)]
pub struct Framer {
    inside: bool,
    told: Option<usize>,
    got: Vec<u8>,
}

impl Model for Framer {
    ghost use Rattle.bl_lsp.specs.Framing.{Framing};

    ghost Value = { Framing };

    ghost view = { λ f. record { inside = f.inside; told = f.told; got = f.got.items } };
}

impl Framer {
    /// Before the first byte of a stream.
    pub fn new(alloc: Global) -> Framer
        ensures { result ≡ at_head }
    {
        Framer {
            inside: false,
            told: None,
            got: Vec::new(alloc),
        }
    }

    /// Takes the next byte.
    pub fn take(&mut self, byte: u8) -> Result<Taken, AllocError>
        ensures says { IfOk result (λ taken. taken ≡ says self.old byte) }
        ensures after { OnOk result (self.new ≡ framing_after self.old byte) }
    {
        if self.inside {
            self.take_content(byte)
        } else {
            self.take_head(byte)
        }
    }

    /// The content that is whole.
    pub fn content(&self) -> &[u8]
        ensures { result.now ≡ self.now.got }
    {
        self.got.as_slice()
    }

    /// Goes on behind a content.
    pub fn go_on(&mut self)
        ensures { self.new ≡ at_head }
    {
        self.inside = false;
        self.told = None;
        self.got.clear();
    }

    fn take_head(&mut self, byte: u8) -> Result<Taken, AllocError>
        ensures says { IfOk result (λ taken. taken ≡ says_head self.old byte) }
        ensures after { OnOk result (self.new ≡ after_head self.old byte) }
    {
        match byte {
            b'\n' => Ok(self.end_line()),
            b'\r' => Ok(Taken::More),
            _ => self.keep(byte),
        }
    }

    fn keep(&mut self, byte: u8) -> Result<Taken, AllocError>
        ensures says { IfOk result (λ taken. taken ≡ keeps_line self.old) }
        ensures after { OnOk result (self.new ≡ record self.old { got = self.old.got ++ lower byte ∷ [] }) }
    {
        self.got.push(lower(byte))?;
        if self.got.len() <= LONGEST_LINE {
            Ok(Taken::More)
        } else {
            Ok(Taken::Broken)
        }
    }

    fn end_line(&mut self) -> Taken
        ensures says { result ≡ says_line self.old }
        ensures after { self.new ≡ after_line self.old }
    {
        if self.got.is_empty() {
            return self.end_head();
        }
        let field = field_of(self.got.as_slice());
        self.got.clear();
        self.end_field(field)
    }

    fn end_field(&mut self, field: Field) -> Taken
        ensures says { result ≡ says_field field }
        ensures after { self.new ≡ after_field self.old field }
    {
        match field {
            Field::Length(n) => {
                self.told = Some(n);
                Taken::More
            }
            Field::Wrong => Taken::Broken,
            Field::Other => Taken::More,
        }
    }

    fn end_head(&mut self) -> Taken
        requires { self.old.got ≡ [] }
        ensures says { result ≡ says_content self.old.told 0 }
        ensures after { self.new ≡ record self.old { inside = true } }
    {
        self.inside = true;
        self.says_content()
    }

    fn take_content(&mut self, byte: u8) -> Result<Taken, AllocError>
        ensures says { IfOk result (λ taken. taken ≡ says_content self.old.told (length self.old.got + 1)) }
        ensures after { OnOk result (self.new ≡ after_content self.old byte) }
    {
        self.got.push(byte)?;
        Ok(self.says_content())
    }

    /// Whether as many bytes of the content are there as were told.
    fn says_content(&self) -> Taken
        ensures { result ≡ says_content self.now.told (length self.now.got) }
    {
        match self.told {
            None => Taken::Broken,
            Some(n) => {
                if self.got.len() < n {
                    Taken::More
                } else {
                    Taken::Whole
                }
            }
        }
    }
}

/// The small letter of a capital one, and else the byte.
fn lower(byte: u8) -> u8
    ensures { result ≡ lower byte }
{
    if byte >= b'A' && byte <= b'Z' {
        byte + 32
    } else {
        byte
    }
}

/// What a line says of a content's length.
fn field_of(line: &[u8]) -> Field
    ensures { result ≡ field_of line.now }
{
    if !line.starts_with(LENGTH_FIELD) {
        return Field::Other;
    }
    match length_in(&line[LENGTH_FIELD.len()..]) {
        Digits::Number(n) => Field::Length(n),
        Digits::Blank => Field::Wrong,
        Digits::Wrong => Field::Wrong,
    }
}

fn length_in(value: &[u8]) -> Digits
    ensures { result ≡ read_all Digits.Blank value.now }
{
    let mut digits = Digits::Blank;
    for byte in value {
        digits = read_on(digits, *byte);
    }
    digits
}

fn read_on(digits: Digits, byte: u8) -> Digits
    ensures { result ≡ read_on digits byte }
{
    match digits {
        Digits::Blank => first_digit(byte),
        Digits::Number(n) => next_digit(n, byte),
        Digits::Wrong => Digits::Wrong,
    }
}

fn first_digit(byte: u8) -> Digits
    ensures { result ≡ read_on Digits.Blank byte }
{
    if byte == b' ' || byte == b'\t' {
        Digits::Blank
    } else if byte >= b'0' && byte <= b'9' {
        Digits::Number((byte - b'0') as usize)
    } else {
        Digits::Wrong
    }
}

fn next_digit(n: usize, byte: u8) -> Digits
    ensures { result ≡ read_on (Digits.Number n) byte }
{
    if byte < b'0' || byte > b'9' || n > MOST_BYTES {
        return Digits::Wrong;
    }
    let more = n * 10 + (byte - b'0') as usize;
    if more > MOST_BYTES {
        Digits::Wrong
    } else {
        Digits::Number(more)
    }
}
