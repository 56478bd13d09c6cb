//! A piece, and what is asked of it more than once.

ghost use Rattle.std.specs.Prelude.{◌≡◌};
ghost use Rattle.bl_ctext.specs.Names.{is_among, is_name, prelude_functions};

use crate::words;
use std::marker::Model;

/// A piece of a text. Contracts see its bytes.
#[derive(Drop)]
pub struct Seen<'a> {
    bytes: &'a [u8],
    is_name: bool,
    /// It is a function of the prelude.
    is_prelude: bool,
}

impl<'a> Model for Seen<'a> {
    ghost use Rattle.std.specs.Prelude.{ℕ, List};
    ghost use Rattle.bl_cparse_syntax.specs.inner.Seen.{IsSeen};

    ghost Value = { List ℕ };

    ghost view = { λ s. s.bytes.now };

    ghost invariant = { λ s. IsSeen s.bytes.now s.is_name s.is_prelude };
}

impl<'a> Seen<'a> {
    pub fn new(bytes: &'a [u8]) -> Seen<'a>
        ensures { result ≡ bytes.now }
    {
        Seen {
            bytes,
            is_name: words::is_name(bytes),
            is_prelude: is_prelude(bytes),
        }
    }

    pub fn bytes(&self) -> &'a [u8]
        ensures { result.now ≡ self.now }
    {
        self.bytes
    }

    pub fn is_name(&self) -> bool
        ensures { result ≡ is_name self.now }
    {
        self.is_name
    }

    pub fn is_prelude(&self) -> bool
        ensures { result ≡ is_among self.now prelude_functions }
    {
        self.is_prelude
    }
}

/// Whether it is a function of the prelude: all of them begin with `bl_`.
#[tactic(auto, using(crate::proofs::ClassLemmas::prelude_begins))]
fn is_prelude(bytes: &[u8]) -> bool
    ensures { result ≡ is_among bytes.now prelude_functions }
{
    bytes.starts_with(b"bl_") && words::is_among(bytes, &words::PRELUDE_FUNCTIONS)
}
