//! Texts that are read one after another, as one text.

ghost use Rattle.std.specs.Prelude.{◌≡◌, ℕ, ◌+◌, ◌-◌, ◌<◌, ◌≤◌, ◌^◌, List, [], ◌∷◌, ◌++◌, length, IfErr, OnOk};
ghost use Rattle.bl_tree.specs.Rules.{IsCause};
ghost use Rattle.bl_lex.specs.Rules.{Fails, Passes};
ghost use Rattle.bl_lex.specs.Tokens.{Lexes};
ghost use Rattle.bl_joined.specs.Joined.{IsJoined, IsJoinedOf};
ghost use Rattle.bl_joined.specs.Places.{InFile};
ghost use Rattle.bl_joined.specs.Texts.{line_feeds};

use crate::token::push_moved;
use bl_tree::token::Token;
use bl_tree::{Place, Refusal};
use std::alloc::{AllocError, Global};

/// Several texts as one, each followed by a line feed.
#[derive(Drop)]
pub struct Joined {
    pub text: Vec<u8>,
    /// Those of each text, with their places and lines in the whole.
    pub tokens: Vec<Token>,
    /// Where each text begins.
    starts: Vec<u32>,
    /// How many line feeds the whole has.
    lines: u32,
}

/// A place in one of several texts.
#[derive(Clone, Copy, PartialEq, Eq, Debug)]
pub struct FilePlace {
    /// The position of the text, from 0.
    pub file: usize,
    pub place: Place,
}

impl Joined {
    /// No text yet.
    pub fn new(alloc: Global) -> Joined
        ensures { IsJoinedOf [] result }
    {
        Joined {
            text: Vec::new(alloc),
            tokens: Vec::new(alloc),
            starts: Vec::new(alloc),
            lines: 0,
        }
    }

    /// Adds a text behind the others. It refuses what `bl_lex::lex` refuses.
    pub fn add(&mut self, alloc: Global, text: &[u8]) -> Result<(), Refusal>
        requires joined { IsJoined self.old }
        requires room { length self.old.text.items + length text.now + 1 < 2 ^ 32 }
        ensures passes { OnOk result (Passes text.now) }
        ensures added { OnOk result ((texts : List (List ℕ)) → IsJoinedOf texts self.old → IsJoinedOf (texts ++ text.now ∷ []) self.new) }
        ensures cause { IfErr result (IsCause (Fails text.now)) }
    {
        let tokens = match bl_lex::lex(alloc, text) {
            Ok(tokens) => tokens,
            Err(refusal) => return Err(refusal),
        };
        match self.append(text, &tokens) {
            Ok(()) => Ok(()),
            Err(AllocError) => Err(Refusal::NoMemory),
        }
    }

    /// Adds a text with its tokens.
    fn append(&mut self, text: &[u8], tokens: &[Token]) -> Result<(), AllocError>
        requires joined { IsJoined self.old }
        requires room { length self.old.text.items + length text.now + 1 < 2 ^ 32 }
        requires lexes { Lexes text.now tokens.now }
        ensures { OnOk result ((texts : List (List ℕ)) → IsJoinedOf texts self.old → IsJoinedOf (texts ++ text.now ∷ []) self.new) }
    {
        let start = self.text.len() as u32;
        push_moved(&mut self.tokens, tokens, start, self.lines)?;
        self.starts.push(start)?;
        self.text.extend_from_slice(text)?;
        self.text.push(b'\n')?;
        self.lines += feeds(text) + 1;
        Ok(())
    }

    /// The text in which a place of the whole begins, and the place there. A place behind the last text is taken as one of the last.
    pub fn in_file(&self, place: Place) -> FilePlace
        ensures { (texts : List (List ℕ)) → 0 < length texts → IsJoinedOf texts self.now → InFile texts place result.file result.place }
    {
        let mut found = FilePlace { file: 0, place };
        for (file, start) in self.starts.iter().enumerate() {
            if *start <= place.start {
                found = FilePlace {
                    file,
                    place: counted_from(place, *start),
                };
            }
        }
        found
    }
}

/// The place, counted from an offset on.
fn counted_from(place: Place, offset: u32) -> Place
    ensures { result ≡ record { start = place.start - offset; end = place.end - offset } }
{
    Place {
        start: place.start.saturating_sub(offset),
        end: place.end.saturating_sub(offset),
    }
}

fn feeds(text: &[u8]) -> u32
    requires { length text.now < 2 ^ 32 }
    ensures { result ≡ line_feeds text.now }
{
    text.iter().filter(|byte| **byte == b'\n').count() as u32
}
