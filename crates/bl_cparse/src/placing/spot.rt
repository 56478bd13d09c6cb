//! Where a walk over the pieces of a text stands.

ghost use Rattle.std.specs.Prelude.{◌≡◌, ◌≤◌, List, length};
ghost use Rattle.bl_ctext.specs.Token.{Token};
ghost use Rattle.bl_cparse.specs.HasPlaces.{start_of, span, next_spot, behind_tokens};

use bl_cparse_syntax::piece::next_piece;
use bl_tree::Place;
use std::marker::Model;

/// Contracts see the text and the offset behind the piece that was passed last.
#[derive(Drop)]
pub struct Spot<'a> {
    text: &'a [u8],
    at: usize,
}

impl<'a> Model for Spot<'a> {
    ghost use Rattle.std.specs.Prelude.{◌≤◌, length};
    ghost use Rattle.bl_cparse.specs.HasPlaces.{TextSpot};

    ghost Value = { TextSpot };

    ghost view = { λ s. record { text = s.text.now; at = s.at } };

    ghost invariant = { λ s. (s.at ≤ length s.text.now) × (length s.text.now ≤ 67108864) };
}

impl<'a> Spot<'a> {
    pub fn new(text: &'a [u8], at: usize) -> Spot<'a>
        requires short { length text.now ≤ 67108864 }
        requires inside { at ≤ length text.now }
        ensures { result ≡ record { text = text.now; at = at } }
    {
        Spot { text, at }
    }

    /// Where the next piece starts.
    pub fn start(&self) -> u32
        ensures { result ≡ start_of self.now }
    {
        next_piece(self.text, self.at).start as u32
    }

    /// The place from an offset up to here.
    pub fn place_from(&self, start: u32) -> Place
        ensures start { result.start ≡ start }
        ensures end { result.end ≡ self.now.at }
    {
        Place {
            start,
            end: self.at as u32,
        }
    }

    /// Goes on behind the next piece.
    pub fn pass(&mut self)
        ensures { self.new ≡ next_spot self.old }
    {
        self.at = next_piece(self.text, self.at).end;
    }

    /// Goes on behind so many pieces.
    pub fn skip(&mut self, count: usize)
        ensures { (tokens : List Token) → length tokens ≡ count → self.new ≡ behind_tokens tokens self.old }
    {
        for _ in 0..count {
            self.pass();
        }
    }
}
