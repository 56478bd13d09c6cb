//! What is known of the values of spots.

use bl_tree::Text;

/// A spot: the variable of a name or what the pointer of this name leads to, or the part of it at a first member.
#[derive(Drop)]
pub struct CSpot {
    pub through: bool,
    pub name: Text,
    pub first: Option<Text>,
}

/// What is known of a value: that it is a number and nothing beside it, its number, or a bound of its number.
#[derive(Clone, Copy, PartialEq, Eq, Debug)]
pub enum Fact {
    Is(i128),
    Number(i128),
    AtMost(i128),
    AtLeast(i128),
}
