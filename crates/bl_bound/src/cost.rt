//! Numbers of statements as far as 128 bits tell them.

ghost use Rattle.std.specs.Prelude.{◌≡◌, ◌+◌, ◌*◌, max};
ghost use Rattle.bl_bound.specs.inner.Capped.{amount, amount_if, capped};

/// How many turns of a loop begin at most: 65,536 can end, and the next one traps.
const TURNS: u128 = 65_537;

/// How many statements can be executed.
#[derive(Clone, Copy, PartialEq, Eq, Debug)]
pub enum Cost {
    /// At most so many.
    Number(u128),
    /// More than 2^128 - 1.
    Over,
}

/// A sum or a product, where 128 bits can hold it.
fn cost_of(number: Option<u128>) -> Cost
    ensures { amount result ≡ amount_if number }
{
    match number {
        Some(number) => Cost::Number(number),
        None => Cost::Over,
    }
}

impl Cost {
    /// One and then the other.
    pub fn plus(self, other: Cost) -> Cost
        ensures { amount result ≡ capped (amount self + amount other) }
    {
        match (self, other) {
            (Cost::Number(first), Cost::Number(second)) => cost_of(first.checked_add(second)),
            (Cost::Over, _) | (_, Cost::Over) => Cost::Over,
        }
    }

    /// One of the two.
    pub fn or(self, other: Cost) -> Cost
        ensures { amount result ≡ max (amount self) (amount other) }
    {
        match (self, other) {
            (Cost::Number(first), Cost::Number(second)) => Cost::Number(first.max(second)),
            (Cost::Over, _) | (_, Cost::Over) => Cost::Over,
        }
    }

    /// A statement or a turn that begins before it.
    pub fn begun(self) -> Cost
        ensures { amount result ≡ capped (1 + amount self) }
    {
        self.plus(Cost::Number(1))
    }

    /// As often as turns of a loop can begin.
    pub fn turns(self) -> Cost
        ensures { amount result ≡ capped (65537 * amount self) }
    {
        match self {
            Cost::Number(turn) => cost_of(turn.checked_mul(TURNS)),
            Cost::Over => Cost::Over,
        }
    }
}
