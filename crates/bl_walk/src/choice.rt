//! Choices of actions by a seed.

ghost use Rattle.std.specs.Prelude.{◌≡◌, ◌<◌};
ghost use Rattle.bl_walk.specs.Choices.{choice_of, next_word, picked, word_moved};

const FACTOR: u64 = 6364136223846793005;

const STEP: u64 = 1442695040888963407;

/// How an action is picked among those that may be done (docs/LANGUAGE.md, "Walking one interleaving").
#[derive(Clone, Copy, PartialEq, Eq, Debug)]
pub enum Choice {
    First,
    Last,
    /// The word moves before each choice, and its upper 31 bits pick.
    ByWord(u64),
}

impl Choice {
    /// How a seed picks.
    pub fn by_seed(seed: u64) -> Choice
        ensures { result ≡ choice_of seed }
    {
        match seed {
            0 => Choice::First,
            1 => Choice::Last,
            word => Choice::ByWord(word),
        }
    }

    /// The choice with which the next action is picked.
    pub fn next(self) -> Choice
        ensures { result ≡ word_moved self }
    {
        match self {
            Choice::First => Choice::First,
            Choice::Last => Choice::Last,
            Choice::ByWord(word) => Choice::ByWord(next_word(word)),
        }
    }

    /// The number, counted from 0, of the action that is picked of so many.
    pub fn index(self, count: usize) -> usize
        requires { 0 < count }
        ensures pick { result ≡ picked self count }
        ensures within { result < count }
    {
        match self {
            Choice::First => 0,
            Choice::Last => count - 1,
            Choice::ByWord(word) => (word >> 33) as usize % count,
        }
    }
}

fn next_word(word: u64) -> u64
    ensures { result ≡ next_word word }
{
    word.wrapping_mul(FACTOR).wrapping_add(STEP)
}
