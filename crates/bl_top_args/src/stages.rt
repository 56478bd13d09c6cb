//! Numbers of stages as words write them.

ghost use Rattle.std.specs.Prelude.{◌≡◌};
ghost use Rattle.bl_top_args.specs.Jobs.{stages_in, stages_of};

use crate::seed::seed_of;

/// The number that a word of decimal digits writes, where it is from 1 to 2 to the 32 less 1.
pub(crate) fn stages_of(word: &str) -> Option<u32>
    ensures { result ≡ stages_of word.now }
{
    match seed_of(word) {
        Some(number) => stages_in(number),
        None => None,
    }
}

fn stages_in(number: u64) -> Option<u32>
    ensures { result ≡ stages_in number }
{
    if number == 0 || number >= 4_294_967_296 {
        return None;
    }
    Some(number as u32)
}
