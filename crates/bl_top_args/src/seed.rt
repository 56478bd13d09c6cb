//! Seeds as words write them.

ghost use Rattle.std.specs.Prelude.{◌≡◌};
ghost use Rattle.std.specs.Str.{all_ascii_digits};
ghost use Rattle.bl_top_args.specs.Jobs.{seed_of};

/// The number that a word of decimal digits writes, where it is below 2 to the 64.
pub(crate) fn seed_of(word: &str) -> Option<u64>
    ensures { result ≡ seed_of word.now }
{
    if !are_digits(word.as_bytes()) {
        return None;
    }
    word.parse().ok()
}

fn are_digits(word: &[u8]) -> bool
    ensures { result ≡ all_ascii_digits word.now }
{
    'digits: for digit in word {
        if !digit.is_ascii_digit() {
            return false;
        }
    }
    true
}
