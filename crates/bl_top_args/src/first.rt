//! The word that names the command.

ghost use Rattle.std.specs.Prelude.{◌≡◌, map, string_bytes};
ghost use Rattle.bl_top_args.specs.inner.FirstWords.{first_is};

/// Whether the first word is this one.
pub(crate) fn first_is(label: &str, words: &[String]) -> bool
    ensures { result ≡ first_is label.now (map string_bytes words.now) }
{
    match words {
        [] => false,
        [name, ..] => label == name.as_str(),
    }
}
