//! The words of `face`, of which there may be many.

ghost use Rattle.std.specs.Prelude.{◌≡◌, map, option_map, string_bytes};
ghost use Rattle.bl_top_args.specs.Jobs.{faced, spec_of};
ghost use Rattle.bl_top_args.specs.inner.FirstWords.{behind_first};

use crate::job::Job;

/// The job that the words behind the first ask for, where that is `face`.
pub(crate) fn faced_by<'a>(words: &'a [String]) -> Option<Job<'a>>
    ensures { option_map spec_of result ≡ faced (behind_first (map string_bytes words.entry.now)) }
{
    match words {
        [_, source, ..] => Some(Job::Face {
            source: source.as_str(),
            faces: &words[2..],
        }),
        _ => None,
    }
}
