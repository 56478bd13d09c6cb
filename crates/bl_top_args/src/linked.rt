//! The words of `link`, of which there may be many.

ghost use Rattle.std.specs.Prelude.{◌≡◌, map, option_map, string_bytes};
ghost use Rattle.bl_top_args.specs.Jobs.{linked, spec_of};
ghost use Rattle.bl_top_args.specs.inner.FirstWords.{behind_first};

use crate::job::Job;

/// The job that the words behind the first ask for, where that is `link`.
pub(crate) fn linked_by<'a>(words: &'a [String]) -> Option<Job<'a>>
    ensures { option_map spec_of result ≡ linked (behind_first (map string_bytes words.entry.now)) }
{
    if words.len() < 3 || words.len() > 65 {
        return None;
    }
    Some(Job::Link {
        sources: &words[1..],
    })
}
