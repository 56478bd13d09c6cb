//! Texts joined and judged.

ghost use Rattle.std.specs.Prelude.{◌≡◌, ℕ, ◌+◌, ◌<◌, ◌≤◌, ◌^◌, List, [], ◌∷◌, ◌++◌, length, IfSome, IsTrue};
ghost use Rattle.bl_joined.specs.Joined.{IsJoined, IsJoinedOf};
ghost use Rattle.bl_link.specs.Files.{AreFilesOf};
ghost use Rattle.bl_link_together.specs.Alone.{AreJoinedAlone, StandsAlone};
ghost use Rattle.bl_rules_laws_sizes.specs.Small.{IsOfSmallTree};

use crate::alone::stands_alone;
use bl_joined::Joined;
use bl_joined_laws::tokens::joined_texts_have_joined_tokens;
use bl_module_laws::files::files_are_the_whole;
use bl_rules::{AcceptedSource, accept_raw};
use bl_rules_laws_sizes::programs_of_texts_are_small;
use bl_tree::List;
use std::alloc::Global;

/// The program of the texts, where they are good files and no rule fails for them together. There may be none where memory is refused.
pub fn program_together(alloc: Global, texts: &[List<u8>]) -> Option<AcceptedSource>
    requires few { length texts.now ≤ 64 }
    ensures program { IfSome result (λ accepted. AreFilesOf texts.now accepted.program) }
    ensures of_small_tree { IfSome result (λ accepted. IsOfSmallTree accepted.program) }
{
    joined_texts_have_joined_tokens();
    programs_of_texts_are_small();
    files_are_the_whole();
    let joined = match joined_of(alloc, texts) {
        Some(joined) => joined,
        None => return None,
    };
    let tree = match bl_parse_wellformed::parse(alloc, &joined.text, &joined.tokens) {
        Ok(tree) => tree,
        Err(_) => return None,
    };
    match accept_raw(alloc, &tree) {
        Ok(accepted) => Some(accepted),
        Err(_) => None,
    }
}

/// The texts, joined, where each stands alone.
fn joined_of(alloc: Global, texts: &[List<u8>]) -> Option<Joined>
    requires few { length texts.now ≤ 64 }
    ensures { IfSome result (AreJoinedAlone texts.now) }
{
    let mut joined = Joined::new(alloc);
    for k in 0..texts.len() {
        if !add(alloc, &mut joined, &texts[k], k + 1 == texts.len()) {
            return None;
        }
    }
    Some(joined)
}

/// Adds a text that stands alone, as the last file or as an earlier one.
fn add(alloc: Global, joined: &mut Joined, text: &[u8], last: bool) -> bool
    requires joined { IsJoined joined.old }
    requires room { length joined.old.text.items < 2 ^ 31 }
    ensures alone { IsTrue result → StandsAlone last text.now }
    ensures added { IsTrue result → (texts : List (List ℕ)) → IsJoinedOf texts joined.old → IsJoinedOf (texts ++ text.now ∷ []) joined.new }
    ensures grown { IsTrue result → length joined.new.text.items ≤ length joined.old.text.items + 1_048_577 }
{
    if !stands_alone(alloc, text, last) {
        return false;
    }
    match joined.add(alloc, text) {
        Ok(()) => true,
        Err(_) => false,
    }
}
