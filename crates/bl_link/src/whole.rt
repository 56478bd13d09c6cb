//! Parts as one text, with its tree.

ghost use Rattle.std.specs.Prelude.{◌≡◌, ℕ, ◌+◌, ◌<◌, ◌≤◌, ◌^◌, List, [], ◌∷◌, ◌++◌, length, IfOk, OnOk};
ghost use Rattle.bl_joined.specs.Joined.{IsJoined, IsJoinedOf};
ghost use Rattle.bl_link.specs.Fits.{part_texts};
ghost use Rattle.bl_link.specs.inner.Whole.{ArePartsOf, IsOfFew, IsReadable, TellsIn};
ghost use Rattle.bl_module.specs.Parts.{IsPart};
ghost use Rattle.bl_rules.specs.Rules.{Parses};

use crate::fault::LinkFault;
use bl_joined::Joined;
use bl_module::Part;
use bl_parse_syntax::laws::first_failure_is_one;
use bl_parse_wellformed::WellFormedTree;
use bl_tree::{NoMemory, Refusal};
use std::alloc::Global;

/// The texts of the parts, joined.
pub fn join(alloc: Global, parts: &[Part]) -> Result<Joined, NoMemory>
    requires few { length parts.now ≤ 64 }
    ensures joined { IfOk result (IsJoinedOf (part_texts parts.now)) }
    ensures parts { OnOk result (ArePartsOf parts.now) }
    ensures short { IfOk result (λ joined. length joined.text.items < 2 ^ 32) }
{
    let mut joined = Joined::new(alloc);
    for k in 0..parts.len() {
        add(alloc, &mut joined, &parts[k])?;
    }
    Ok(joined)
}

/// Adds the text of a part.
fn add(alloc: Global, joined: &mut Joined, part: &Part) -> Result<(), NoMemory>
    requires joined { IsJoined joined.old }
    requires room { length joined.old.text.items < 2 ^ 31 }
    ensures part { IsPart part.now }
    ensures added { OnOk result ((texts : List (List ℕ)) → IsJoinedOf texts joined.old → IsJoinedOf (texts ++ part.now.text ∷ []) joined.new) }
    ensures grown { OnOk result (length joined.new.text.items ≤ length joined.old.text.items + 1_048_577) }
{
    part.is_part();
    match joined.add(alloc, part.text()) {
        Ok(()) => Ok(()),
        Err(Refusal::NoMemory) => Err(NoMemory),
        Err(Refusal::Rule { .. }) => unreachable!(),
    }
}

/// The tree of the joined text.
pub fn tree_of(alloc: Global, joined: &Joined) -> Result<WellFormedTree, NoMemory>
    requires { IsReadable joined.now }
    ensures { IfOk result (λ tree. Parses joined.now.text.items tree.raw) }
{
    first_failure_is_one();
    match bl_parse_wellformed::parse(alloc, &joined.text, &joined.tokens) {
        Ok(tree) => Ok(tree),
        Err(Refusal::NoMemory) => Err(NoMemory),
        Err(Refusal::Rule { .. }) => unreachable!(),
    }
}

/// The fault that tells a refusal of the joined text, with its place in one of the texts.
pub fn fault_of(joined: &Joined, refusal: Refusal) -> LinkFault
    requires few { IsOfFew joined.now }
    ensures { (texts : List (List ℕ)) → 0 < length texts → IsJoinedOf texts joined.now → TellsIn texts refusal result }
{
    match refusal {
        Refusal::Rule { rule, place, .. } => {
            let own = joined.in_file(place);
            LinkFault::Rule {
                file: own.file as u32 + 1,
                rule,
                place: own.place,
            }
        }
        Refusal::NoMemory => LinkFault::NoMemory,
    }
}
