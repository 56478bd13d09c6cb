//! Parts linked.

ghost use Rattle.std.specs.Prelude.{◌≤◌, length, IfErr, IfOk};
ghost use Rattle.bl_link.specs.Fits.{PartsFit};
ghost use Rattle.bl_link.specs.Linked.{AreLinked, LinkStops};
ghost use Rattle.bl_rules_laws_sizes.specs.Small.{IsOfSmallTree};

use crate::fault::LinkFault;
use crate::fits::check_fit;
use crate::whole::{fault_of, join, tree_of};
use bl_joined_laws::items::joined_tokens_pass;
use bl_joined_laws::tokens::joined_texts_have_joined_tokens;
use bl_lex::laws::tokens_are_one;
use bl_module::Part;
use bl_module_laws::files::files_are_the_whole;
use bl_rules::{AcceptedSource, accept_raw};
use bl_rules_laws_sizes::programs_of_texts_are_small;
use bl_tree::NoMemory;
use std::alloc::Global;

/// The program of parts in order (docs/LANGUAGE.md, "Files and interfaces"). Nothing of the parts is copied but their bytes.
pub fn link(alloc: Global, parts: &[Part]) -> Result<AcceptedSource, LinkFault>
    requires some { 1 ≤ length parts.now }
    requires few { length parts.now ≤ 64 }
    ensures accepted { IfOk result (λ accepted. AreLinked parts.now accepted.program) }
    ensures of_small_tree { IfOk result (λ accepted. IsOfSmallTree accepted.program) }
    ensures fault { IfErr result (LinkStops parts.now) }
{
    match check_fit(parts) {
        Ok(()) => link_files(alloc, parts),
        Err(fault) => Err(fault),
    }
}

/// The program of parts that fit together.
fn link_files(alloc: Global, parts: &[Part]) -> Result<AcceptedSource, LinkFault>
    requires fit { PartsFit parts.now }
    requires some { 1 ≤ length parts.now }
    requires few { length parts.now ≤ 64 }
    ensures accepted { IfOk result (λ accepted. AreLinked parts.now accepted.program) }
    ensures of_small_tree { IfOk result (λ accepted. IsOfSmallTree accepted.program) }
    ensures fault { IfErr result (LinkStops parts.now) }
{
    joined_texts_have_joined_tokens();
    joined_tokens_pass();
    tokens_are_one();
    programs_of_texts_are_small();
    files_are_the_whole();
    let joined = match join(alloc, parts) {
        Ok(joined) => joined,
        Err(NoMemory) => return Err(LinkFault::NoMemory),
    };
    let tree = match tree_of(alloc, &joined) {
        Ok(tree) => tree,
        Err(NoMemory) => return Err(LinkFault::NoMemory),
    };
    match accept_raw(alloc, &tree) {
        Ok(accepted) => Ok(accepted),
        Err(refusal) => Err(fault_of(&joined, refusal)),
    }
}
