//! Texts of files, judged in turn.

ghost use Rattle.std.specs.Prelude.{◌≡◌, ◌+◌, ◌<◌, ◌≤◌, [], ◌∷◌, ◌++◌, length, IfErr, IfOk};
ghost use Rattle.bl_link.specs.Files.{AreFilesOf};
ghost use Rattle.bl_link_files.specs.inner.Judged.{IsStopOf, NextTextStops, StopsInTurn, TextsStop};
ghost use Rattle.bl_rules_laws_sizes.specs.Small.{IsOfSmallTree};

use crate::fault::ProgramFault;
use bl_link::{FirstFiles, LinkFault};
use bl_module::PartFault;
use bl_rules::AcceptedSource;
use bl_tree::List;
use std::alloc::Global;

/// The program of these texts, each judged behind the faces of those before it, and then all of them together.
pub fn program_in_turn(alloc: Global, texts: &[List<u8>]) -> Result<AcceptedSource, ProgramFault>
    requires some { 1 ≤ length texts.now }
    requires few { length texts.now ≤ 64 }
    ensures program { IfOk result (λ accepted. AreFilesOf texts.now accepted.program) }
    ensures of_small_tree { IfOk result (λ accepted. IsOfSmallTree accepted.program) }
    ensures fault { IfErr result (TextsStop texts.now) }
{
    match judged_in_turn(alloc, texts.len(), texts) {
        Ok(judged) => link_all(alloc, &judged),
        Err(fault) => Err(fault),
    }
}

/// Why so many files stop of which these texts were read, and the next one can't be: the first rule that fails for one of the texts, if one does.
pub fn stop_in_turn(alloc: Global, count: usize, texts: &[List<u8>]) -> ProgramFault
    requires some { 1 ≤ count }
    requires few { count ≤ 64 }
    requires within { length texts.now ≤ count }
    ensures { IsStopOf count texts.now result }
{
    match judged_in_turn(alloc, count, texts) {
        Ok(judged) => {
            judged.are_good();
            ProgramFault::Unread
        }
        Err(fault) => fault,
    }
}

/// The texts as the first of so many files, each compiled behind the faces of those before it.
fn judged_in_turn(
    alloc: Global,
    count: usize,
    texts: &[List<u8>],
) -> Result<FirstFiles, ProgramFault>
    requires some { 1 ≤ count }
    requires few { count ≤ 64 }
    requires within { length texts.now ≤ count }
    ensures count { IfOk result (λ judged. judged.count ≡ count) }
    ensures texts { IfOk result (λ judged. judged.texts ≡ texts.now) }
    ensures fault { IfErr result (StopsInTurn count texts.now) }
{
    let mut judged = FirstFiles::new(alloc, count);
    for k in 0..texts.len() {
        match with_text(alloc, judged, k as u32 + 1, &texts[k]) {
            Ok(more) => judged = more,
            Err(fault) => return Err(fault),
        }
    }
    Ok(judged)
}

/// The files with the one of this number behind them.
fn with_text(
    alloc: Global,
    judged: FirstFiles,
    number: u32,
    text: &[u8],
) -> Result<FirstFiles, ProgramFault>
    requires room { length judged.texts < judged.count }
    requires number { number ≡ length judged.texts + 1 }
    ensures count { IfOk result (λ more. more.count ≡ judged.count) }
    ensures texts { IfOk result (λ more. more.texts ≡ judged.texts ++ text.now ∷ []) }
    ensures fault { IfErr result (NextTextStops judged.count judged.texts text.now) }
{
    match judged.with(alloc, text) {
        Ok(more) => Ok(more),
        Err(PartFault::Rule { rule, place, also }) => Err(ProgramFault::InTurn {
            file: number,
            rule,
            place,
            also,
        }),
        Err(PartFault::NoMemory) => Err(ProgramFault::NoMemory),
        Err(PartFault::BadFace { .. }) => unreachable!(),
    }
}

/// The program of all files, joined.
fn link_all(alloc: Global, judged: &FirstFiles) -> Result<AcceptedSource, ProgramFault>
    requires { length judged.now.texts ≡ judged.now.count }
    ensures program { IfOk result (λ accepted. AreFilesOf judged.now.texts accepted.program) }
    ensures of_small_tree { IfOk result (λ accepted. IsOfSmallTree accepted.program) }
    ensures fault { IfErr result (TextsStop judged.now.texts) }
{
    match judged.link(alloc) {
        Ok(accepted) => Ok(accepted),
        Err(LinkFault::Rule { file, rule, place }) => Err(ProgramFault::Together {
            file,
            rule,
            place,
        }),
        Err(LinkFault::NoMemory) => Err(ProgramFault::NoMemory),
        Err(LinkFault::Face { .. } | LinkFault::Last { .. }) => unreachable!(),
    }
}
