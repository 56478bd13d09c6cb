//! The rules on names and types, judged in their order, and the typed program of a tree that passes.

ghost use Rattle.std.specs.Prelude.{◌≡◌, IfErr, IfOk, IsTrue, OnOk, true};
ghost use Rattle.bl_names_scopes.specs.Rules.{Passes as NamesPass};
ghost use Rattle.bl_types_program.specs.Cause.{IsCause};
ghost use Rattle.bl_types_program.specs.Programs.{IsProgramOf, named_of};
ghost use Rattle.bl_parse_tree.specs.Starts.{ascends};
ghost use Rattle.bl_parse_tree.specs.WellFormed.{RawIsWellFormed};
ghost use Rattle.bl_tree.specs.Program.{IsWellTyped};
ghost use Rattle.bl_types.specs.Rules.{Passes as TypesPass};
ghost use Rattle.bl_types_laws.specs.Standing.{are_shallow};
ghost use Rattle.bl_types_laws.specs.Starts.{all_starts};

use bl_parse_tree::Raw;
use bl_tree::{Program, Refusal};
use bl_types::Typed;
use bl_types_laws::kept::what_is_typed_keeps;
use bl_types_laws::order::statements_begin_in_order;
use std::alloc::Global;

/// Judges the rules on names, and where none of them fails those on types, and makes the typed program of a tree that
/// passes. The tree is one that a text spells: it keeps what such trees keep. A `Program` may nest twice as deep as a source, and this
/// one nests no deeper than a source: 100 blocks. Its statements and the conditions of its loops begin one after another, as those of a
/// source do.
pub fn check(alloc: Global, raw: &Raw) -> Result<Program, Refusal>
    requires keeps { RawIsWellFormed raw.now.items }
    ensures names { OnOk result (NamesPass raw.now.items) }
    ensures types { OnOk result (TypesPass (named_of raw.now)) }
    ensures typed { IfOk result (λ program. IsProgramOf raw.now program) }
    ensures shallow { IfOk result (λ program. are_shallow program.units ≡ true) }
    ensures ordered { IfOk result (λ program. IsTrue (ascends (all_starts program.units))) }
    ensures cause { IfErr result (IsCause raw.now) }
{
    what_is_typed_keeps();
    statements_begin_in_order();
    let named = match bl_names::resolve(alloc, raw) {
        Ok(named) => named,
        Err(refusal) => return Err(refusal),
    };
    match bl_types::judge(alloc, &named) {
        Ok(typed) => Ok(program_of(typed)),
        Err(refusal) => Err(refusal),
    }
}

/// The program that has these structs and units.
fn program_of(typed: Typed) -> Program
    requires { IsWellTyped typed.structs typed.units typed.entry }
    ensures structs { result.structs ≡ typed.structs }
    ensures units { result.units ≡ typed.units }
    ensures entry { result.entry ≡ typed.entry }
{
    let Typed {
        structs,
        units,
        entry,
    } = typed;
    Program {
        structs,
        units,
        entry,
    }
}
