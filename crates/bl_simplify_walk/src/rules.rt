//! Laws of the forms in which an `if` and what follows it are written anew (`specs/Forms.antt`, `specs/Joined.antt`). Lemmas only.

ghost use Rattle.bl_simplify_walk.specs.Forms.{FormCopied, FormKept, FormKeptSame, FormSplit, FormSplitSame, FormTurns};
ghost use Rattle.bl_simplify_walk.specs.Joined.{FormAnd, FormBranches, FormChain, FormEmpty, FormEnds, FormItself, FormNext};
ghost use Rattle.bl_simplify_walk.specs.Joined.{FormOr, FormPart, FormThen, FormTurned};

use bl_simplify_laws::conditions::tested_stmts;
use bl_simplify_laws::joins::{joined_branches, joined_tests, same_blocks};
use bl_simplify_laws::rules::{block_rules, step_rules, stmt_rules};

/// A block may stand as it is.
pub fn copied_blocks()
    ensures { FormCopied }
{}

/// What follows an `if` in its branches.
pub fn split_forms()
    ensures split { FormSplit }
    ensures same { FormSplitSame }
{
    block_rules();
    stmt_rules();
    step_rules();
    tested_stmts();
}

/// What follows an `if` behind it.
pub fn kept_forms()
    ensures kept { FormKept }
    ensures same { FormKeptSame }
{
    block_rules();
    stmt_rules();
    tested_stmts();
}

/// A loop with a new body.
pub fn turn_forms()
    ensures { FormTurns }
{
    block_rules();
    stmt_rules();
}

/// An `if` whose branches have something in common.
pub fn join_forms()
    ensures ends { FormEnds }
    ensures nothing { FormEmpty }
    ensures followed { FormThen }
    ensures next { FormNext }
    ensures branches { FormBranches }
    ensures chain { FormChain }
    ensures itself { FormItself }
    ensures turned { FormTurned }
    ensures or { FormOr }
    ensures and { FormAnd }
{
    same_blocks();
    joined_tests();
    joined_branches();
}

/// A block of which a part is written anew.
pub fn part_forms()
    ensures { FormPart }
{}
