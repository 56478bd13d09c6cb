//! Statements that only set or clear a variable that nothing reads.

ghost use Rattle.std.specs.Prelude.{◌≡◌, ◌∷◌, [], MatchOption, true};
ghost use Rattle.bl_ctext_semantics.specs.inner.Maps.{text_at};
ghost use Rattle.bl_simplify_laws.specs.Live.{clear_stmt};
ghost use Rattle.bl_simplify_live.specs.Forms.{IsDeadPlace};
ghost use Rattle.bl_simplify_live.specs.Reads.{LivesAs};

use crate::reads::Names;
use bl_ctext_semantics::maps::has;
use bl_simplify_facts::told::{is_steady, is_total};
use bl_simplify_laws::live::live_stmts;
use bl_simplify_walk::parts::assignment_of;
use bl_tree::Text;
use bl_tree::c::{CPlace, CStmt, CStmtKind};
use bl_tree::place::Place;

/// Whether a place is a variable that isn't among the names, or a part of it, and surely has a location.
fn is_dead_place(read: &Names<'_>, place: &CPlace) -> bool
    ensures { result ≡ true → IsDeadPlace (text_at read.now) place.now }
{
    !place.through && !has(read, &place.name) && is_steady(place)
}

/// The place that a statement clears, and where it stands.
#[derive(Clone, Copy)]
struct Clearing<'a> {
    place: Place,
    at: &'a CPlace,
    of: &'a Text,
}

/// The parts of a statement that clears a struct.
fn clearing_of(stmt: &CStmt) -> Option<Clearing<'_>>
    ensures { MatchOption result (Unit {0}) (λ it. stmt.now ≡ clear_stmt it.place it.at.now it.of.now) }
{
    match &stmt.what {
        CStmtKind::Clear(at, of) => Some(Clearing {
            place: stmt.place,
            at,
            of,
        }),
        _ => None,
    }
}

/// Whether a statement only sets a variable that isn't among the names.
fn is_dead_set(read: &Names<'_>, stmt: &CStmt) -> bool
    ensures { result ≡ true → LivesAs (text_at read.now) (stmt.now ∷ []) [] }
{
    live_stmts();
    match assignment_of(stmt) {
        Some(it) => is_dead_place(read, it.at) && is_total(it.value),
        None => false,
    }
}

/// Whether a statement only clears a variable that isn't among the names.
fn is_dead_clearing(read: &Names<'_>, stmt: &CStmt) -> bool
    ensures { result ≡ true → LivesAs (text_at read.now) (stmt.now ∷ []) [] }
{
    live_stmts();
    match clearing_of(stmt) {
        Some(it) => is_dead_place(read, it.at),
        None => false,
    }
}

/// Whether a statement does nothing where only these names are read.
pub fn is_dead(read: &Names<'_>, stmt: &CStmt) -> bool
    ensures { result ≡ true → LivesAs (text_at read.now) (stmt.now ∷ []) [] }
{
    is_dead_set(read, stmt) || is_dead_clearing(read, stmt)
}
