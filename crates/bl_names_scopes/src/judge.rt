//! What is judged on the way through a program: the open scopes, and the first failure so far.

ghost use Rattle.std.specs.Prelude.{◌≡◌, IfOk, OnOk};
ghost use Rattle.bl_tree.specs.Rules.{lesser};
ghost use Rattle.bl_names_scopes.specs.inner.Failures.{failure};
ghost use Rattle.bl_names_scopes.specs.inner.Judged.{fresh, judged};
ghost use Rattle.bl_names_scopes.specs.Marks.{closes, declares, opens, uses};
ghost use Rattle.bl_names_scopes.specs.Scopes.{opened_by};

use crate::heading::Heading;
use crate::kind::{Kind, Wanted, suits};
use crate::scopes::Scopes;
use bl_parse_tree::name::Name;
use bl_tree::rule::lesser;
use bl_tree::{Failure, Further, NoMemory, Place, Rule};
use std::alloc::Global;

/// The open scopes, and the first failure so far.
#[derive(Drop)]
pub struct Judge<'a> {
    pub scopes: Scopes<'a>,
    pub first: Option<Failure>,
}

impl<'a> Judge<'a> {
    /// Behind headings nothing has failed yet.
    pub fn behind(alloc: Global, headings: &'a [Heading]) -> Result<Judge<'a>, NoMemory>
        ensures { IfOk result (λ judge. judge ≡ fresh (opened_by headings.now)) }
    {
        Ok(Judge {
            scopes: Scopes::behind(alloc, headings)?,
            first: None,
        })
    }

    /// A scope begins.
    pub fn open(&mut self, alloc: Global) -> Result<(), NoMemory>
        ensures { OnOk result (self.new ≡ judged self.old opens) }
    {
        self.scopes.open(alloc)
    }

    /// The innermost scope ends.
    pub fn close(&mut self, alloc: Global)
        ensures { self.new ≡ judged self.old closes }
    {
        self.scopes.close(alloc)
    }

    /// A name is declared.
    pub fn declare(&mut self, name: &'a Name, kind: Kind) -> Result<(), NoMemory>
        ensures { OnOk result (self.new ≡ judged self.old (declares name.now kind)) }
    {
        if let Some(earlier) = self.scopes.declare(name, kind)? {
            self.fail(Rule::Duplicate, name.place, Further::One(earlier.place));
        }
        Ok(())
    }

    /// A name is used.
    pub fn see(&mut self, name: &Name, wanted: Wanted)
        ensures { self.new ≡ judged self.old (uses name.now wanted) }
    {
        match self.scopes.find(&name.text) {
            Some(declaration) => {
                if !suits(wanted, declaration.kind) {
                    self.fail(Rule::Kind, name.place, Further::One(declaration.place));
                }
            }
            None => self.fail(Rule::Unknown, name.place, Further::Nothing),
        }
    }

    /// A rule fails. The first failure of all is kept.
    fn fail(&mut self, rule: Rule, at: Place, further: Further)
        ensures { self.new ≡ record self.old { first = lesser self.old.first (failure rule at further) } }
    {
        self.first = lesser(self.first, Failure { rule, at, further });
    }
}
