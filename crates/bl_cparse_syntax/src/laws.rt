//! Laws of the grammar and of where a text fails, each the contract of a function that does nothing.

ghost use Rattle.std.specs.Prelude.{◌≡◌, ℕ, true, Some, List, [], ◌∷◌, ◌++◌};
ghost use Rattle.bl_grammar.specs.declared.symbol.Symbol.{Symbol};
ghost use Rattle.bl_ctext.specs.Token.{Token};
ghost use Rattle.bl_cparse_syntax.specs.declared.grammar.Roomed.{Roomed};
ghost use Rattle.bl_cparse_syntax.specs.Classes.{Class};
ghost use Rattle.bl_cparse_syntax.specs.Grammar.{Wanted, whole_text, CDerives, SpellText};
ghost use Rattle.bl_cparse_syntax.specs.Tables.{absent, pick};
ghost use Rattle.bl_cparse_syntax.specs.Expects.{CContinuesWith, Expects};
ghost use Rattle.bl_cparse_syntax.specs.Stack.{CStackCompletes};
ghost use Rattle.bl_cparse_syntax.specs.Rules.{Passes, FailsFirst};

/// A text fails at one place, or at none.
pub fn first_failure_is_one()
    ensures one { (text : List ℕ) (start at other : ℕ) → FailsFirst text start at → FailsFirst text start other → at ≡ other }
    ensures none { (text : List ℕ) (start at : ℕ) → Passes text start → ¬ FailsFirst text start at }
{}

/// In a text the pieces that parts stand for are determined: the grammar is read in one way.
pub fn a_text_is_read_in_one_way()
    ensures { (front pieces between other : List Token) (wanted rest : List Wanted) → CStackCompletes front (wanted ++ rest)
        → CDerives wanted pieces between → CDerives rest between [] → CDerives wanted pieces other → CDerives rest other [] → between ≡ other }
{}

/// What a reader that goes down the parts of a text knows of the pieces that are left.
pub fn a_reader_knows_what_follows()
    ensures text { (pieces : List Token) → SpellText pieces → Expects (whole_text ∷ []) pieces }
    ensures production { (part : Roomed) (rest : List Wanted) (next : Token) (pieces : List Token)
        → Expects (Symbol.Nonterminal part ∷ rest) (next ∷ pieces)
        → (production : List Wanted) × (pick part next ≡ Some production) × Expects (production ++ rest) (next ∷ pieces) }
    ensures absent { (part : Roomed) (rest : List Wanted) → Expects (Symbol.Nonterminal part ∷ rest) [] → (absent part.part ≡ true) × Expects rest [] }
    ensures token { (class : Class) (rest : List Wanted) (pieces : List Token) → Expects (Symbol.Terminal class ∷ rest) pieces
        → CContinuesWith class rest pieces }
    ensures nothing { (pieces : List Token) → Expects [] pieces → pieces ≡ [] }
{}
