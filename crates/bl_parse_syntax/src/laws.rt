//! Laws of the grammar and of the rules Depth and Syntax, each the contract of a function that does nothing.

ghost use Rattle.std.specs.Prelude.{◌≡◌, ℕ, true, Some, List, [], ◌∷◌, ◌++◌};
ghost use Rattle.bl_tree.specs.declared.place.Place.{Place};
ghost use Rattle.bl_tree.specs.declared.rule.Rule.{Rule};
ghost use Rattle.bl_tree.specs.declared.token.Token.{Token};
ghost use Rattle.bl_parse_syntax.specs.declared.grammar.TokenView.{TokenView};
ghost use Rattle.bl_grammar.specs.declared.symbol.Symbol.{Symbol};
ghost use Rattle.bl_parse_syntax.specs.declared.grammar.Class.{Class};
ghost use Rattle.bl_parse_syntax.specs.declared.grammar.Part.{Part};
ghost use Rattle.bl_parse_syntax.specs.Grammar.{Piece, the, SourceDerives, IsProgram};
ghost use Rattle.bl_parse_syntax.specs.Tables.{absent, pick};
ghost use Rattle.bl_parse_syntax.specs.Expects.{Expects, SourceContinuesWith};
ghost use Rattle.bl_parse_syntax.specs.Stack.{SourceStackCompletes};
ghost use Rattle.bl_parse_syntax.specs.Rules.{Fails, FailsFirst, Passes};

/// Tokens fail first by one rule and at one place; those that pass fail by none.
pub fn first_failure_is_one()
    ensures one { (size : ℕ) (tokens : List Token) (rule other : Rule) (place elsewhere : Place) (also further : List Place)
        → FailsFirst size tokens rule place also → FailsFirst size tokens other elsewhere further
        → (rule ≡ other) × ((place ∷ also) ≡ (elsewhere ∷ further)) }
    ensures none { (size : ℕ) (tokens : List Token) (rule : Rule) (place : Place) (also : List Place)
        → Passes tokens → ¬ Fails size tokens rule place also }
{}

/// In a program the tokens that symbols stand for are determined: the grammar is read in one way.
pub fn a_program_is_read_in_one_way()
    ensures { (front tokens between other : List TokenView) (symbols rest : List Piece) → SourceStackCompletes front (symbols ++ rest)
        → SourceDerives symbols tokens between → SourceDerives rest between [] → SourceDerives symbols tokens other → SourceDerives rest other [] → between ≡ other }
{}

/// What a reader that goes down the parts of a program knows of the tokens that are left.
pub fn a_reader_knows_what_follows()
    ensures program { (tokens : List TokenView) → IsProgram tokens → Expects (the Part.Program ∷ []) tokens }
    ensures production { (part : Part) (rest : List Piece) (next : TokenView) (tokens : List TokenView)
        → Expects (the part ∷ rest) (next ∷ tokens)
        → (production : List Piece) × (pick part next ≡ Some production) × Expects (production ++ rest) (next ∷ tokens) }
    ensures absent { (part : Part) (rest : List Piece) → Expects (the part ∷ rest) [] → (absent part ≡ true) × Expects rest [] }
    ensures token { (class : Class) (rest : List Piece) (tokens : List TokenView) → Expects (Symbol.Terminal class ∷ rest) tokens
        → SourceContinuesWith class rest tokens }
    ensures nothing { (tokens : List TokenView) → Expects [] tokens → tokens ≡ [] }
{}
