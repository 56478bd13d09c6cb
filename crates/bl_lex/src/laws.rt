//! Laws of tokens and of the rules on them, each the contract of a function that does nothing.

ghost use Rattle.std.specs.Prelude.{◌≡◌, ℕ, ◌<◌, ◌≤◌, true, List, ◌∷◌, length, slice_range, All};
ghost use Rattle.std.specs.List.{AllAdjacentBelow};
ghost use Rattle.bl_tree.specs.declared.place.Place.{Place};
ghost use Rattle.bl_tree.specs.declared.rule.Rule.{Rule};
ghost use Rattle.bl_tree.specs.declared.token.Token.{Token};
ghost use Rattle.bl_tree.specs.declared.token.TokenKind.{TokenKind};
ghost use Rattle.bl_tree.specs.Words.{is_name};
ghost use Rattle.bl_lex.specs.Tokens.{FrontOf, Lexes};
ghost use Rattle.bl_lex.specs.Rules.{FailsFirst, Passes};

/// A text has at most one list of tokens.
pub fn tokens_are_one()
    ensures { (text : List ℕ) (tokens others : List Token) → Lexes text tokens → Lexes text others → tokens ≡ others }
{}

/// Tokens have bytes of the text, and stand in it one after the other.
pub fn tokens_stand_in_order()
    ensures inside { (text : List ℕ) (tokens : List Token) → Lexes text tokens
        → All (λ token. (token.place.start < token.place.end) × (token.place.end ≤ length text)) tokens }
    ensures in_order { (text : List ℕ) (tokens : List Token) → Lexes text tokens
        → AllAdjacentBelow (λ token next. token.place.end ≤ next.place.start) tokens (length tokens) }
{}

/// The text of a name is a name.
pub fn names_are_names()
    ensures { (text : List ℕ) (tokens : List Token) → Lexes text tokens
        → All (λ token. token.kind ≡ TokenKind.Name → is_name (slice_range text token.place.start token.place.end) ≡ true) tokens }
{}

/// The text of a name in a front is a name.
pub fn front_names_are_names()
    ensures { (text : List ℕ) (tokens : List Token) (stop : ℕ) → FrontOf text tokens stop
        → All (λ token. token.kind ≡ TokenKind.Name → is_name (slice_range text token.place.start token.place.end) ≡ true) tokens }
{}

/// A text has one front.
pub fn fronts_are_one()
    ensures tokens { (text : List ℕ) (tokens others : List Token) (stop elsewhere : ℕ) → FrontOf text tokens stop → FrontOf text others elsewhere
        → tokens ≡ others }
    ensures stop { (text : List ℕ) (tokens others : List Token) (stop elsewhere : ℕ) → FrontOf text tokens stop → FrontOf text others elsewhere
        → stop ≡ elsewhere }
{}

/// Tokens are those of the text exactly where they are its front up to its end, and no front goes beyond the end.
pub fn whole_fronts_are_lexed()
    ensures lexed { (text : List ℕ) (tokens : List Token) → FrontOf text tokens (length text) → Lexes text tokens }
    ensures whole { (text : List ℕ) (tokens : List Token) → Lexes text tokens → FrontOf text tokens (length text) }
    ensures inside { (text : List ℕ) (tokens : List Token) (stop : ℕ) → FrontOf text tokens stop → stop ≤ length text }
{}

/// Tokens of a front have bytes of the text, and stand in it one after the other.
pub fn front_tokens_stand_in_order()
    ensures inside { (text : List ℕ) (tokens : List Token) (stop : ℕ) → FrontOf text tokens stop
        → All (λ token. (token.place.start < token.place.end) × (token.place.end ≤ stop)) tokens }
    ensures in_order { (text : List ℕ) (tokens : List Token) (stop : ℕ) → FrontOf text tokens stop
        → AllAdjacentBelow (λ token next. token.place.end ≤ next.place.start) tokens (length tokens) }
{}

/// A text fails first by one rule and at one place, or by none.
pub fn first_failure_is_one()
    ensures one { (text : List ℕ) (rule other : Rule) (place elsewhere : Place) (also further : List Place)
        → FailsFirst text rule place also → FailsFirst text other elsewhere further
        → (rule ≡ other) × ((place ∷ also) ≡ (elsewhere ∷ further)) }
    ensures none { (text : List ℕ) (rule : Rule) (place : Place) (also : List Place) → Passes text → ¬ FailsFirst text rule place also }
{}
