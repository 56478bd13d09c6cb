//! Numbers that facts tell, and comparisons of a value of which a fact is known with a number.

ghost use Rattle.std.specs.Prelude.{◌≡◌, option_and_then, option_map, ◌&&◌, ◌||◌};
ghost use Rattle.bl_tree.specs.Numbers.{checked_one_of};
ghost use Rattle.bl_tree.specs.declared.scalar.Op.TheVariants.{Not};
ghost use Rattle.bl_tree.specs.declared.scalar.Scalar.TheVariants.{Bool as OfBool};
ghost use Rattle.bl_simplify_laws.specs.declared.facts.Fact.TheVariants.{Is};
ghost use Rattle.bl_simplify_laws.specs.Known.{comparison_by, comparison_told, decided_by, exact as exact_in, only_at as only_at_number, sure_order};
ghost use Rattle.bl_simplify_facts.specs.inner.Told.{joins_or_compares};

use bl_simplify_laws::facts::Fact;
use bl_tree::Op;

/// The number that a fact tells.
pub fn exact(fact: Option<Fact>) -> Option<i128>
    ensures { result ≡ option_and_then exact_in fact }
{
    match fact {
        Some(Fact::Is(n) | Fact::Number(n)) => Some(n),
        _ => None,
    }
}

/// A fact that tells this number.
pub fn only_at(n: i128, fact: Option<Fact>) -> Option<Fact>
    ensures { result ≡ only_at_number n fact }
{
    match fact {
        Some(Fact::Is(k) | Fact::Number(k)) if k == n => fact,
        _ => None,
    }
}

/// The fact of `!` of a value of which a fact may be known.
pub fn negated(fact: Option<Fact>) -> Option<Fact>
    ensures { result ≡ option_map Is (option_and_then (checked_one_of Not OfBool) (option_and_then exact_in fact)) }
{
    match exact(fact) {
        Some(1) => Some(Fact::Is(0)),
        Some(_) => Some(Fact::Is(1)),
        None => None,
    }
}

/// Whether an operator is a comparison, `&&` or `||`.
pub fn compares(op: Op) -> bool
    ensures { result ≡ joins_or_compares op }
{
    matches!(
        op,
        Op::And | Op::Or | Op::Eq | Op::Ne | Op::Lt | Op::Le | Op::Gt | Op::Ge
    )
}

/// The fact of a comparison, where the right side is a number and enough is known of the left.
pub fn compared(op: Op, left: Option<Fact>, right: Option<i128>) -> Option<Fact>
    ensures { result ≡ comparison_told op left right }
{
    match (left, right) {
        (Some(fact), Some(n)) => compared_to(op, fact, n),
        _ => None,
    }
}

fn compared_to(op: Op, fact: Fact, n: i128) -> Option<Fact>
    ensures { result ≡ comparison_by op (sure_order fact n) }
{
    match op {
        Op::Eq => decided(is_at(fact, n), is_apart(fact, n)),
        Op::Ne => decided(is_apart(fact, n), is_at(fact, n)),
        Op::Lt => decided(is_under(fact, n), is_no_less(fact, n)),
        Op::Le => decided(is_no_more(fact, n), is_above(fact, n)),
        Op::Gt => decided(is_above(fact, n), is_no_more(fact, n)),
        Op::Ge => decided(is_no_less(fact, n), is_under(fact, n)),
        _ => None,
    }
}

fn decided(holds: bool, fails: bool) -> Option<Fact>
    ensures { result ≡ decided_by holds fails }
{
    if holds {
        Some(Fact::Is(1))
    } else if fails {
        Some(Fact::Is(0))
    } else {
        None
    }
}

fn is_at(fact: Fact, n: i128) -> bool
    ensures { result ≡ (sure_order fact n).no_more && (sure_order fact n).no_less }
{
    is_no_more(fact, n) && is_no_less(fact, n)
}

fn is_apart(fact: Fact, n: i128) -> bool
    ensures { result ≡ (sure_order fact n).under || (sure_order fact n).above }
{
    is_under(fact, n) || is_above(fact, n)
}

fn is_under(fact: Fact, n: i128) -> bool
    ensures { result ≡ (sure_order fact n).under }
{
    match fact {
        Fact::Is(k) => k < n,
        Fact::Number(k) => k < n,
        Fact::AtMost(k) => k < n,
        Fact::AtLeast(_) => false,
    }
}

fn is_above(fact: Fact, n: i128) -> bool
    ensures { result ≡ (sure_order fact n).above }
{
    match fact {
        Fact::Is(k) => n < k,
        Fact::Number(k) => n < k,
        Fact::AtLeast(k) => n < k,
        Fact::AtMost(_) => false,
    }
}

fn is_no_more(fact: Fact, n: i128) -> bool
    ensures { result ≡ (sure_order fact n).no_more }
{
    match fact {
        Fact::Is(k) => k <= n,
        Fact::Number(k) => k <= n,
        Fact::AtMost(k) => k <= n,
        Fact::AtLeast(_) => false,
    }
}

fn is_no_less(fact: Fact, n: i128) -> bool
    ensures { result ≡ (sure_order fact n).no_less }
{
    match fact {
        Fact::Is(k) => n <= k,
        Fact::Number(k) => n <= k,
        Fact::AtLeast(k) => n <= k,
        Fact::AtMost(_) => false,
    }
}
