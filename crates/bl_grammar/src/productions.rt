//! What the parts of a grammar may stand for.

ghost use Rattle.std.specs.Prelude.{◌≡◌, true, false};

/// What a part may stand for.
#[derive(Drop)]
pub struct Productions<C: 'static> {
    pub choices: &'static [C],
    /// It may also stand for nothing.
    pub may_be_absent: bool,
}

/// What a part may stand for that is never absent.
pub fn needed<C>(choices: &'static [C]) -> Productions<C>
    ensures choices { result.choices.now ≡ choices.now }
    ensures needed { result.may_be_absent ≡ false }
{
    Productions {
        choices,
        may_be_absent: false,
    }
}

/// What a part may stand for that may be absent.
pub fn optional<C>(choices: &'static [C]) -> Productions<C>
    ensures choices { result.choices.now ≡ choices.now }
    ensures optional { result.may_be_absent ≡ true }
{
    Productions {
        choices,
        may_be_absent: true,
    }
}
