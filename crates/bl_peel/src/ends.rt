//! Whether the branches of a `cobegin` let it end in the tick in which it begins.

ghost use Rattle.std.specs.Prelude.{◌≡◌, []};
ghost use Rattle.bl_peel.specs.inner.Parts.{ends_at_once, ends_of, ends_with};

/// What branches say of the end of their `cobegin`.
#[derive(Clone, Copy)]
pub struct Ends {
    /// Whether one of them is strong.
    is_strong: bool,
    /// Whether each strong one may end at once.
    strong: bool,
    /// Whether some branch may end at once.
    some: bool,
}

impl Ends {
    /// What no branches say.
    pub fn new() -> Ends
        ensures { result ≡ ends_of [] }
    {
        Ends {
            is_strong: false,
            strong: true,
            some: false,
        }
    }

    /// With one branch more.
    pub fn with(self, weak: bool, instant: bool) -> Ends
        ensures { result ≡ ends_with self weak instant }
    {
        Ends {
            is_strong: self.is_strong | !weak,
            strong: self.strong & (weak | instant),
            some: self.some | instant,
        }
    }

    /// Whether the `cobegin` may end in the tick in which it begins.
    pub fn at_once(self) -> bool
        ensures { result ≡ ends_at_once self }
    {
        if self.is_strong {
            self.strong
        } else {
            self.some
        }
    }
}
