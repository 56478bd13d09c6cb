//! Texts that contracts see as their bytes.

ghost use Rattle.std.specs.Prelude.{◌≡◌, string_bytes, IfOk};

use arrayvec::ArrayString;
use std::alloc::{AllocError, Global};
use std::marker::Model;
use std::ops::DerefStr;

/// How many bytes a text keeps in itself. Most names are no longer, and a name of a tree takes no memory of its own then.
const SHORT: usize = 16;

#[derive(Drop)]
enum Held {
    Short(ArrayString<SHORT>),
    Long(String),
}

/// Text that contracts see as its bytes.
pub struct Text {
    held: Held,
}

impl Drop for Text {
    fn drop(self) {
        let Text { held: _ } = self;
    }
}

impl Model for Text {
    ghost use Rattle.std.specs.Prelude.{ℕ, List};
    ghost use Rattle.bl_tree.specs.Held.{held_bytes};

    ghost Value = { List ℕ };

    ghost view = { λ owner. held_bytes owner.held };
}

impl Text {
    /// A copy of a text. Fails only for want of memory.
    pub fn copy_of(alloc: Global, text: &str) -> Result<Text, AllocError>
        ensures { IfOk result (λ copy. copy ≡ text.now) }
    {
        if let Ok(short) = ArrayString::from(text) {
            return Ok(Text {
                held: Held::Short(short),
            });
        }
        Ok(Text {
            held: Held::Long(String::from_str(alloc, text)?),
        })
    }

    pub fn from_string(text: String) -> Text
        ensures { result ≡ string_bytes text }
    {
        Text {
            held: Held::Long(text),
        }
    }

    pub fn as_str(&self) -> &str
        ensures { result.now ≡ self.now }
    {
        match &self.held {
            Held::Short(text) => text.as_str(),
            Held::Long(text) => text.as_str(),
        }
    }
}

impl DerefStr for Text {
    ghost deref_gives = { λ owner text. text ≡ owner };

    fn deref(&self) -> &str {
        self.as_str()
    }
}
