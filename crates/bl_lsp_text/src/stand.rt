//! A reader of a text, byte by byte.

ghost use Rattle.std.specs.Prelude.{◌≡◌, ◌+◌, ◌*◌, ◌^◌, ◌<◌, ◌≤◌, false, length};
ghost use Rattle.bl_lsp_text.specs.Positions.{at_start, passed, passed_all, units_at};

/// Where a reader of a text stands.
#[derive(Clone, Copy, PartialEq, Eq, Debug)]
pub struct Stand {
    /// How many lines have ended.
    pub line: u64,
    /// How many UTF-16 units of the line have been read.
    pub unit: u64,
    /// Whether the last byte was a carriage return.
    pub returned: bool,
}

impl Stand {
    /// Before the first byte.
    pub fn start() -> Stand
        ensures { result ≡ at_start }
    {
        Stand {
            line: 0,
            unit: 0,
            returned: false,
        }
    }

    /// Behind one more byte.
    pub fn passed(self, byte: u8) -> Stand
        requires { self.line + self.unit + 2 < 2 ^ 64 }
        ensures { result ≡ passed self byte }
    {
        match byte {
            b'\n' => self.fed(),
            b'\r' => self.next_line(true),
            _ => Stand {
                line: self.line,
                unit: self.unit + units_at(byte),
                returned: false,
            },
        }
    }

    /// Behind a line feed, which belongs to the carriage return before it.
    fn fed(self) -> Stand
        requires { self.line + self.unit + 2 < 2 ^ 64 }
        ensures { result ≡ passed self 10 }
    {
        if self.returned {
            Stand {
                line: self.line,
                unit: self.unit,
                returned: false,
            }
        } else {
            self.next_line(false)
        }
    }

    /// At the start of the next line.
    fn next_line(self, returned: bool) -> Stand
        requires { self.line + self.unit + 2 < 2 ^ 64 }
        ensures line { result.line ≡ self.line + 1 }
        ensures unit { result.unit ≡ 0 }
        ensures returned { result.returned ≡ returned }
    {
        Stand {
            line: self.line + 1,
            unit: 0,
            returned,
        }
    }

    /// Behind more bytes.
    pub fn passed_all(self, bytes: &[u8]) -> Stand
        requires { self.line + self.unit + 2 * length bytes.now < 2 ^ 64 }
        ensures { result ≡ passed_all self bytes.now }
    {
        let mut stand = self;
        for byte in bytes {
            stand = stand.passed(*byte);
        }
        stand
    }
}

/// How many UTF-16 units the character has that begins with this byte; none where it goes on with it.
pub fn units_at(byte: u8) -> u64
    ensures value { result ≡ units_at byte }
    ensures few { result ≤ 2 }
{
    match byte {
        0..=127 => 1,
        128..=191 => 0,
        192..=239 => 1,
        240..=255 => 2,
    }
}
