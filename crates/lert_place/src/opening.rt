//! What a place was asked for, as contracts see it.

ghost use Rattle.std.specs.Prelude.{◌≡◌};

use lert_io::Seen;

/// What a place was asked to open.
#[derive(Drop)]
pub enum Wanted {
    /// The trace of a name.
    Trace { name: Seen<u8> },
    /// The three files of a cone in a directory.
    Bay { dir: Seen<u8>, cone: u32 },
}

/// An opening that a place was asked for: what was wanted, and whether it was opened.
#[derive(Drop)]
pub struct Opening {
    pub wanted: Wanted,
    pub opened: bool,
}

impl Opening {
    /// An opening of the trace of this name.
    pub fn of_trace(name: &str, opened: bool) -> Opening
        ensures { result ≡ record { wanted = Wanted.Trace name.now; opened = opened } }
    {
        Opening {
            wanted: Wanted::Trace { name: seen(name) },
            opened,
        }
    }

    /// An opening of the bay of this cone in this directory.
    pub fn of_bay(dir: &str, cone: u32, opened: bool) -> Opening
        ensures { result ≡ record { wanted = Wanted.Bay dir.now cone; opened = opened } }
    {
        Opening {
            wanted: Wanted::Bay {
                dir: seen(dir),
                cone,
            },
            opened,
        }
    }
}

// A text as contracts see it.
fn seen(text: &str) -> Seen<u8>
    ensures { result ≡ text.now }
{
    let mut seen = Seen::new();
    for byte in text.as_bytes() {
        seen.push(byte);
    }
    seen
}
