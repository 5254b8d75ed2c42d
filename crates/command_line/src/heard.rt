// A sink that passes everything on, and keeps the front of it: the line of a refusal, by which its message is chosen.
ghost use Rattle.std.specs.Prelude.{◌≤◌};
ghost use Rattle.command_line.specs.declared.heard.TheConstants.{MOST_KEPT};

use outside::{Failed, Sink};

// A line of a refusal is shorter than this.
const MOST_KEPT: usize = 64;

// The first bytes of what was passed on.
#[derive(Drop)]
struct Front {
    bytes: [u8; MOST_KEPT],
    len: usize,
    ghost within: { len ≤ MOST_KEPT },
}

impl Front {
    fn keep(&mut self, bytes: &[u8]) {
        for byte in bytes {
            if self.len == MOST_KEPT {
                return;
            }
            self.bytes[self.len] = *byte;
            self.len += 1;
        }
    }

    fn text(&self) -> &str {
        match str::from_utf8(&self.bytes[..self.len]) {
            Ok(text) => text,
            Err(_) => "",
        }
    }
}

/// What goes to another sink, of which the first bytes are kept.
#[derive(Drop)]
pub struct Heard<K: Sink> {
    /// The other sink.
    pub inner: K,
    front: Front,
}

impl<K: Sink> Heard<K> {
    /// What this sink takes, from here on.
    pub fn new(inner: K) -> Self {
        Heard {
            inner,
            front: Front {
                bytes: [0; MOST_KEPT],
                len: 0,
            },
        }
    }

    /// The text so far without its last line feed, as far as it was kept. Empty where it is no text.
    pub fn line(&self) -> &str {
        self.front.text().trim_end_matches('\n')
    }
}

impl<K: Sink> Sink for Heard<K> {
    ghost taken = { λ s. K.taken s.inner };

    ghost faults = { λ s. K.faults s.inner };

    fn push(&mut self, buf: &[u8]) -> Result<usize, Failed> {
        let count = self.inner.push(buf)?;
        self.front.keep(&buf[..count]);
        Ok(count)
    }
}
