//! A line that is joined word by word, in memory that is taken once.
use gic_base::OutOfMemory;
use std::alloc::Global;
use std::marker::Model;

/// A line of at most 512 bytes, its end included. Words and numbers are joined by one space.
#[derive(Debug, Drop)]
pub struct LineBuilder {
    bytes: Vec<u8>,
    begun: bool,
}

impl Model for LineBuilder {
    ghost use Rattle.std.specs.Prelude.{◌≤◌, vec_capacity};
    ghost use Rattle.gic_text.specs.Lines.{BegunLine};

    ghost Value = { BegunLine };

    ghost view = { λ b. record { bytes = b.bytes.items; begun = b.begun } };

    ghost invariant = { λ b. 512 ≤ vec_capacity b.bytes };
}

impl LineBuilder {
    ghost use Rattle.std.specs.Prelude.{◌≡◌, ◌+◌, ◌<◌, ◌≤◌, length, IfOk, [], ◌∷◌, ◌++◌};
    ghost use Rattle.std.specs.Fmt.{signed_decimal};
    ghost use Rattle.gic_text.specs.Lines.{no_line, with_word};
    ghost use Rattle.gic_text.specs.Words.{FitsLine};

    /// An empty line. Takes its 512 bytes here, and no other call takes memory.
    pub fn new(alloc: Global) -> Result<LineBuilder, OutOfMemory>
        ensures { IfOk result (λ b. b ≡ no_line) }
    {
        let bytes = Vec::with_capacity(alloc, 512)?;
        Ok(LineBuilder {
            bytes,
            begun: false,
        })
    }

    /// Begins a new line, and forgets the old one.
    pub fn start(&mut self)
        ensures { self.new ≡ no_line }
    {
        self.bytes.clear();
        self.begun = false;
    }

    /// Adds a word, behind a space unless it is the first.
    pub fn word(&mut self, text: &[u8])
        requires { FitsLine (with_word self.old text.now) }
        ensures value { self.new ≡ with_word self.old text.now }
        ensures size { length self.new.bytes ≤ length self.old.bytes + length text.now + 1 }
    {
        if self.begun {
            let _ = self.bytes.push(b' ');
        }
        let _ = self.bytes.extend_from_slice(text);
        self.begun = true;
    }

    /// Adds a number in decimal, with `-` where it is negative and without leading zeros.
    pub fn number(&mut self, value: i128)
        requires { FitsLine (with_word self.old (signed_decimal value)) }
        ensures value { self.new ≡ with_word self.old (signed_decimal value) }
        // The longest number has 40 bytes.
        ensures size { length self.new.bytes ≤ length self.old.bytes + 41 }
    {
        let mut buffer = itoa::Buffer::new();
        self.word(buffer.format(value).as_bytes());
    }

    /// The whole line, ended by LF. The next line begins with `start`.
    pub fn finish(&mut self) -> &[u8]
        // The end has space too.
        requires { length self.old.bytes < 512 }
        ensures { result.now ≡ self.old.bytes ++ 10 ∷ [] }
    {
        let _ = self.bytes.push(b'\n');
        self.bytes.as_slice()
    }
}
