//! Files that are written line by line.
use std::alloc::{AllocError, Global};

/// A file that runs may fetch, as the lines of a script have written it so far.
#[derive(Drop)]
pub struct TextFile {
    pub name: String,
    pub bytes: Vec<u8>,
}

impl TextFile {
    /// An empty file.
    pub(crate) fn new(alloc: Global, name: &str) -> Result<TextFile, AllocError> {
        Ok(TextFile {
            name: String::from_str(alloc, name)?,
            bytes: Vec::new(alloc),
        })
    }

    /// Adds a line.
    pub(crate) fn add(&mut self, line: &str) -> Result<(), AllocError> {
        self.bytes.extend_from_slice(line.as_bytes())?;
        self.bytes.push(b'\n')?;
        Ok(())
    }

    /// Adds a given number of lines, where `@` stands for their numbers from 0, and `^` for how many are left with this
    /// one, below zero where the number is odd.
    pub(crate) fn add_many(
        &mut self,
        alloc: Global,
        count: u32,
        line: &str,
    ) -> Result<(), AllocError> {
        for number in 0..count {
            let sign = if number % 2 == 0 { "" } else { "-" };
            let left = format!(in alloc; "{sign}{}", count - number)?;
            let number = format!(in alloc; "{number}")?;
            let numbered = line.replace(alloc, "@", number.as_str())?;
            let turned = numbered.as_str().replace(alloc, "^", left.as_str())?;
            self.add(turned.as_str())?;
        }
        Ok(())
    }

    /// Adds a comment up to a given number of bytes in all.
    pub(crate) fn fill(&mut self, length: usize) -> Result<(), AllocError> {
        for _ in self.bytes.len()..length {
            self.bytes.push(b'#')?;
        }
        Ok(())
    }

    /// Takes a given number of bytes away at the end.
    pub(crate) fn cut(&mut self, count: usize) {
        self.bytes.truncate(self.bytes.len().saturating_sub(count));
    }
}

/// The bytes of the last file of this name, none where there is no such file.
pub(crate) fn bytes_of<'a>(files: &'a [TextFile], name: &str) -> &'a [u8] {
    match files.iter().rev().find(|file| file.name.as_str() == name) {
        Some(file) => file.bytes.as_slice(),
        None => &[],
    }
}
