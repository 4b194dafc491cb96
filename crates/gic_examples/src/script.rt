//! Scripts of examples, line by line.
use crate::comparison::is_enclosure;
use crate::files::{TextFile, bytes_of};
use crate::outcome::{Ended, Surroundings, run, run_byte_by_byte, run_prefixes};
use std::alloc::{AllocError, Global};
use std::io;

/// A script as it has been followed so far.
#[derive(Drop)]
pub struct Script {
    alloc: Global,
    files: Vec<TextFile>,
    /// The name of the example that is open, empty where none is.
    name: String,
    surroundings: Surroundings,
    width: i64,
    ended: Ended,
    /// How many lines of the output have been compared.
    compared: usize,
    /// The first line or call of the example that didn't come out, empty where all did.
    complaint: String,
    /// How many examples were closed, and how many of them went wrong.
    pub examples: u32,
    pub wrong: u32,
}

impl Script {
    /// A script of which no line was followed.
    pub(crate) fn new(alloc: Global) -> Result<Script, AllocError> {
        Ok(Script {
            alloc,
            files: Vec::new(alloc),
            name: String::new(alloc),
            surroundings: Surroundings::plain(alloc)?,
            width: 100,
            ended: nothing(alloc),
            compared: 0,
            complaint: String::new(alloc),
            examples: 0,
            wrong: 0,
        })
    }

    /// Follows a line: it writes to a file, opens an example, runs it, or is compared with what the run left.
    pub(crate) fn follow(&mut self, rt: &HostRuntime, line: &str) -> io::Result<()> {
        let (word, rest) = line.split_once(' ').unwrap_or((line, ""));
        match word {
            "" | "#" => {}
            "example" => self.open(rt, rest)?,
            "failing" => self.fail(rest)?,
            "monitors" => self.surroundings.monitors = String::from_str(self.alloc, rest)?,
            "width" => match rest.parse::<i64>() {
                Ok(width) => self.width = width,
                Err(_) => self.complain(line)?,
            },
            "run" => {
                self.ended = run(self.alloc, rest, self.files.as_slice(), &self.surroundings)?;
            }
            "run-byte-by-byte" => {
                self.ended = run_byte_by_byte(
                    self.alloc,
                    rest,
                    self.files.as_slice(),
                    &self.surroundings,
                )?;
            }
            "run-prefixes" => {
                self.ended = run_prefixes(
                    self.alloc,
                    rest,
                    self.files.as_slice(),
                    &self.surroundings,
                )?;
            }
            "file" | "output" | "|" | "from" | "line" | "times" | "fill" | "cut" | "byte" => {
                self.write(word, rest)?;
            }
            _ => {
                if !self.comes_out(word, rest) {
                    self.complain(line)?;
                }
            }
        }
        Ok(())
    }

    /// Closes the example that is open, and tells of it in a line. What the run wrote must have been compared.
    pub(crate) fn close(&mut self, rt: &HostRuntime) -> io::Result<()> {
        if self.name.is_empty() {
            return Ok(());
        }
        if str::from_utf8(self.ended.out.as_slice()).is_err() {
            self.complain("what was written is no text")?;
        }
        if self.next_line().is_some() || !self.ended.err.is_empty() {
            self.complain("something more was written")?;
        }
        if !self.ended.out.is_empty() && !self.ended.out.ends_with(b"\n") {
            self.complain("the last line has no end")?;
        }
        self.examples = self.examples.saturating_add(1);
        if self.complaint.is_empty() {
            return println!(rt; "{}", self.name);
        }
        self.wrong = self.wrong.saturating_add(1);
        println!(rt; "{} WRONG: {}", self.name, self.complaint)
    }

    /// Closes the example before, and opens one of this name.
    fn open(&mut self, rt: &HostRuntime, name: &str) -> io::Result<()> {
        self.close(rt)?;
        self.name = String::from_str(self.alloc, name)?;
        self.surroundings = Surroundings::plain(self.alloc)?;
        self.width = 100;
        self.ended = nothing(self.alloc);
        self.compared = 0;
        self.complaint = String::new(self.alloc);
        Ok(())
    }

    /// Keeps the first complaint of an example.
    fn complain(&mut self, line: &str) -> Result<(), AllocError> {
        if self.complaint.is_empty() {
            self.complaint = String::from_str(self.alloc, line)?;
        }
        Ok(())
    }

    /// Has a call fail: `fetch N`, `write N` or `telling N`. An example with any other call doesn't come out.
    fn fail(&mut self, call: &str) -> Result<(), AllocError> {
        let (kind, number) = call.split_once(' ').unwrap_or((call, ""));
        let Ok(number) = number.parse::<u64>() else {
            return self.complain(call);
        };
        match kind {
            "fetch" => self.surroundings.fetches.push(number)?,
            "write" => self.surroundings.writes.push(number)?,
            "telling" => self.surroundings.tellings.push(number)?,
            _ => self.complain(call)?,
        }
        Ok(())
    }

    /// Begins a file, or writes to the one that was begun last.
    fn write(&mut self, word: &str, rest: &str) -> Result<(), AllocError> {
        let alloc = self.alloc;
        if word == "file" || word == "output" {
            let mut file = TextFile::new(alloc, rest)?;
            if word == "output" {
                file.bytes.extend_from_slice(self.ended.out.as_slice())?;
            }
            self.files.push(file)?;
            return Ok(());
        }
        if word == "line" {
            return self.copy_line(rest);
        }
        let earlier = Vec::from_slice(alloc, bytes_of(self.files.as_slice(), rest))?;
        let Some(file) = self.files.last_mut() else {
            return Ok(());
        };
        match word {
            "|" => file.add(rest)?,
            "from" => file.bytes.extend_from_slice(earlier.as_slice())?,
            "times" => {
                let (count, line) = rest.split_once(' ').unwrap_or((rest, ""));
                file.add_many(alloc, count.parse::<u32>().unwrap_or(0), line)?;
            }
            "fill" => file.fill(rest.parse::<usize>().unwrap_or(0))?,
            "byte" => file.bytes.push(rest.parse::<u8>().unwrap_or(0))?,
            _ => file.cut(rest.parse::<usize>().unwrap_or(0)),
        }
        Ok(())
    }

    /// Copies a line of an earlier file to the one that was begun last: its number, from 1, and the file's name.
    fn copy_line(&mut self, rest: &str) -> Result<(), AllocError> {
        let (number, name) = rest.split_once(' ').unwrap_or((rest, ""));
        let place = number.parse::<usize>().unwrap_or(1).saturating_sub(1);
        let earlier = Vec::from_slice(self.alloc, bytes_of(self.files.as_slice(), name))?;
        let Ok(text) = str::from_utf8(earlier.as_slice()) else {
            return Ok(());
        };
        match (self.files.last_mut(), text.lines().nth(place)) {
            (Some(file), Some(line)) => file.add(line),
            _ => Ok(()),
        }
    }

    /// The next line of the output that was not compared yet.
    fn next_line(&self) -> Option<&str> {
        str::from_utf8(self.ended.out.as_slice())
            .ok()?
            .lines()
            .nth(self.compared)
    }

    /// Whether what a line wants came out: `status N`, `> LINE`, `~ FRACTION WORDS`, `= NAME`, `skip N` lines, or `! LINE`
    /// on the error sink.
    fn comes_out(&mut self, word: &str, rest: &str) -> bool {
        match word {
            "status" => rest.parse::<u8>() == Ok(self.ended.status),
            "!" => {
                let is_told = self.ended.err.strip_suffix(b"\n") == Some(rest.as_bytes());
                self.ended.err.clear();
                is_told
            }
            "=" => {
                let wanted = bytes_of(self.files.as_slice(), rest);
                !wanted.is_empty() && self.ended.out.as_slice() == wanted
            }
            ">" => {
                let is_line = self.next_line() == Some(rest);
                self.compared = self.compared.saturating_add(1);
                is_line
            }
            "~" => {
                let is_line = self
                    .next_line()
                    .is_some_and(|line| is_enclosure(line, rest, self.width));
                self.compared = self.compared.saturating_add(1);
                is_line
            }
            "skip" => match rest.parse::<usize>() {
                Ok(count) => {
                    self.compared = self.compared.saturating_add(count);
                    self.next_line().is_some()
                }
                Err(_) => false,
            },
            _ => false,
        }
    }
}

/// What a run leaves that was never made, with a status that none has.
fn nothing(alloc: Global) -> Ended {
    Ended {
        status: 255,
        out: Vec::new(alloc),
        err: Vec::new(alloc),
    }
}
