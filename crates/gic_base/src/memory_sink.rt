//! A sink in memory.
ghost use Rattle.std.specs.Prelude.{◌≡◌, ◌<◌, ◌≤◌, [], length, Ok, Some, IfOk, IsErr, true};
ghost use Rattle.std.specs.Io.KnownBytes.{WriteAppends};
ghost use Rattle.gic_base.specs.Causes.{HasCause};
ghost use Rattle.gic_base.specs.Memory.{is_failing, next};

use crate::sink::{Sink, WriteFailed};
use std::alloc::Global;
use std::marker::Model;

/// Keeps what is written, and takes pieces whole. The calls whose number, from 0, is in a list fail, and so does one
/// that finds no memory. A call with an empty piece is not counted.
#[derive(Drop)]
pub struct MemorySink {
    bytes: Vec<u8>,
    failing: Vec<u64>,
    calls: u64,
    faults: u64,
}

impl Model for MemorySink {
    ghost use Rattle.gic_base.specs.Memory.{Page};

    ghost Value = { Page };

    ghost view = { λ s. record { bytes = s.bytes.items; failing = s.failing.items; calls = s.calls; faults = s.faults } };
}

impl MemorySink {
    /// An empty sink whose calls of these numbers fail. Takes no memory; the handle is kept for later growth.
    pub fn new(alloc: Global, failing: Vec<u64>) -> MemorySink
        ensures { result ≡ record { bytes = []; failing = failing.items; calls = 0; faults = 0 } }
    {
        MemorySink {
            bytes: Vec::new(alloc),
            failing,
            calls: 0,
            faults: 0,
        }
    }

    /// The bytes written so far.
    pub fn bytes(&self) -> &[u8]
        ensures { result.now ≡ self.now.bytes }
    {
        &self.bytes
    }
}

impl Sink for MemorySink {
    ghost written = { λ s. Some s.bytes };

    ghost faults = { λ s. s.faults };

    fn write(&mut self, piece: &[u8]) -> Result<usize, WriteFailed>
        ensures bytes { WriteAppends (Some self.old.bytes) (Some self.new.bytes) result piece.now }
        ensures cause { HasCause self.old.faults self.new.faults result }
        ensures count { IfOk result (λ n. n ≤ length piece.now) }
        ensures progress { 0 < length piece.now → IfOk result (λ n. 0 < n) }
        ensures empty { length piece.now ≡ 0 → (result ≡ Ok 0) × (self.new.faults ≡ self.old.faults) }
        // It takes pieces whole, and fails at the calls named.
        ensures whole { IfOk result (λ n. n ≡ length piece.now) }
        ensures fails { is_failing self.old.failing self.old.calls ≡ true → 0 < length piece.now → IsErr result }
        ensures calls { 0 < length piece.now → self.new.calls ≡ next self.old.calls }
        ensures failing { self.new.failing ≡ self.old.failing }
    {
        if piece.is_empty() {
            return Ok(0);
        }
        let call = self.calls;
        self.calls = call.saturating_add(1);
        if self.failing.contains(&call) || self.bytes.extend_from_slice(piece).is_err() {
            self.faults = self.faults.saturating_add(1);
            return Err(WriteFailed);
        }
        Ok(piece.len())
    }
}
