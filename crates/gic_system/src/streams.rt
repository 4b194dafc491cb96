//! The streams of the system.
ghost use Rattle.std.specs.Prelude.{◌≡◌};

use crate::tries::write_some;
use gic_base::{Sink, WriteFailed};
use std::io::Write;

/// A stream, such as the standard output of the system. It tells of its bytes what the stream tells: that of the system
/// tells nothing, and one that is kept in memory tells all. It counts its faults; a stream that takes nothing of a piece
/// that isn't empty counts as failed.
#[derive(Drop)]
pub struct StreamSink<W> {
    stream: W,
    faults: u64,
}

impl<W: Write> StreamSink<W> {
    /// A sink without faults. Takes no memory.
    pub fn new(stream: W) -> StreamSink<W>
        ensures stream { result.stream ≡ stream }
        ensures faults { result.faults ≡ 0 }
    {
        StreamSink { stream, faults: 0 }
    }

    /// The stream, with what was written to it.
    pub fn into_stream(self) -> W
        ensures { result ≡ self.stream }
    {
        let StreamSink { stream, faults: _ } = self;
        stream
    }
}

impl<W: Write> Sink for StreamSink<W> {
    ghost written = { λ s. W.contents s.stream };

    ghost faults = { λ s. s.faults };

    fn write(&mut self, piece: &[u8]) -> Result<usize, WriteFailed> {
        if piece.is_empty() {
            return Ok(0);
        }
        match write_some(&mut self.stream, piece) {
            Ok(n) if n > 0 => Ok(n),
            _ => {
                self.faults = self.faults.saturating_add(1);
                Err(WriteFailed)
            }
        }
    }
}

#[cfg(test)]
mod tests {
    use super::*;
    use std::fs;
    use std::fs::OpenOptions;
    use std::test::Fail;

    #[test]
    fn writes_to_a_stream(rt: HostRuntime) -> Result<(), Fail> {
        let mut out = StreamSink::new(fs::create(&rt, "written")?);
        assert!(rt; out.write(b"first\n") == Ok(6));
        assert!(rt; out.write(b"") == Ok(0));
        assert!(rt; out.write(b"second\n") == Ok(7));
        assert!(rt; out.faults == 0);
        assert!(rt; fs::read(&rt, "written")?.as_slice() == b"first\nsecond\n".as_slice());
        Ok(())
    }

    #[test]
    fn counts_the_faults_of_a_full_device(rt: HostRuntime) -> Result<(), Fail> {
        let device = OpenOptions::new().write(true).open(&rt, "/dev/full")?;
        let mut err = StreamSink::new(device);
        for faults in 1..4 {
            assert!(rt; err.write(b"lost") == Err(WriteFailed));
            assert!(rt; err.faults == faults);
        }
        Ok(())
    }
}
