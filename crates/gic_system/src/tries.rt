//! Calls of the system that go on after an interruption.
ghost use Rattle.std.specs.Prelude.{◌≢◌, IfErr};
ghost use Rattle.std.specs.Io.{ReadsAtMost, WritesAtMost};
ghost use Rattle.std.specs.Io.KnownBytes.{ReadConsumes, WriteAppends};
ghost use Rattle.std.specs.IoError.{error_kind};
ghost use Rattle.std.specs.declared.io.ErrorKind.TheVariants.{Interrupted};

use std::io::{Error, ErrorKind, Read, Result, Write};

/// How often a call is made that a signal interrupts each time, before it counts as failed.
pub const MOST_TRIES: u32 = 10000;

/// One read into a buffer, which is made again where a signal interrupts it, [`MOST_TRIES`] times in all; then the
/// error is of the kind `TimedOut`. No clause counts the tries, since a reader tells of none: the tests below do.
pub fn read_some<R: Read>(reader: &mut R, buffer: &mut [u8]) -> Result<usize>
    ensures count { ReadsAtMost result buffer.new }
    ensures bytes { ReadConsumes (R.remaining reader.old) (R.remaining reader.new) result buffer.new }
    // No interruption is handed on.
    ensures goes_on { IfErr result (λ error. error_kind error ≢ Interrupted) }
{
    for _ in 0..MOST_TRIES {
        match reader.read(buffer) {
            Ok(n) => return Ok(n),
            Err(error) => {
                if error.kind() != ErrorKind::Interrupted {
                    return Err(error);
                }
            }
        }
    }
    Err(Error::from(ErrorKind::TimedOut))
}

/// One write of a prefix of the bytes, which is made again where a signal interrupts it, [`MOST_TRIES`] times in all;
/// then the error is of the kind `TimedOut`. No clause counts the tries, since a writer tells of none: the tests below do.
pub fn write_some<W: Write>(writer: &mut W, bytes: &[u8]) -> Result<usize>
    ensures count { WritesAtMost result bytes.now }
    ensures bytes { WriteAppends (W.contents writer.old) (W.contents writer.new) result bytes.now }
    // No interruption is handed on.
    ensures goes_on { IfErr result (λ error. error_kind error ≢ Interrupted) }
{
    for _ in 0..MOST_TRIES {
        match writer.write(bytes) {
            Ok(n) => return Ok(n),
            Err(error) => {
                if error.kind() != ErrorKind::Interrupted {
                    return Err(error);
                }
            }
        }
    }
    Err(Error::from(ErrorKind::TimedOut))
}

#[cfg(test)]
mod tests {
    use super::*;

    /// A stream whose next calls, this many, are interrupted; then each call gives or takes one byte.
    #[derive(Drop)]
    struct Signalled {
        left: u32,
    }

    impl Signalled {
        /// Whether the next call is interrupted.
        fn is_interrupted(&mut self) -> bool {
            let interrupted = self.left > 0;
            self.left = self.left.saturating_sub(1);
            interrupted
        }
    }

    impl Read for Signalled {
        fn read(&mut self, buf: &mut [u8]) -> Result<usize> {
            if self.is_interrupted() {
                return Err(Error::from(ErrorKind::Interrupted));
            }
            Ok(buf.len().min(1))
        }
    }

    impl Write for Signalled {
        fn write(&mut self, buf: &[u8]) -> Result<usize> {
            if self.is_interrupted() {
                return Err(Error::from(ErrorKind::Interrupted));
            }
            Ok(buf.len().min(1))
        }

        fn flush(&mut self) -> Result<()> {
            Ok(())
        }
    }

    #[test]
    fn goes_on_after_interruptions(rt: HostRuntime) {
        let mut buffer = [0u8; 4];
        for (interruptions, is_done) in [
            (0, true),
            (1, true),
            (MOST_TRIES - 1, true),
            (MOST_TRIES, false),
        ] {
            let mut reader = Signalled {
                left: interruptions,
            };
            let mut writer = Signalled {
                left: interruptions,
            };
            assert!(rt; read_some(&mut reader, &mut buffer).is_ok() == is_done);
            assert!(rt; write_some(&mut writer, b"text").is_ok() == is_done);
        }
    }
}
