// Reading all of an input and writing all of an output, in as many calls as that takes.
#![tactic(auto)]

ghost use Rattle.std.specs.Prelude.{◌≡◌, ℕ, ◌+◌, ◌<◌, length, take, IfOk, OnOk, OnErr};
ghost use Rattle.std.specs.Io.{ReadsAtMost};
ghost use Rattle.std.specs.Io.KnownBytes.{Appends, Consumes, IsAtEnd};
ghost use Rattle.streams.specs.declared.TheConstants.{PATIENCE};

use std::io;
use std::io::{ErrorKind, Read, Write};

// How many calls may fail before a stream is given up, one that a signal interrupts among them.
const PATIENCE: usize = 1000;

// The calls on a stream that failed so far.
#[derive(Drop)]
struct Failures {
    count: usize,
    ghost few: { count < PATIENCE },
}

impl Failures {
    fn none() -> Failures {
        Failures { count: 0 }
    }

    // Counts one more, and answers its error if that is one too many.
    fn add(&mut self, error: io::Error) -> io::Result<()>
        ensures { OnOk result (self.new.count ≡ self.old.count + 1) }
    {
        if self.count + 1 == PATIENCE {
            return Err(error);
        }
        self.count += 1;
        Ok(())
    }
}

// Reads until buf is full or the input ends, and answers how many bytes it put at the start of buf. A call that fails is made
// again. Once too many have failed it answers the last one's error, and what was read until then stands at the start of buf.
pub fn read_all<R: Read>(reader: &mut R, buf: &mut [u8]) -> io::Result<usize>
    ensures len { ReadsAtMost result buf.new }
    ensures bytes { IfOk result (λ n. Consumes (R.remaining reader.old) (R.remaining reader.new) (take n buf.new)) }
    ensures end { IfOk result (λ n. n < length buf.new → IsAtEnd (R.remaining reader.new)) }
    ensures err { OnErr result ((n : ℕ) × (n < length buf.new)
        × Consumes (R.remaining reader.old) (R.remaining reader.new) (take n buf.new)) }
{
    let mut done = 0;
    let mut failures = Failures::none();
    while done < buf.len() {
        match reader.read(&mut buf[done..]) {
            Ok(0) => return Ok(done),
            Ok(n) => done += n,
            Err(e) => failures.add(e)?,
        }
    }
    Ok(done)
}

// Writes all of buf. A call that fails or takes no byte is made again. Once too many have failed it answers the last one's
// error, and what was written until then is the start of buf.
pub fn write_all<W: Write>(writer: &mut W, buf: &[u8]) -> io::Result<()>
    ensures bytes { OnOk result (Appends (W.contents writer.old) (W.contents writer.new) buf.now) }
    ensures err { OnErr result ((n : ℕ) × (n < length buf.now)
        × Appends (W.contents writer.old) (W.contents writer.new) (take n buf.now)) }
{
    let mut rest = buf;
    let mut failures = Failures::none();
    while !rest.is_empty() {
        match writer.write(rest) {
            Ok(0) => failures.add(ErrorKind::WriteZero.into())?,
            Ok(n) => rest = &rest[n..],
            Err(e) => failures.add(e)?,
        }
    }
    Ok(())
}

#[cfg(test)]
mod tests {
    use super::*;
    use std::alloc::Global;
    use std::test::Fail;

    // A stream that moves three bytes a call, from `input` or to the end of `output`. After `good` calls it answers `failure`
    // as often as `failures` says, and goes on behind that.
    #[derive(Drop)]
    struct Stream<'a> {
        good: u32,
        failures: u32,
        failure: ErrorKind,
        input: &'a [u8],
        output: Vec<u8>,
    }

    impl<'a> Stream<'a> {
        fn new(alloc: Global, failure: ErrorKind, failures: u32, input: &'a [u8]) -> Stream<'a> {
            Stream {
                good: 2,
                failures,
                failure,
                input,
                output: Vec::new(alloc),
            }
        }

        fn call(&mut self) -> io::Result<()> {
            if self.good > 0 {
                self.good -= 1;
            } else if self.failures > 0 {
                self.failures -= 1;
                return Err(self.failure.into());
            }
            Ok(())
        }
    }

    impl Read for Stream<'_> {
        fn read(&mut self, buf: &mut [u8]) -> io::Result<usize> {
            self.call()?;
            let n = buf.len().min(self.input.len()).min(3);
            buf[..n].copy_from_slice(&self.input[..n]);
            self.input = &self.input[n..];
            Ok(n)
        }
    }

    impl Write for Stream<'_> {
        fn write(&mut self, buf: &[u8]) -> io::Result<usize> {
            match self.call() {
                Ok(()) => {}
                // A write that takes nothing is no error.
                Err(e) if e.kind() == ErrorKind::WriteZero => return Ok(0),
                Err(e) => return Err(e),
            }
            let n = buf.len().min(3);
            self.output.extend_from_slice(&buf[..n])?;
            Ok(n)
        }

        fn flush(&mut self) -> io::Result<()> {
            Ok(())
        }
    }

    const INPUT: &[u8] = b"ten bytes and six";

    // Six bytes come before the failures.
    #[test]
    fn reads_on(rt: HostRuntime) -> Result<(), Fail> {
        let cases = [
            (ErrorKind::Interrupted, 0, true),
            (ErrorKind::Interrupted, 999, true),
            (ErrorKind::Interrupted, 1000, false),
            (ErrorKind::WouldBlock, 999, true),
            (ErrorKind::WouldBlock, 1000, false),
        ];
        for (failure, failures, goes_on) in cases {
            for room in [10, 17, 20] {
                let mut buf = [b'.'; 20];
                let mut from = Stream::new(rt.alloc(), failure, failures, INPUT);
                let read = read_all(&mut from, &mut buf[..room]);
                if goes_on {
                    let n = room.min(17);
                    assert_eq!(rt; read?, n);
                    assert_eq!(rt; &buf[..n], &INPUT[..n]);
                    assert_eq!(rt; from.input, &INPUT[n..]);
                } else {
                    assert!(rt; read.is_err_and(|e| e.kind() == failure));
                    assert_eq!(rt; &buf[..6], b"ten by".as_slice());
                }
            }
        }
        Ok(())
    }

    #[test]
    fn writes_on(rt: HostRuntime) -> Result<(), Fail> {
        let cases = [
            (ErrorKind::Interrupted, 0, true),
            (ErrorKind::Interrupted, 999, true),
            (ErrorKind::Interrupted, 1000, false),
            (ErrorKind::WriteZero, 999, true),
            (ErrorKind::WriteZero, 1000, false),
            (ErrorKind::WouldBlock, 999, true),
            (ErrorKind::WouldBlock, 1000, false),
        ];
        for (failure, failures, goes_on) in cases {
            let mut to = Stream::new(rt.alloc(), failure, failures, b"");
            let wrote = write_all(&mut to, INPUT);
            if goes_on {
                assert!(rt; wrote.is_ok());
                assert_eq!(rt; to.output.as_slice(), INPUT);
            } else {
                assert!(rt; wrote.is_err_and(|e| e.kind() == failure));
                assert_eq!(rt; to.output.as_slice(), &INPUT[..6]);
            }
        }
        Ok(())
    }
}
