//! A buffer filled from a reader, as far as the input goes, and bytes written whole. A pipe gives and takes its bytes
//! in pieces.
#![tactic(auto)]

ghost use Rattle.std.specs.Prelude.{◌<◌, length, take, IfOk, OnOk, OnErr};
ghost use Rattle.std.specs.Io.{ReadsAtMost};
ghost use Rattle.std.specs.Io.KnownBytes.{Appends, Consumes, IsAtEnd};
ghost use Rattle.full_io.specs.Failed.{AppendsNotAll, ConsumesSome};

use std::io;
use std::io::{ErrorKind, Read, Write};

/// Reads until buf is full or the input ends, and answers how many bytes it put at the start of buf.
/// The input is at its end where they are fewer than buf has room for. An interrupted read is tried
/// again.
pub fn read_full<R: Read>(reader: &mut R, buf: &mut [u8]) -> io::Result<usize>
    ensures bound { ReadsAtMost result buf.new }
    ensures bytes { IfOk result (λ n. Consumes (R.remaining reader.old) (R.remaining reader.new) (take n buf.new)) }
    ensures end { IfOk result (λ n. n < length buf.new → IsAtEnd (R.remaining reader.new)) }
    ensures err { OnErr result (ConsumesSome (R.remaining reader.old) (R.remaining reader.new) buf.new) }
{
    // std's read_exact does not say what it took before an Err, and read_to_end fills a Vec.
    let mut done = 0;
    // Nothing bounds how often a read is interrupted.
    for _ in 0..u64::MAX {
        if done == buf.len() {
            return Ok(done);
        }
        match reader.read(&mut buf[done..]) {
            Ok(0) => return Ok(done),
            Ok(n) => done += n,
            Err(e) if e.kind() == ErrorKind::Interrupted => {}
            Err(e) => return Err(e),
        }
    }
    Err(io::Error::from(ErrorKind::Interrupted))
}

/// Writes all of the bytes. Where a write fails or takes none of them, those before it are written, and never all. An
/// interrupted write is tried again.
pub fn write_full<W: Write>(writer: &mut W, bytes: &[u8]) -> io::Result<()>
    ensures ok { OnOk result (Appends (W.contents writer.old) (W.contents writer.new) bytes.now) }
    ensures err { OnErr result (AppendsNotAll (W.contents writer.old) (W.contents writer.new) bytes.now) }
{
    // std's write_all does not say what it wrote before an Err.
    let mut written = 0;
    // Nothing bounds how often a write is interrupted.
    for _ in 0..u64::MAX {
        if written == bytes.len() {
            break;
        }
        match writer.write(&bytes[written..]) {
            Ok(0) => return Err(io::Error::from(ErrorKind::WriteZero)),
            Ok(n) => written += n,
            Err(e) if e.kind() == ErrorKind::Interrupted => {}
            Err(e) => return Err(e),
        }
    }
    if written < bytes.len() {
        return Err(io::Error::from(ErrorKind::Interrupted));
    }
    Ok(())
}
