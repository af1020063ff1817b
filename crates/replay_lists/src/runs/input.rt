//! A record, as it is read.
ghost use Rattle.std.specs.Prelude.{◌≤◌};

use full_io::read_full;
use std::io;

// The next `size` bytes of the input, if it has them all; zeros stand behind them.
pub(crate) fn read_record(rt: &HostRuntime, size: usize) -> io::Result<Option<[u8; 140]>>
    requires { size ≤ 140 }
{
    // An array of the largest size, since memory is fixed: its first `size` bytes are the record.
    let mut bytes = [0; 140];
    let n = read_full(&mut rt.stdin(), &mut bytes[..size])?;
    Ok((n == size).then_some(bytes))
}
