//! A whole run: blocks read, driven and their text written, to the input's end or to the first refusal (docs/RULES.md,
//! 'A whole run').
ghost use Rattle.std.specs.Prelude.{◌≡◌, false, IfSome, OnOk, OnErr};
ghost use Rattle.std.specs.Io.KnownBytes.{Appends, IsAtEnd};
ghost use Rattle.pass.specs.Batch.{whole_of};
ghost use Rattle.pass.specs.Run.{run_text, BreaksOff};
ghost use Rattle.pass.specs.declared.pass.Pass.TheVariants.{Empty};

use crate::batch::drive_batch;
use crate::last::write_last;
use crate::pass::Pass;
use full_io::{read_full, write_full};
use line_text::line::LINE;
use std::io;
use std::io::{Read, Write};

/// Reads blocks to the input's end or to the first refusal, a batch of 128 at a time, and writes their lines and then
/// the last line. However the reader cuts its bytes, the text is the same. A failed read or write ends the run: then a
/// beginning of the text is written.
pub fn drive_all<R: Read, W: Write>(reader: &mut R, writer: &mut W) -> io::Result<()>
    ensures text { OnOk result (IfSome (R.remaining reader.old) (λ input.
        Appends (W.contents writer.old) (W.contents writer.new) (run_text input))) }
    ensures end { OnOk result (IfSome (R.remaining reader.old) (λ input.
        (whole_of Empty input).over ≡ false → IsAtEnd (R.remaining reader.new))) }
    ensures err { OnErr result (IfSome (R.remaining reader.old) (λ input.
        BreaksOff input (R.remaining reader.new) (W.contents writer.old) (W.contents writer.new))) }
{
    let mut blocks = [0; 65536];
    let mut out = [0; 16384];
    let mut pass = Pass::Empty;
    // It ends: a batch that is not the last has 128 ticks, and a pass at most 16,777,216.
    loop {
        let n = read_full(reader, &mut blocks)?;
        let written = drive_batch(&mut pass, &blocks[..n], &mut out);
        write_full(writer, &out[..written.len])?;
        if written.refused || n < blocks.len() {
            break;
        }
    }
    let mut line = [0; LINE];
    let len = write_last(&pass, &mut line);
    write_full(writer, &line[..len])
}
