//! A list's line.
ghost use Rattle.std.specs.Prelude.{◌≤◌, ◌≡◌, ◌+◌, ◌++◌, length, take, drop, decimal, OnOk};
ghost use Rattle.std.specs.Io.KnownBytes.{Appends};
ghost use Rattle.harness.specs.Line.{IsLine, line_text};
ghost use Rattle.harness.specs.Puts.{Within, Puts};

use crate::tally::Tally;
use itoa::Buffer;
use std::io;
use std::io::Write;

/// How many bytes hold any line.
pub const LINE: usize = 80;

/// Writes a list's name, and how many records and mismatches it has, and whether its last record is cut short.
#[tactic(auto, using(crate::proofs::Line::front))]
pub fn write_line<W: Write>(writer: &mut W, name: &str, tally: Tally) -> io::Result<()>
    ensures { OnOk result (Appends (W.contents writer.old) (W.contents writer.new) (name.now ++ line_text tally)) }
{
    let mut text = [0; LINE];
    let n = line(tally, &mut text);
    writer.write_all(name.as_bytes())?;
    writer.write_all(&text[..n])
}

/// Puts a list's line behind its name at the start of `out`, and answers how long it is. (`Within` is what `&out[..n]`
/// asks.)
pub fn line(tally: Tally, out: &mut [u8; LINE]) -> usize
    ensures value { result ≡ length (line_text tally) }
    ensures out_after { out.new ≡ line_text tally ++ drop (length (line_text tally)) out.old }
    ensures upper_bound { (result ≤ 80) × Within result out.new }
    ensures line { IsLine tally (take result out.new) }
{
    let at = put(out, 0, b" ");
    let at = put_decimal(out, at, tally.records);
    let at = put(out, at, b" mismatches ");
    let at = put_decimal(out, at, tally.mismatches);
    if tally.cut_short {
        put(out, at, b" and a record cut short\n")
    } else {
        put(out, at, b"\n")
    }
}

// Puts a text behind the first `at` bytes, and answers where it ends.
fn put(out: &mut [u8; LINE], at: usize, text: &[u8]) -> usize
    requires { at + length text.now ≤ 80 }
    ensures puts { Puts out.old at text.now out.new result }
{
    let end = at + text.len();
    out[at..end].copy_from_slice(text);
    end
}

// A number's decimal digits.
#[tactic(auto, using(crate::proofs::Digits::at_most_20))]
fn put_decimal(out: &mut [u8; LINE], at: usize, n: u64) -> usize
    requires { at + 20 ≤ 80 }
    ensures puts { Puts out.old at (decimal n) out.new result }
    ensures upper_bound { result ≤ at + 20 }
{
    put(out, at, Buffer::new().format(n).as_bytes())
}
