//! A block or a batch of blocks driven in a pass, with the text of their lines.
ghost use Rattle.std.specs.Prelude.{◌++◌, ◌+◌, ◌≡◌, ◌≤◌, length, take, drop};
ghost use Rattle.line_text.specs.Text.{line_text};
ghost use Rattle.line_text.specs.Puts.{Within};
ghost use Rattle.pass.specs.Pass.{driven};
ghost use Rattle.pass.specs.Batch.{is_refused, written, text_of, batch_into, answer_of};
ghost use Rattle.pass.specs.BatchHolds.{PassHoldsOf};
ghost use Rattle.pass.specs.declared.pass.Pass.TheVariants.{Empty};

use crate::pass::Pass;
use line_text::line::{LINE, Line, write_line};
use tick_block::layout::BLOCK_BYTES;

/// How long the text of a block's line or of several is, and whether a block was refused, which ends the reading.
#[derive(Clone, Copy, Debug)]
pub struct Written {
    pub len: usize,
    pub refused: bool,
}

fn is_refused(line: Line) -> bool
    ensures { result ≡ is_refused line }
{
    matches!(line, Line::Refused(_))
}

/// Drives a block, and puts its line at the start of `out`; what stands behind the line stays.
pub fn drive_block(pass: &mut Pass, block: &[u8], out: &mut [u8; LINE]) -> Written
    ensures value { let d = driven pass.old block.now in (result ≡ written d.line) × (pass.new ≡ d.pass) }
    ensures out_after { let text = line_text (driven pass.old block.now).line in
        out.new ≡ text ++ drop (length text) out.old }
    ensures len_bound { (result.len ≤ 128) × Within result.len out.new }
{
    let line = pass.drive(block);
    Written {
        len: write_line(line, out),
        refused: is_refused(line),
    }
}

// Puts a line behind the first `at` bytes, and answers where it ends; what stands behind it stays.
fn append_line(out: &mut [u8], at: usize, line: Line) -> usize
    requires { at + 128 ≤ length out.old }
    ensures value { result ≡ at + length (line_text line) }
    ensures out_after { out.new ≡ take at out.old ++ line_text line ++ drop (at + length (line_text line)) out.old }
    ensures upper_bound { result ≤ at + 128 }
{
    let rest = &mut out[at..];
    let room = rest.first_chunk_mut::<LINE>().unwrap();
    let len = write_line(line, room);
    // No effect at run time. The proof reads what `out` holds from this use of `rest`.
    let _ = &*rest;
    at + len
}

/// Drives blocks to their end or to the first refusal, as many as `out` has room for at `LINE` bytes a line, and puts
/// their text at the start of `out`; what stands behind it stays. Where the batch begins a pass, the pass theorem
/// holds of its blocks, its lines and the pass it leaves.
pub fn drive_batch(pass: &mut Pass, blocks: &[u8], out: &mut [u8]) -> Written
    ensures value { let t = batch_into out.old pass.old blocks.now in (result ≡ answer_of t) × (pass.new ≡ t.pass) }
    ensures out_after { out.new ≡ text_of (batch_into out.old pass.old blocks.now).lines ++ drop result.len out.old }
    ensures within { Within result.len out.new }
    ensures begins { pass.old ≡ Empty → PassHoldsOf (batch_into out.old pass.old blocks.now) pass.new }
{
    let room = out.len() / LINE;
    let mut w = Written {
        len: 0,
        refused: false,
    };
    for block in blocks.chunks(BLOCK_BYTES).take(room) {
        let line = pass.drive(block);
        w = Written {
            len: append_line(out, w.len, line),
            refused: is_refused(line),
        };
        if w.refused {
            break;
        }
    }
    w
}
