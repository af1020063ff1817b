//! The last line: how many ticks, and how often each outcome came.
ghost use Rattle.std.specs.Prelude.{◌≤◌, ◌≡◌, ◌++◌, length, drop};
ghost use Rattle.line_text.specs.Puts.{Within, Puts};
ghost use Rattle.line_text.specs.Totals.{totals_text};

use crate::line::LINE;
use crate::pieces::{put, put_decimal, put_number};
use tick::tally::Totals;

/// Puts the last line at the start of `out`, and answers how long it is. (`Within` is what `&out[..n]` asks.)
#[tactic(auto, using(crate::proofs::Putting::whole))]
pub fn write_totals(totals: Totals, out: &mut [u8; LINE]) -> usize
    ensures value { result ≡ length (totals_text totals) }
    ensures out_after { out.new ≡ totals_text totals ++ drop (length (totals_text totals)) out.old }
    ensures upper_bound { (result ≤ 128) × Within result out.new }
{
    put_totals(totals, out)
}

// The ticks, and the counts in the order Q to R.
fn put_totals(totals: Totals, out: &mut [u8; LINE]) -> usize
    ensures puts { Puts out.old 0 (totals_text totals) out.new result }
    ensures upper_bound { result ≤ 99 }
{
    let counts = totals.counts;
    let at = put_decimal(out, 0, totals.ticks);
    let at = put_number(out, at, counts.quiet);
    let at = put_number(out, at, counts.gathered);
    let at = put_number(out, at, counts.complete);
    let at = put_number(out, at, counts.reseeded);
    let at = put_number(out, at, counts.taken);
    let at = put_number(out, at, counts.jump);
    let at = put_number(out, at, counts.first);
    let at = put_number(out, at, counts.refused);
    put(out, at, b"\n")
}
