//! The last line of a pass, as text.
ghost use Rattle.std.specs.Prelude.{◌++◌, ◌≡◌, ◌≤◌, length, drop};
ghost use Rattle.line_text.specs.Puts.{Within};
ghost use Rattle.line_text.specs.Totals.{totals_text};
ghost use Rattle.pass.specs.Pass.{totals_of};

use crate::pass::Pass;
use line_text::line::LINE;
use line_text::totals::write_totals;

/// Puts the last line at the start of `out`, and answers how long it is: ticks, and the counts in the order Q to R.
pub fn write_last(pass: &Pass, out: &mut [u8; LINE]) -> usize
    ensures value { result ≡ length (totals_text (totals_of pass.now)) }
    ensures out_after { let text = totals_text (totals_of pass.now) in out.new ≡ text ++ drop (length text) out.old }
    ensures upper_bound { (result ≤ 128) × Within result out.new }
{
    write_totals(pass.totals(), out)
}
