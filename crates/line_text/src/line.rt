//! The line of a tick, or of a refused block.
ghost use Rattle.std.specs.Prelude.{◌≤◌, ◌≡◌, ◌+◌, ◌++◌, length, drop};
ghost use Rattle.line_text.specs.Puts.{Within, Puts};
ghost use Rattle.line_text.specs.Text.{ending_text, line_text, marks_text, refused_text, tick_text};

use crate::pieces::{put, put_decimal, put_number, put_wheels};
use linear::Vector4f;
use tick::action::GateAction;
use tick::refusal::Refusal;

/// How many bytes hold any line.
pub const LINE: usize = 128;

/// A tick's number, its outcome, its marks at its end, and its wheel speeds or the refusal that ended it.
#[derive(Clone, Copy)]
pub struct TickLine {
    pub number: u32,
    pub action: GateAction,
    /// Whether vision is active.
    pub active: bool,
    pub recovering: bool,
    pub ending: Result<Vector4f, Refusal>,
}

/// The number that the block's tick would have had, and why there was none.
#[derive(Clone, Copy)]
pub struct RefusedLine {
    pub number: u32,
    pub refusal: Refusal,
}

/// What a block's line says.
#[derive(Clone, Copy)]
pub enum Line {
    Tick(TickLine),
    Refused(RefusedLine),
}

/// Puts the line at the start of `out`, and answers how long it is. (`Within` is what `&out[..n]` asks.)
#[tactic(auto, using(crate::proofs::Putting::whole))]
pub fn write_line(line: Line, out: &mut [u8; LINE]) -> usize
    ensures value { result ≡ length (line_text line) }
    ensures out_after { out.new ≡ line_text line ++ drop (length (line_text line)) out.old }
    ensures upper_bound { (result ≤ 128) × Within result out.new }
{
    put_line(line, out)
}

fn put_line(line: Line, out: &mut [u8; LINE]) -> usize
    ensures puts { Puts out.old 0 (line_text line) out.new result }
    ensures upper_bound { result ≤ 128 }
{
    match line {
        Line::Tick(t) => put_tick(t, out),
        Line::Refused(r) => put_refused(r, out),
    }
}

fn put_tick(t: TickLine, out: &mut [u8; LINE]) -> usize
    ensures puts { Puts out.old 0 (tick_text t) out.new result }
    ensures upper_bound { result ≤ 53 }
{
    let at = put_decimal(out, 0, t.number);
    let at = put(out, at, &marks(t.action, t.active, t.recovering));
    let at = put_ending(out, at, t.ending);
    put(out, at, b"\n")
}

fn put_refused(r: RefusedLine, out: &mut [u8; LINE]) -> usize
    ensures puts { Puts out.old 0 (refused_text r) out.new result }
    ensures upper_bound { result ≤ 24 }
{
    let at = put_decimal(out, 0, r.number);
    let at = put(out, at, b" !");
    let end = put_number(out, at, r.refusal.number() as u32);
    put(out, end, b"\n")
}

// The outcome's letter, and the two marks, each behind a space.
fn marks(action: GateAction, active: bool, recovering: bool) -> [u8; 6]
    ensures { result ≡ marks_text action active recovering }
{
    let active = if active { b'V' } else { b'-' };
    let recovering = if recovering { b'B' } else { b'N' };
    [b' ', action.letter(), b' ', active, b' ', recovering]
}

// The wheel speeds, or `E` and the refusal that ended the tick.
fn put_ending(out: &mut [u8; LINE], at: usize, ending: Result<Vector4f, Refusal>) -> usize
    requires { at + 36 ≤ 128 }
    ensures puts { Puts out.old at (ending_text ending) out.new result }
    ensures upper_bound { result ≤ at + 36 }
{
    match ending {
        Ok(wheels) => put_wheels(out, at, wheels),
        Err(refusal) => {
            let at = put(out, at, b" E");
            put_decimal(out, at, refusal.number() as u32)
        }
    }
}
