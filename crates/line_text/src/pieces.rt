//! What a line is made of: text, decimal numbers and wheel speeds, each put behind the bytes that are there.
ghost use Rattle.std.specs.Prelude.{◌≤◌, ◌≡◌, ◌+◌, length};
ghost use Rattle.line_text.specs.Pieces.{decimal, field};
ghost use Rattle.line_text.specs.Puts.{Puts};
ghost use Rattle.line_text.specs.Wheels.{hex, wheels_text};

use crate::line::LINE;
use ieee754::bits::to_bits;
use itoa::Buffer;
use linear::Vector4f;

// Puts a text behind the first `at` bytes, and answers where it ends.
pub(crate) fn put(out: &mut [u8; LINE], at: usize, text: &[u8]) -> usize
    requires { at + length text.now ≤ 128 }
    ensures puts { Puts out.old at text.now out.new result }
{
    let end = at + text.len();
    out[at..end].copy_from_slice(text);
    end
}

// A number's decimal digits.
#[tactic(auto, using(crate::proofs::Digits::same, crate::proofs::Digits::at_most_ten))]
pub(crate) fn put_decimal(out: &mut [u8; LINE], at: usize, n: u32) -> usize
    requires { at + 10 ≤ 128 }
    ensures puts { Puts out.old at (decimal n) out.new result }
    ensures upper_bound { result ≤ at + 10 }
{
    put(out, at, Buffer::new().format(n).as_bytes())
}

// A space and a number.
pub(crate) fn put_number(out: &mut [u8; LINE], at: usize, n: u32) -> usize
    requires { at + 11 ≤ 128 }
    ensures puts { Puts out.old at (field (decimal n)) out.new result }
    ensures upper_bound { result ≤ at + 11 }
{
    let at = put(out, at, b" ");
    put_decimal(out, at, n)
}

// A float's bits as eight hexadecimal digits. (Four bytes fill them, so the library answers no error.)
#[tactic(auto, using(crate::proofs::Library::same), unfolding(crate::specs::Wheels::hex))]
fn put_hex(out: &mut [u8; LINE], at: usize, x: f32) -> usize
    requires { at + 8 ≤ 128 }
    ensures puts { Puts out.old at (hex x) out.new result }
    ensures end { result ≡ at + 8 }
{
    let end = at + 8;
    let _ = hex::encode_to_slice(to_bits(x).to_be_bytes(), &mut out[at..end]);
    end
}

// A float, behind a space.
fn put_wheel(out: &mut [u8; LINE], at: usize, x: f32) -> usize
    requires { at + 9 ≤ 128 }
    ensures puts { Puts out.old at (field (hex x)) out.new result }
    ensures end { result ≡ at + 9 }
{
    let digits = put(out, at, b" ");
    put_hex(out, digits, x)
}

// Four wheel speeds.
pub(crate) fn put_wheels(out: &mut [u8; LINE], at: usize, v: Vector4f) -> usize
    requires { at + 36 ≤ 128 }
    ensures puts { Puts out.old at (wheels_text v) out.new result }
    ensures end { result ≡ at + 36 }
{
    let at = put_wheel(out, at, v.x);
    let at = put_wheel(out, at, v.y);
    let at = put_wheel(out, at, v.z);
    put_wheel(out, at, v.w)
}
