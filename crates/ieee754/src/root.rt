//! IEEE 754 squareRoot at binary32, by whole numbers: the root of a significand, and half of an
//! exponent (docs/RULES.md, 'The root').

ghost use Rattle.std.specs.Prelude.{◌≡◌, ◌+◌, ◌*◌, ◌%◌, ◌^◌, ◌<◌, ◌≤◌, IfSome};
ghost use Rattle.std.specs.Float.{binary32};
ghost use Rattle.std.specs.Float.Ieee.{of_bits};
ghost use Rattle.ieee754.specs.Root.{root_of, square_root};

use crate::table::{slope, value};
use std::marker::Model;

// A number near the root of a float's significand, in units of the root's last place, from the
// float's bits b: a cubic for each of 64 intervals. Only speed rests on it, since `Parts::root`
// tries what it answers.
fn estimate(b: u32) -> u64
    ensures { result < 2 ^ 24 }
{
    let i = b / 0x4_0000 % 64;
    let d = (b % 0x4_0000) as u64;
    let v = value(i);
    let s = slope(i);
    let bend = v % 0x1_0000_0000 - s % 0x100 * d;
    let line = v.wrapping_add(s * d);
    line.wrapping_sub(bend * (d * d / 0x2_0000)) / 0x100_0000_0000
}

// A float above zero, as m * 2^e / 2^275: m has 24 digits.
#[derive(Drop)]
struct Parts {
    m: u32,
    e: u32,
}

// Clauses see both.
impl Model for Parts {
    ghost use Rattle.std.specs.Prelude.{ℕ, ◌^◌, ◌≤◌, ◌<◌};

    ghost Value = { ℕ × ℕ };

    ghost view = { λ p. (p.m, p.e) };

    ghost invariant = { λ p. (2 ^ 23 ≤ p.m) × (p.m < 2 ^ 24) × (2 ≤ p.e) × (p.e < 380) };
}

impl Parts {
    // The whole root of m * 2^25 or, at an odd e, of m * 2^26. It has 25 digits.
    fn whole_root(&self) -> u64
        ensures at_most { result * result ≤ self.now.0 * (2 ^ 25 * (1 + self.now.1 % 2)) }
        ensures beyond { self.now.0 * (2 ^ 25 * (1 + self.now.1 % 2)) < (result + 1) * (result + 1) }
    {
        let n = (self.m as u64) * (0x200_0000 * (1 + ((self.e % 2) as u64)));
        n.isqrt()
    }

    // The root of m * 2^(e + 23) / 4^149 has half of that root for its 24 digits, and half of e for
    // its exponent. An odd root of an even number is never exact, so its half is rounded up.
    #[tactic(auto, using(crate::proofs::Normal::counted_finite, crate::proofs::Normal::counted_word))]
    fn counted_root(&self) -> f32
        ensures { result ≡ root_of binary32 (self.now.0 * 2 ^ (self.now.1 + 23)) }
    {
        let s = self.whole_root();
        f32::from_bits((self.e / 2) * 0x80_0000 + (((s + 1) / 2) as u32))
    }

    // The same if u is the result's digits, which it is if n, a quarter of `whole_root`'s, lies between
    // u * u - u and u * u + u: these are the squares of u - 1/2 and u + 1/2 but for a quarter.
    #[tactic(auto, using(crate::proofs::Normal::compared_finite, crate::proofs::Normal::compared_word))]
    fn tried_root(&self, n: u64, u: u64) -> Option<f32>
        requires quarter { n ≡ self.now.0 * (2 ^ 23 * (1 + self.now.1 % 2)) }
        requires bounds { (n < 2 ^ 48) × (u ≤ 2 ^ 24) }
        ensures { IfSome result (λ r. r ≡ root_of binary32 (self.now.0 * 2 ^ (self.now.1 + 23))) }
    {
        let square = u * u;
        if (square < n + u) & (n <= square + u) {
            Some(f32::from_bits((self.e / 2) * 0x80_0000 + (u as u32)))
        } else {
            None
        }
    }

    // The same by an estimate u of the result's digits, from bits b that end as such a float's do. u is
    // one off at most, as counted over every significand at either last digit of the exponent, so its
    // neighbour is tried before `isqrt` takes its 32 turns: only the proof needs `counted_root`.
    fn root(&self, b: u32) -> f32
        ensures { result ≡ root_of binary32 (self.now.0 * 2 ^ (self.now.1 + 23)) }
    {
        let u = estimate(b);
        let n = (self.m as u64) * (0x80_0000 * (1 + ((self.e % 2) as u64)));
        if let Some(root) = self.tried_root(n, u) {
            return root;
        }
        let neighbour = if u * u < n { u + 1 } else { u - 1 };
        if let Some(root) = self.tried_root(n, neighbour) {
            return root;
        }
        self.counted_root()
    }
}

// The root of b / 2^149, which is subnormal: b is brought to 24 digits first.
#[tactic(auto, using(crate::proofs::Normal::first_digit, crate::proofs::Normal::brought, crate::proofs::Normal::brought_word))]
fn subnormal_root(b: u32) -> f32
    requires { (0 < b) × (b < 2 ^ 24) }
    ensures { result ≡ root_of binary32 (b * 2 ^ 149) }
{
    let k = 23 - b.ilog2();
    let m = b << k;
    let e = 126 - k;
    Parts { m, e }.root(m % 0x80_0000 + (e + 1) % 2 * 0x80_0000)
}

/// The square root, rounded once, as C's sqrtf.
#[tactic(auto, using(crate::proofs::Words::equal_number, crate::proofs::Positive::nan_root, crate::proofs::Positive::normal_root, crate::proofs::Positive::zero_root, crate::proofs::Positive::small_root, crate::proofs::Positive::negative_made, crate::proofs::Positive::last_root))]
pub fn sqrt(x: f32) -> f32
    ensures { result ≡ square_root binary32 x }
{
    if x != x {
        return x;
    }
    let b = f32::to_bits(x);
    // The usual case, a normal float above zero, before the others.
    if (0x80_0000 <= b) & (b < 0x7f80_0000) {
        let parts = Parts {
            m: b % 0x80_0000 + 0x80_0000,
            e: b / 0x80_0000 + 125,
        };
        return parts.root(b);
    }
    if b < 0x80_0000 {
        if b == 0 {
            return 0.0;
        }
        return subnormal_root(b);
    }
    if x < 0.0 { 0.0 / 0.0 } else { x }
}
