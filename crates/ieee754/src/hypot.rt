//! The hypotenuse (docs/RULES.md, 'The hypotenuse').

ghost use Rattle.std.specs.Prelude.{◌≡◌};
ghost use Rattle.ieee754.specs.Hypot.{larger, smaller, scaled_root, outweighs, hypot_of, hypotenuse};

use crate::bits::{abs, to_bits};
use crate::root::sqrt;

const TWO_60: f32 = 1152921504606846976.0;

const TWO_MINUS_60: f32 = 8.673617379884035e-19;

const TWO_90: f32 = 1.2379400392853803e27;

const TWO_MINUS_90: f32 = 8.077935669463161e-28;

// The root of a * a + b * b, each step rounded, with both scaled by `by`, and scaled back by `back`.
#[tactic(auto, unfolding(crate::specs::Hypot::scaled_root, crate::specs::Hypot::root_of_squares))]
fn scaled_root(by: f32, back: f32, a: f32, b: f32) -> f32
    ensures { result ≡ scaled_root by back a b }
{
    let p = a * by;
    let q = b * by;
    sqrt(p * p + q * q) * back
}

// Whether b is zero, or too small beside a to count. The sum is at 64 bits, where it cannot wrap.
#[tactic(auto, unfolding(crate::specs::Hypot::outweighs))]
fn outweigh(a: f32, b: f32) -> bool
    ensures { result ≡ outweighs a b }
{
    (b == 0.0) | ((to_bits(b) as u64) + 0xc80_0000 <= (to_bits(a) as u64))
}

// hypotf of the larger magnitude and the smaller one.
#[tactic(auto, unfolding(crate::specs::Hypot::hypot_of, crate::specs::Hypot::root_of_squares))]
fn hypot_of(a: f32, b: f32) -> f32
    ensures { result ≡ hypot_of a b }
{
    if outweigh(a, b) {
        return a + b;
    }
    if a >= TWO_60 {
        return scaled_root(TWO_MINUS_90, TWO_90, a, b);
    }
    if b < TWO_MINUS_60 {
        return scaled_root(TWO_90, TWO_MINUS_90, a, b);
    }
    sqrt(a * a + b * b)
}

// Two numbers, the larger first. Std's max and min are not faster, and ask for more proof.
#[tactic(auto, unfolding(crate::specs::Hypot::larger, crate::specs::Hypot::smaller))]
fn larger_first(p: f32, q: f32) -> (f32, f32)
    ensures { result ≡ (larger p q, smaller p q) }
{
    (if p < q { q } else { p }, if q < p { q } else { p })
}

/// The root of x * x + y * y without overflow in between, as C's hypotf.
#[tactic(auto, using(crate::proofs::Tested::finite_sides, crate::proofs::Tested::infinite_side, crate::proofs::Tested::nan_side))]
pub fn hypot(x: f32, y: f32) -> f32
    ensures { result ≡ hypotenuse x y }
{
    let p = abs(x);
    let q = abs(y);
    let infinity = 1.0 / 0.0;
    // The usual case, two finite numbers, comes first.
    if (p < infinity) & (q < infinity) {
        let (a, b) = larger_first(p, q);
        return hypot_of(a, b);
    }
    if (p == infinity) | (q == infinity) {
        return infinity;
    }
    0.0 / 0.0
}
