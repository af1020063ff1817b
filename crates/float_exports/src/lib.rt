//! The root, the remainder and the hypotenuse under plain names, for Rust or C to link.
#![tactic(auto)]

ghost use Rattle.std.specs.Prelude.{◌≡◌};
ghost use Rattle.std.specs.Float.{binary32};
ghost use Rattle.ieee754.specs.Root.{square_root};
ghost use Rattle.ieee754.specs.Remainder.{remainder_by, tau};
ghost use Rattle.ieee754.specs.Hypot.{hypotenuse};

/// sqrtf(x).
#[unsafe(no_mangle)]
pub extern "C" fn ieee754_sqrt(x: f32) -> f32
    ensures { result ≡ square_root binary32 x }
{
    ieee754::root::sqrt(x)
}

/// remainderf(x, 2.0 * PI).
#[unsafe(no_mangle)]
pub extern "C" fn ieee754_remainder(x: f32) -> f32
    ensures { result ≡ remainder_by binary32 x tau }
{
    ieee754::remainder::remainder(x)
}

/// hypotf(x, y), not always as C's library rounds it (docs/RULES.md, 'The hypotenuse').
#[unsafe(no_mangle)]
pub extern "C" fn ieee754_hypot(x: f32, y: f32) -> f32
    ensures { result ≡ hypotenuse x y }
{
    ieee754::hypot::hypot(x, y)
}
