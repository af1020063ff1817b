//! The firmware's two clamps, which differ at NaN (docs/RULES.md, 'The two clamps').

ghost use Rattle.std.specs.Prelude.{◌≡◌};
ghost use Rattle.ieee754.specs.Clamp.{clamp_between, clamp_within};

/// `clamp` of pid.rs: NaN gives lo.
#[tactic(auto, unfolding(crate::specs::Clamp::clamp_between))]
pub fn clamp(v: f32, lo: f32, hi: f32) -> f32
    ensures { result ≡ clamp_between v lo hi }
{
    // Not std's, by which NaN stays, and which asks that lo is at most hi.
    if v > lo {
        if v < hi { v } else { hi }
    } else {
        lo
    }
}

/// `f32::clamp` to -bound and bound: NaN stays NaN.
#[tactic(auto, unfolding(crate::specs::Clamp::clamp_within))]
pub fn clamp_within(v: f32, bound: f32) -> f32
    ensures { result ≡ clamp_within v bound }
{
    // Not std's: it asks that the lower bound is at most the upper one, and any bound is answered here.
    let least = if v < -bound { -bound } else { v };
    if least > bound { bound } else { least }
}
