//! A seeding: sightings gathered until their places are known to be steady (docs/RULES.md, 'Seeding').

ghost use Rattle.std.specs.Prelude.{◌≡◌, ◌<◌};
ghost use Rattle.params.specs.declared.TheConstants.{VISION_SEED_SAMPLES};
ghost use Rattle.vision.specs.Gate.{seeding_judged};
ghost use Rattle.vision.specs.Seeding.{fresh_seeding, gathered, deviation, steady, kept_seeding};

use ieee754::root::sqrt;
use linear::{Vector2f, Vector3f, ZEROS_2};
use params::{VISION_SEED_POS_STD_THRESH_M, VISION_SEED_SAMPLES};
use std::marker::Model;
use tick::action::GateAction;

/// The sightings of a seeding, fewer than `VISION_SEED_SAMPLES`: how many, the sums of their places
/// in metres, and of the squares.
#[derive(Clone, Copy)]
pub struct Seeding {
    n: u32,
    pos_sum: Vector2f,
    pos_sq_sum: Vector2f,
}

impl Model for Seeding {
    ghost use Rattle.std.specs.Prelude.{◌<◌};
    ghost use Rattle.params.specs.declared.TheConstants.{VISION_SEED_SAMPLES};
    ghost use Rattle.vision.specs.Seeding.{Seeding};

    ghost Value = { Seeding };

    ghost view = { λ s. record { n = s.n; pos_sum = s.pos_sum; pos_sq_sum = s.pos_sq_sum } };

    ghost invariant = { λ s. s.n < VISION_SEED_SAMPLES };

    ghost inverse = { λ v. record { n = v.n; pos_sum = v.pos_sum; pos_sq_sum = v.pos_sq_sum } };
}

// The deviation of n samples: Variance = E[x²] - (E[x])², which rounding can take below zero.
fn deviation_of(sum: f32, sq_sum: f32, nf: f32) -> f32
    ensures { result ≡ deviation sum sq_sum nf }
{
    let mean = sum / nf;
    sqrt(sq_sum / nf - mean * mean)
}

impl Seeding {
    /// A seeding that has seen nothing: `VisionGateState::default` of control_context.rs.
    #[tactic(auto, unfolding(linear::specs::Vector::zeros2))]
    pub fn fresh() -> Seeding
        ensures { result ≡ fresh_seeding }
    {
        Seeding {
            n: 0,
            pos_sum: ZEROS_2,
            pos_sq_sum: ZEROS_2,
        }
    }

    /// How many sightings.
    pub fn n(&self) -> u32
        ensures { (result ≡ self.now.n) × (result < VISION_SEED_SAMPLES) }
    {
        self.n
    }

    /// The sums of their places.
    pub fn pos_sum(&self) -> Vector2f
        ensures { result ≡ self.now.pos_sum }
    {
        self.pos_sum
    }

    /// The sums of the squares of their places.
    pub fn pos_sq_sum(&self) -> Vector2f
        ensures { result ≡ self.now.pos_sq_sum }
    {
        self.pos_sq_sum
    }

    /// Gathers one sighting more. The last one that a seeding needs ends it, and leaves a fresh one.
    pub fn gather(&mut self, sighting: Vector3f) -> GateAction
        ensures { let s = gathered self.old sighting in
            (result ≡ (seeding_judged s).action) × (self.new ≡ kept_seeding s) }
    {
        self.n += 1;
        self.pos_sum.x += sighting.x;
        self.pos_sum.y += sighting.y;
        self.pos_sq_sum.x += sighting.x * sighting.x;
        self.pos_sq_sum.y += sighting.y * sighting.y;
        if self.n < VISION_SEED_SAMPLES {
            return GateAction::Accumulate;
        }
        let nf = std::num::nearest_u32_to_f32(self.n);
        let x = deviation_of(self.pos_sum.x, self.pos_sq_sum.x, nf);
        let y = deviation_of(self.pos_sum.y, self.pos_sq_sum.y, nf);
        *self = Seeding::fresh();
        if (x < VISION_SEED_POS_STD_THRESH_M) & (y < VISION_SEED_POS_STD_THRESH_M) {
            return GateAction::SeedComplete;
        }
        GateAction::SeedReset
    }
}
