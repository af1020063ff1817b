//! The tick length: how long one tick lasts, k/4096 s with k from 1 to 64 (docs/RULES.md, 'The tick length').
ghost use Rattle.std.specs.Prelude.{◌≡◌};
ghost use Rattle.tick.specs.Refusal.{number_of};
ghost use Rattle.tick.specs.TickLength.{IsTickLength, tick_length_of, refusal_of, seconds_of, micros_of};

use crate::refusal::Refusal;
use std::marker::Model;

/// A tick length. A contract sees it as its number k, which is from 1 to 64 by the type.
#[derive(Clone, Copy, Debug, PartialEq, Eq)]
pub struct TickLength {
    k: u8,
}

impl Model for TickLength {
    ghost use Rattle.std.specs.Prelude.{ℕ};

    ghost Value = { ℕ };

    ghost use Rattle.tick.specs.TickLength.{IsTickLength};

    ghost view = { λ t. t.k };

    ghost invariant = { λ t. IsTickLength t.k };

    ghost inverse = { λ k. record { k = k } };
}

impl TickLength {
    /// The tick length of k/4096 s, or `Refusal::TickLength` where k is not from 1 to 64.
    pub fn new(k: u32) -> Result<TickLength, Refusal>
        ensures { (result ≡ tick_length_of k) × (number_of result ≡ refusal_of k) }
    {
        match k {
            1..=64 => Ok(TickLength { k: k as u8 }),
            _ => Err(Refusal::TickLength),
        }
    }

    /// The number k.
    pub fn k(self) -> u8
        ensures value { result ≡ self }
        ensures valid { IsTickLength self }
    {
        self.k
    }

    /// In seconds, exact.
    #[tactic(auto, unfolding(crate::specs::TickLength::seconds_of))]
    pub fn seconds(self) -> f32
        ensures value { result ≡ seconds_of self }
        ensures valid { IsTickLength self }
    {
        f32::from(self.k) / 4096.0
    }

    /// In whole microseconds, rounded down.
    #[tactic(auto, unfolding(crate::specs::TickLength::micros_of))]
    pub fn micros(self) -> u32
        ensures value { result ≡ micros_of self }
        ensures valid { IsTickLength self }
    {
        15625 * u32::from(self.k) / 64
    }
}
