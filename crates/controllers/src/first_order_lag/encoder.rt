//! The encoder lag: the `FirstOrderLag` that control_context.rs makes for a tick length.

ghost use Rattle.std.specs.Prelude.{◌≡◌};
ghost use Rattle.tick.specs.Refusal.{number_of};
ghost use Rattle.tick.specs.TickLength.{refusal_of};
ghost use Rattle.controllers.specs.EncoderLag.{duration_to_secs, horizon_over, Castable, n_steps_of, new_lag, lag_of};

use crate::first_order_lag::{FirstOrderLag, FirstOrderLagParams};
use linear::{Vector2f, ZEROS_2};
use params::{ENC_LAG_K, ENC_LAG_T_HORIZON, ENC_LAG_T_SLOPE, T_MIN_DEFAULT};
use tick::refusal::Refusal;
use tick::tick_length::TickLength;

// Whole microseconds in seconds.
#[tactic(auto, unfolding(crate::specs::EncoderLag::duration_to_secs))]
fn duration_to_secs(micros: u32) -> f32
    ensures { result ≡ duration_to_secs micros }
{
    std::num::nearest_u32_to_f32(micros) * 1e-6
}

// The horizon in timesteps, rounded to the nearest whole number, and 1 at least.
#[tactic(auto, unfolding(crate::specs::EncoderLag::horizon_over, crate::specs::EncoderLag::n_steps_of))]
fn n_steps_of(dt_secs: f32) -> usize
    requires { Castable (horizon_over dt_secs) }
    ensures { result ≡ n_steps_of dt_secs }
{
    let steps = duration_to_secs(ENC_LAG_T_HORIZON) / dt_secs + 0.5;
    (std::num::truncating_f32_to_u64(steps) as usize).max(1)
}

// The lag of a tick length, at rest, both axes alike.
#[tactic(auto, unfolding(crate::specs::EncoderLag::new_lag, linear::specs::Vector::zeros2))]
fn lag_of(t: TickLength) -> FirstOrderLag
    ensures { result ≡ new_lag t }
{
    let dt = duration_to_secs(t.micros());
    FirstOrderLag {
        params: FirstOrderLagParams {
            k: Vector2f {
                x: ENC_LAG_K,
                y: ENC_LAG_K,
            },
            t_slope: Vector2f {
                x: ENC_LAG_T_SLOPE,
                y: ENC_LAG_T_SLOPE,
            },
        },
        t_min: duration_to_secs(T_MIN_DEFAULT),
        dt,
        n_steps: n_steps_of(dt),
        state: ZEROS_2,
    }
}

/// What control_context.rs makes by `FirstOrderLag::new_from_horizon` for ticks of k/4096 s, or
/// `Refusal::TickLength` where k is not from 1 to 64.
#[tactic(auto, unfolding(crate::specs::EncoderLag::lag_of))]
pub fn new_from_horizon(k: u32) -> Result<FirstOrderLag, Refusal>
    ensures { (result ≡ lag_of k) × (number_of result ≡ refusal_of k) }
{
    Ok(lag_of(TickLength::new(k)?))
}
