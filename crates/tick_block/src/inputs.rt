//! What the four calls of a tick take, read from a tick block.

ghost use Rattle.std.specs.Prelude.{◌≡◌, ◌+◌, ◌*◌, ◌≤◌};
ghost use Rattle.tick_block.specs.Inputs.{first_words, command_words, matrix_at, sample_at};
ghost use Rattle.tick_block.specs.Inputs.{sight_input, plan_input, steer_input, finish_input, tick_input};

use crate::flags::Flag;
use crate::floats::{float_at, floats_at};
use crate::layout::{
    ACCEL_TO_WHEEL, COMMAND, COSINE, ESTIMATE, FRESH, FRICTION, GYRO, INVERSE_INERTIA, MODE, NEXT,
    PREDICTED, SIGHTING, SINE, TWIST_TO_WHEEL, WHEEL_TO_TWIST, WHEELS,
};
use crate::words::word_at;
use linear::Matrix;
use linear::rotation::Rotation;
use tick::command::CommandWords;
use tick::inputs::{FinishInput, PlanInput, SightInput, SteerInput, TickInput};
use tick::mode::words_used;
use tick::sample::Sample;

// The first n command words. The others are not read: they are 0.0.
fn first_words(block: &[u8], n: usize) -> CommandWords
    ensures { result ≡ first_words block.now n }
{
    let mut words = [0.0; 13];
    for (i, x) in words.iter_mut().enumerate() {
        if i < n {
            *x = float_at(block, COMMAND + i);
        }
    }
    words
}

// Those that the mode uses: none where the number is no mode.
#[tactic(auto, unfolding(crate::specs::Inputs::command_words))]
fn command_words(block: &[u8], mode: u32) -> CommandWords
    ensures { result ≡ command_words block.now mode }
{
    first_words(block, words_used(mode).unwrap_or(0) as usize)
}

// By the index: `from_fn` asks that a row fits in memory, and nothing says what a zip has written.
fn matrix_at<const R: usize, const C: usize>(block: &[u8], at: usize) -> Matrix<R, C>
    requires { at + R * C ≤ 128 }
    ensures { result ≡ matrix_at block.now at }
{
    let mut rows = [[0.0; C]; R];
    for (i, row) in rows.iter_mut().enumerate() {
        *row = floats_at(block, at + i * C);
    }
    Matrix { rows }
}

#[tactic(auto, using(crate::proofs::Vectors::three), unfolding(crate::specs::Inputs::sample_at, crate::specs::Floats::vector6_at))]
fn sample_at(block: &[u8], at: usize) -> Sample
    requires { at + 6 ≤ 128 }
    ensures { result ≡ sample_at block.now at }
{
    Sample {
        state: floats_at(block, at).into(),
        accel: floats_at(block, at + 6).into(),
    }
}

/// What sight takes.
#[tactic(auto, using(crate::proofs::Vectors::three, crate::proofs::Vectors::four), unfolding(crate::specs::Inputs::sight_input, crate::specs::Floats::vector6_at))]
pub fn sight_input(block: &[u8]) -> SightInput
    ensures { result ≡ sight_input block.now }
{
    SightInput {
        vision_pose_meas: floats_at(block, SIGHTING).into(),
        vision_update: Flag::Seen.is_set(block),
        wheel_vel_meas: floats_at(block, WHEELS).into(),
        imu_gyro_theta_meas: float_at(block, GYRO),
        predicted_state: floats_at(block, PREDICTED).into(),
        wheel2twist: matrix_at(block, WHEEL_TO_TWIST),
    }
}

/// Its mode may be any number: a block's own is a mode once it has passed the tests.
#[tactic(auto, unfolding(crate::specs::Inputs::plan_input, crate::specs::Floats::vector6_at))]
pub fn plan_input(block: &[u8]) -> PlanInput
    ensures { result ≡ plan_input block.now }
{
    let mode = word_at(block, MODE);
    PlanInput {
        state_estimate: floats_at(block, ESTIMATE).into(),
        halt: Flag::Halt.is_set(block),
        mode,
        words: command_words(block, mode),
        estimator_failed: Flag::EstimatorFailed.is_set(block),
    }
}

/// What steer takes.
#[tactic(auto, using(crate::proofs::Vectors::four), unfolding(crate::specs::Inputs::steer_input))]
pub fn steer_input(block: &[u8]) -> SteerInput
    ensures { result ≡ steer_input block.now }
{
    SteerInput {
        fresh: sample_at(block, FRESH),
        next: sample_at(block, NEXT),
        wheel_vel_meas: floats_at(block, WHEELS).into(),
        heading: Rotation {
            cos: float_at(block, COSINE),
            sin: float_at(block, SINE),
        },
        stop: Flag::Stop.is_set(block),
        planner_failed: Flag::PlannerFailed.is_set(block),
    }
}

/// What finish takes.
#[tactic(auto, using(crate::proofs::Vectors::three), unfolding(crate::specs::Inputs::finish_input))]
pub fn finish_input(block: &[u8]) -> FinishInput
    ensures { result ≡ finish_input block.now }
{
    FinishInput {
        i_inv: matrix_at(block, INVERSE_INERTIA),
        twist2wheel: matrix_at(block, TWIST_TO_WHEEL),
        accel2wheel: matrix_at(block, ACCEL_TO_WHEEL),
        friction_force_local: floats_at(block, FRICTION).into(),
    }
}

/// What the four calls take, each its own.
pub fn tick_input(block: &[u8]) -> TickInput
    ensures { result ≡ tick_input block.now }
{
    TickInput {
        sight: sight_input(block),
        plan: plan_input(block),
        steer: steer_input(block),
        finish: finish_input(block),
    }
}
