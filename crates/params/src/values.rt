//! Every constant of the crate, in the order of lib.rt. The contracts tie each to its bits.

ghost use Rattle.std.specs.Prelude.{◌≡◌};
ghost use Rattle.params.specs.Params.{tracking_values, limit_values, count_values};

use crate::{
    ANGULAR_POSE_PID_GAINS, BODY_ACCEL_CLAMP_ANGULAR, BODY_ACCEL_CLAMP_LINEAR,
    BODY_VEL_CLAMP_ANGULAR, BODY_VEL_CLAMP_LINEAR, BRAKE_ANTI_JITTER_RADS, BRAKE_KP,
    BRAKE_MAX_CURRENT_A, ENC_LAG_K, ENC_LAG_T_HORIZON, ENC_LAG_T_SLOPE, FRICTION_COMP_GATING,
    LINEAR_POSE_PID_GAINS, POSE_ACCEL_FEEDBACK_GAIN, POSE_PID_ANTI_JITTER_THRESH,
    POSE_VEL_FEEDFORWARD_GAIN, STOP_STATE_LINEAR_SPEED_LIMIT, T_MIN_DEFAULT,
    TRACKING_DIVERGENCE_RECOVERY_REST_TICKS, TRACKING_DIVERGENCE_RECOVERY_REST_WHEEL_VEL,
    TRACKING_ERROR_THRESHOLD, VISION_ACTIVE_TIMEOUT_S, VISION_CLOCK_START_S,
    VISION_GATE_BASE_RADIUS_M, VISION_GATE_EXPAND_RATE_M_PER_S, VISION_SEED_POS_STD_THRESH_M,
    VISION_SEED_SAMPLES,
};

/// Gains, thresholds and gates.
pub fn tracking_values() -> [f32; 23]
    ensures { result ≡ tracking_values }
{
    [
        LINEAR_POSE_PID_GAINS.kp,
        LINEAR_POSE_PID_GAINS.ki,
        LINEAR_POSE_PID_GAINS.kd,
        LINEAR_POSE_PID_GAINS.ki_err_min,
        LINEAR_POSE_PID_GAINS.ki_err_max,
        ANGULAR_POSE_PID_GAINS.kp,
        ANGULAR_POSE_PID_GAINS.ki,
        ANGULAR_POSE_PID_GAINS.kd,
        ANGULAR_POSE_PID_GAINS.ki_err_min,
        ANGULAR_POSE_PID_GAINS.ki_err_max,
        POSE_PID_ANTI_JITTER_THRESH.x,
        POSE_PID_ANTI_JITTER_THRESH.y,
        POSE_PID_ANTI_JITTER_THRESH.z,
        POSE_ACCEL_FEEDBACK_GAIN,
        POSE_VEL_FEEDFORWARD_GAIN,
        TRACKING_ERROR_THRESHOLD.pos_linear,
        TRACKING_ERROR_THRESHOLD.pos_angular,
        TRACKING_ERROR_THRESHOLD.vel_linear,
        TRACKING_ERROR_THRESHOLD.vel_angular,
        FRICTION_COMP_GATING.linear_vel,
        FRICTION_COMP_GATING.linear_accel,
        FRICTION_COMP_GATING.angular_vel,
        FRICTION_COMP_GATING.angular_accel,
    ]
}

/// Clamps, and the numbers of brake, recovery, vision and encoder lag.
pub fn limit_values() -> [f32; 16]
    ensures { result ≡ limit_values }
{
    [
        BODY_ACCEL_CLAMP_LINEAR,
        BODY_ACCEL_CLAMP_ANGULAR,
        BODY_VEL_CLAMP_LINEAR,
        BODY_VEL_CLAMP_ANGULAR,
        STOP_STATE_LINEAR_SPEED_LIMIT,
        BRAKE_KP,
        BRAKE_ANTI_JITTER_RADS,
        BRAKE_MAX_CURRENT_A,
        TRACKING_DIVERGENCE_RECOVERY_REST_WHEEL_VEL,
        VISION_SEED_POS_STD_THRESH_M,
        VISION_GATE_BASE_RADIUS_M,
        VISION_GATE_EXPAND_RATE_M_PER_S,
        ENC_LAG_K,
        ENC_LAG_T_SLOPE,
        VISION_ACTIVE_TIMEOUT_S,
        VISION_CLOCK_START_S,
    ]
}

/// Counts and durations.
pub fn count_values() -> [u32; 4]
    ensures { result ≡ count_values }
{
    [
        TRACKING_DIVERGENCE_RECOVERY_REST_TICKS,
        VISION_SEED_SAMPLES,
        ENC_LAG_T_HORIZON,
        T_MIN_DEFAULT,
    ]
}
