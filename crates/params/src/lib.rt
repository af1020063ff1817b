//! params/controller_params.rs: every constant that the tick, the brake and the encoder lag use, under
//! its Rust name and worked out in f32 in the Rust's order; at the end those of other files.
#![tactic(auto)]

pub mod values; // values.rt: every constant in this file's order, each by its bits
pub mod decimals; // decimals.rt: what is proved of the constants' decimals

use linear::Vector3f;

/// A PID's gains for one axis, a row of the Rust's matrices.
#[derive(Clone, Copy)]
pub struct PidGains {
    pub kp: f32,
    pub ki: f32,
    pub kd: f32,
    /// The bounds of the integrated error.
    pub ki_err_min: f32,
    pub ki_err_max: f32,
}

/// The gains of x and of y.
pub const LINEAR_POSE_PID_GAINS: PidGains = PidGains {
    kp: 300.0,
    ki: 0.0,
    kd: 7.0,
    ki_err_min: 0.0,
    ki_err_max: 0.0,
};

/// The gains of the heading.
pub const ANGULAR_POSE_PID_GAINS: PidGains = PidGains {
    kp: 400.0,
    ki: 0.0,
    kd: 30.0,
    ki_err_min: 0.0,
    ki_err_max: 0.0,
};

/// Below this error (m, m, rad) an axis of the pose's PID is scaled toward zero.
pub const POSE_PID_ANTI_JITTER_THRESH: Vector3f = Vector3f {
    x: 0.001,
    y: 0.001,
    z: 0.01,
};

/// POSE_ACCEL_GAIN's second entry: POSE_ACCEL_MODE is FeedbackOnly and uses no other.
pub const POSE_ACCEL_FEEDBACK_GAIN: f32 = 1.0;

/// POSE_VEL_GAIN's first entry: POSE_VEL_MODE is FeedforwardOnly and uses no other.
pub const POSE_VEL_FEEDFORWARD_GAIN: f32 = 1.0;

/// The Rust's vector of four, its entries named as its comment names them.
#[derive(Clone, Copy)]
pub struct TrackingErrors {
    pub pos_linear: f32,
    pub pos_angular: f32,
    pub vel_linear: f32,
    pub vel_angular: f32,
}

/// A tracking error above one of these turns the controller to recovering.
pub const TRACKING_ERROR_THRESHOLD: TrackingErrors = TrackingErrors {
    pos_linear: 1.0,
    pos_angular: 1.57,
    vel_linear: 5.0,
    vel_angular: 10.0,
};

/// The Rust's vector of four, its entries named as its comment names them.
#[derive(Clone, Copy)]
pub struct FrictionGates {
    pub linear_vel: f32,
    pub linear_accel: f32,
    pub angular_vel: f32,
    pub angular_accel: f32,
}

/// Friction is compensated from these on.
pub const FRICTION_COMP_GATING: FrictionGates = FrictionGates {
    linear_vel: 0.1,
    linear_accel: 0.5,
    angular_vel: 0.5,
    angular_accel: 1.0,
};

/// The largest linear acceleration of the body, m/s².
pub const BODY_ACCEL_CLAMP_LINEAR: f32 = 20.0;

/// The largest angular acceleration, rad/s².
pub const BODY_ACCEL_CLAMP_ANGULAR: f32 = 100.0;

// core::f32::consts::TAU.
const TAU: f32 = 6.28318530717958647692528676655900577;

/// The largest linear velocity of the body, m/s.
pub const BODY_VEL_CLAMP_LINEAR: f32 = 10.0;

/// The largest angular velocity, rad/s.
pub const BODY_VEL_CLAMP_ANGULAR: f32 = 5.0 * TAU;

/// The largest linear speed in the stop state, m/s.
pub const STOP_STATE_LINEAR_SPEED_LIMIT: f32 = 1.25;

/// The active brake's gain, A/(rad/s).
pub const BRAKE_KP: f32 = 0.01;

/// Below this wheel speed, rad/s, the brake is scaled toward zero.
pub const BRAKE_ANTI_JITTER_RADS: f32 = 5.0;

/// The brake's largest current, A.
pub const BRAKE_MAX_CURRENT_A: f32 = 1.0;

/// Recovery ends once every wheel stayed below this speed, rad/s.
pub const TRACKING_DIVERGENCE_RECOVERY_REST_WHEEL_VEL: f32 = 50.0;

/// For so many ticks the wheels stay so slow.
pub const TRACKING_DIVERGENCE_RECOVERY_REST_TICKS: u32 = 1;

const VISION_GATE_V_MAX_M_PER_S: f32 = 3.0;

const VISION_GATE_N_MISS: u32 = 3;

const VISION_GATE_T_VISION_S: f32 = 1.0 / 60.0;

const VISION_GATE_T_LATENCY_S: f32 = 0.150;

const VISION_GATE_SLACK_M: f32 = 0.005;

/// So many sightings seed the gate.
pub const VISION_SEED_SAMPLES: u32 = 20;

/// They seed it where each of their deviations is below this, m.
pub const VISION_SEED_POS_STD_THRESH_M: f32 = 0.03;

/// The gate's radius at a sighting that is taken, m.
pub const VISION_GATE_BASE_RADIUS_M: f32 = VISION_GATE_V_MAX_M_PER_S
    * (VISION_GATE_N_MISS as f32 * VISION_GATE_T_VISION_S + VISION_GATE_T_LATENCY_S)
    + VISION_GATE_SLACK_M;

/// How fast the radius grows until the next one is taken, m/s.
pub const VISION_GATE_EXPAND_RATE_M_PER_S: f32 = 2.0;

/// The encoder lag's gain, on both axes.
pub const ENC_LAG_K: f32 = 0.95;

/// Its slope, s/(m/s).
pub const ENC_LAG_T_SLOPE: f32 = 0.095;

/// Its horizon in microseconds.
pub const ENC_LAG_T_HORIZON: u32 = 10_000;

/// lib-stm32, model/mod.rs: the lag's least time constant in microseconds.
pub const T_MIN_DEFAULT: u32 = 1_000;

/// control_context.rs: vision is active up to this on the vision clock.
pub const VISION_ACTIVE_TIMEOUT_S: f32 = 0.5;

/// control_context.rs: where a new and a reset vision clock stand.
pub const VISION_CLOCK_START_S: f32 = VISION_ACTIVE_TIMEOUT_S + 1.0;
