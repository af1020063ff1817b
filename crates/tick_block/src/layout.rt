//! Where the 128 words of a tick block lie. A part of several words is named by its first one.

/// The length of a tick block.
pub const BLOCK_BYTES: usize = 512;

/// The version, 1.
pub const VERSION: usize = 0;

/// The tick's number in its pass.
pub const NUMBER: usize = 1;

/// The flags, one bit each.
pub const FLAGS: usize = 2;

/// The mode's number.
pub const MODE: usize = 3;

/// Three words: the sighted pose.
pub const SIGHTING: usize = 4;

/// Four words: the measured wheel speeds, which sight and steer both take.
pub const WHEELS: usize = 7;

/// The measured angular velocity, in rad/s.
pub const GYRO: usize = 11;

/// Six words: the estimator's prediction.
pub const PREDICTED: usize = 12;

/// Six words: the estimator's estimate.
pub const ESTIMATE: usize = 18;

/// Thirteen words, of which the mode says how many are used.
pub const COMMAND: usize = 24;

/// Nine words: the sample that a new plan gives for this tick.
pub const FRESH: usize = 37;

/// Nine words: the sample that the tracked plan gives for the next tick.
pub const NEXT: usize = 46;

/// The cosine of the estimate's heading.
pub const COSINE: usize = 55;

/// The sine of the estimate's heading.
pub const SINE: usize = 56;

/// Three rows of three words.
pub const INVERSE_INERTIA: usize = 57;

/// Four rows of three words.
pub const TWIST_TO_WHEEL: usize = 66;

/// Four rows of three words.
pub const ACCEL_TO_WHEEL: usize = 78;

/// Three rows of four words, at the sighted heading.
pub const WHEEL_TO_TWIST: usize = 90;

/// Three words: the friction force in local axes.
pub const FRICTION: usize = 102;

/// The tick length's k.
pub const TICK_LENGTH: usize = 105;

/// The first of the words that are to be zero.
pub const SPARE: usize = 106;

/// How many words are to be zero.
pub const SPARES: usize = 21;

/// The last word.
pub const CHECK: usize = 127;
