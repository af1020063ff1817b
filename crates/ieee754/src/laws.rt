//! What is proved of roots, remainders, hypotenuses, words and clamps: functions that do nothing, for their clauses.

ghost use Rattle.ieee754.specs.Laws.{RootIsNearest, RemainderIsExact, RemainderIsSmall, RemainderIsEven};
ghost use Rattle.ieee754.specs.Laws.{RemainderZeroHasSign, RemIsExact, HypotIsSymmetric, WrittenWordIsRead};
ghost use Rattle.ieee754.specs.Laws.{ReadWordIsWritten, ClampIsBetween, ClampIsLowerAtNan, ClampWithinIsBetween};
ghost use Rattle.ieee754.specs.Laws.{ClampWithinKeepsNan};

/// The square root is IEEE 754's: the float nearest to the exact root, which is never midway between two.
#[tactic(auto, using(crate::proofs::RootLaws::root_nearest))]
pub fn root_is_nearest()
    ensures nearest { RootIsNearest }
{}

/// The remainder is IEEE 754's, in any format and by any divisor but zero.
pub fn remainder_is_exact()
    ensures exact { RemainderIsExact }
    ensures small { RemainderIsSmall }
    ensures even { RemainderIsEven }
    ensures zero_sign { RemainderZeroHasSign }
{}

/// Rust's `%` loses nothing, in any format and by any divisor but zero.
pub fn rem_is_exact()
    ensures exact { RemIsExact }
{}

/// `hypot` gives the same in both orders.
#[tactic(auto, using(crate::proofs::HypotLaws::hypotenuse_comm))]
pub fn hypot_is_symmetric()
    ensures symmetric { HypotIsSymmetric }
{}

/// A float and its word give each other back; every NaN's word is written 7fc00000.
#[tactic(auto, using(crate::proofs::Words::written_word_read, crate::proofs::Words::read_word_written))]
pub fn words_come_back()
    ensures written { WrittenWordIsRead }
    ensures read { ReadWordIsWritten }
{}

/// `clamp` answers within its bounds, where these are in order, and gives the lower one at NaN.
#[tactic(auto, using(crate::proofs::ClampLaws::clamp_between_lem, crate::proofs::ClampLaws::clamp_nan))]
pub fn clamp_is_within_bounds()
    ensures between { ClampIsBetween }
    ensures lower_at_nan { ClampIsLowerAtNan }
{}

/// `clamp_within` answers within its bounds, where these are in order, and keeps NaN.
#[tactic(auto, using(crate::proofs::ClampLaws::clamp_within_within, crate::proofs::ClampLaws::clamp_within_nan))]
pub fn clamp_within_keeps_nan()
    ensures between { ClampWithinIsBetween }
    ensures nan { ClampWithinKeepsNan }
{}
