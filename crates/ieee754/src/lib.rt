//! Operations on floats beyond +, -, * and /: as IEEE 754 has them, and the two clamps and the hypotenuse of the
//! firmware (docs/RULES.md, 'Floats').
#![tactic(auto)]

pub mod bits; // bits.rt: a word's float, a float's word, and a float without its sign
pub mod clamp; // clamp.rt: the two clamps, which differ at NaN
pub mod hypot; // hypot.rt: the hypotenuse, as hypotf
pub mod laws; // laws.rt: what is proved of them all
pub mod remainder; // remainder.rt: the remainder by 2.0·PI
pub mod root; // root.rt: the square root, by whole numbers
mod table; // table.rt: the cubics of its first guess
