//! What is known of a command's mode number, 0 to 3 (docs/RULES.md, 'Commands and modes').
//! Which modes need vision is decided with the plan alone.
ghost use Rattle.std.specs.Prelude.{◌≡◌};
ghost use Rattle.tick.specs.Mode.{is_mode, words_used};

/// Whether the number is a mode: 0 off, 1 brake, 2 position, 3 line.
pub fn is_mode(mode: u32) -> bool
    ensures { result ≡ is_mode mode }
{
    mode < 4
}

/// How many of the 13 command words the mode uses, from the first on, or `None` where the number is no mode.
pub fn words_used(mode: u32) -> Option<u8>
    ensures { result ≡ words_used mode }
{
    match mode {
        0 | 1 => Some(0),
        2 => Some(7),
        3 => Some(13),
        _ => None,
    }
}
