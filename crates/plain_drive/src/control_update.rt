//! What the calls of a tick have to do with the Rust's `control_update` (docs/RULES.md, 'In the Rust's order'): a function
//! that does nothing, for its clauses.

ghost use Rattle.plain_drive.specs.ControlUpdate.{CallsAreControlUpdate, NewIsFirmwareNew, ResetIsFirmwareReset};

/// At sight's turn the calls of a tick, up to the first that is turned away, ask, keep and answer what the Rust's
/// `control_update` does, of which specs/ControlUpdate.antt is an account in the Rust's own order. `start` and `reset`
/// leave what the Rust's `new` and `reset` do.
pub fn calls_are_control_update()
    ensures update { CallsAreControlUpdate }
    ensures new { NewIsFirmwareNew }
    ensures reset { ResetIsFirmwareReset }
{}
