//! A tick: the calls sight, plan, steer and finish, up to the first that is turned away, and its line (docs/RULES.md,
//! 'The five calls').
ghost use Rattle.std.specs.Prelude.{◌≡◌, MatchResult, Ok, Err};
ghost use Rattle.body_controller.specs.InTurn.{from_plan};
ghost use Rattle.pass.specs.Tick.{ending_of, ticked};

use body_controller::{BodyController, Called};
use line_text::line::TickLine;
use linear::Vector4f;
use tick::inputs::TickInput;
use tick::refusal::Refusal;

// A call's answer; its controller takes the place of c.
fn keep<A: Drop>(c: &mut BodyController, called: Called<A>) -> Result<A, Refusal>
    ensures { (result ≡ called.answer) × (c.new ≡ called.controller) }
{
    *c = called.controller;
    called.answer
}

// The calls behind sight: the wheel speeds, or the refusal that ended the tick.
fn drive_on(c: &mut BodyController, i: &TickInput) -> Result<Vector4f, Refusal>
    ensures { let last = from_plan c.old i.now in (result ≡ ending_of last.answer) × (c.new ≡ last.controller) }
{
    keep(c, c.plan(i.plan))?;
    keep(c, c.steer(i.steer))?;
    let finished = keep(c, c.finish(i.finish))?;
    Ok(finished.outputs.wheel_vel_out)
}

// A tick's line, with the marks at its end. Where sight refuses the tick, the controller stays.
pub(crate) fn drive_tick(c: &mut BodyController, i: &TickInput) -> Result<TickLine, Refusal>
    ensures { MatchResult (ticked c.old i.now)
        (λ t. (result ≡ Ok t.line) × (c.new ≡ t.controller))
        (λ r. (result ≡ Err r) × (c.new ≡ c.old)) }
{
    let number = c.totals().ticks;
    let Called { answer, controller } = c.sight(i.sight);
    let action = answer?.action;
    *c = controller;
    let ending = drive_on(c, i);
    Ok(TickLine {
        number,
        action,
        active: c.vision_active(),
        recovering: c.tracking_divergence_recovery_active(),
        ending,
    })
}
