//! Plan's work: the one decision over mode, halt, recovery and vision (docs/RULES.md, 'Plan').

ghost use Rattle.std.specs.Prelude.{◌≡◌};
ghost use Rattle.vision.specs.Vision.{active};
ghost use Rattle.control_context.specs.Answer.{answer_number, disables_wheels, needs_plan};
ghost use Rattle.control_context.specs.Decision.{decided_on, decision_on, number_on};
ghost use Rattle.control_context.specs.Equality.{equal, command_changed};
ghost use Rattle.control_context.specs.Plan.{maneuver_answer};

use crate::context::ControlContext;
use crate::memory::Memory;
use linear::Vector6f;
use tick::command::ManeuverCommand;

/// What plan answers.
#[derive(Clone, Copy)]
pub enum PlanAnswer {
    Hold,
    NoVision,
    /// The held trajectory is tracked on.
    Keep,
    /// A new trajectory is needed, from this state on.
    NewPlan(Vector6f),
}

impl PlanAnswer {
    /// Without vision the wheels are disabled.
    pub fn disables_wheels(self) -> bool
        ensures { result ≡ disables_wheels self }
    {
        matches!(self, PlanAnswer::NoVision)
    }

    /// Whether a planner failure counts.
    pub fn needs_plan(self) -> bool
        ensures { result ≡ needs_plan self }
    {
        matches!(self, PlanAnswer::NewPlan(_))
    }
}

/// Whether two commands are of the same kind and their fields equal as floats, each with the one at its place: a NaN
/// equals nothing, and -0.0 equals 0.0. The Rust derives it.
#[tactic(auto, unfolding(crate::specs::Equality::fields_equal))]
pub fn commands_equal(c: ManeuverCommand, o: ManeuverCommand) -> bool
    ensures { result ≡ equal c o }
{
    match (c, o) {
        (ManeuverCommand::Off, ManeuverCommand::Off) => true,
        (ManeuverCommand::Brake, ManeuverCommand::Brake) => true,
        (ManeuverCommand::GlobalPosition(c), ManeuverCommand::GlobalPosition(o)) => {
            c.target_pose.x == o.target_pose.x
                && c.target_pose.y == o.target_pose.y
                && c.target_pose.z == o.target_pose.z
                && c.max_linear_vel == o.max_linear_vel
                && c.max_angular_vel == o.max_angular_vel
                && c.max_linear_acc == o.max_linear_acc
                && c.max_angular_acc == o.max_angular_acc
        }
        (ManeuverCommand::HeadingLine(c), ManeuverCommand::HeadingLine(o)) => {
            c.global_theta == o.global_theta
                && c.start_x == o.start_x
                && c.start_y == o.start_y
                && c.dir_x == o.dir_x
                && c.dir_y == o.dir_y
                && c.line_velocity == o.line_velocity
                && c.max_vel_colinear == o.max_vel_colinear
                && c.max_vel_perp == o.max_vel_perp
                && c.max_vel_angular == o.max_vel_angular
                && c.max_accel_colinear == o.max_accel_colinear
                && c.max_accel_perp == o.max_accel_perp
                && c.max_accel_angular == o.max_accel_angular
                && c.colinear_start_thresh == o.colinear_start_thresh
        }
        _ => false,
    }
}

// Whether the command is another than the previous one, or there was none.
fn command_changed(prev_cmd: Option<ManeuverCommand>, cmd: ManeuverCommand) -> bool
    ensures { result ≡ command_changed prev_cmd cmd }
{
    match prev_cmd {
        None => true,
        Some(prev) => !commands_equal(prev, cmd),
    }
}

impl ControlContext {
    // What modes 2 and 3 answer: without vision nothing is tracked.
    fn maneuver_answer(&self, cmd: ManeuverCommand) -> PlanAnswer
        ensures { result
            ≡ maneuver_answer self.now.memory (active self.now.vision.time_since_vision_update_s) cmd
            self.now.state_estimate }
    {
        if !self.vision.vision_active() {
            return PlanAnswer::NoVision;
        }
        match self.memory.held {
            None => PlanAnswer::NewPlan(self.state_estimate),
            Some(sample) if command_changed(self.memory.prev_cmd, cmd) => {
                PlanAnswer::NewPlan(sample.state)
            }
            Some(_) => PlanAnswer::Keep,
        }
    }

    // The one decision. A number that is no mode holds: callers refuse it first.
    #[tactic(auto, unfolding(crate::specs::Plan::decided))]
    fn plan_answer(&mut self, mode: u32, halt: bool, cmd: ManeuverCommand) -> PlanAnswer
        ensures { let d = decision_on self.old mode halt cmd self.old.state_estimate in
            (result ≡ d.answer) × (self.new ≡ record self.old { memory = d.memory; prev_mode = d.prev_mode }) }
    {
        match mode {
            2..=3 if !(halt | self.divergence.recovering()) => {
                if mode != self.prev_mode {
                    self.memory = Memory::empty();
                    self.prev_mode = mode;
                }
                self.maneuver_answer(cmd)
            }
            _ => {
                self.memory = Memory::empty();
                self.prev_mode = 0;
                PlanAnswer::Hold
            }
        }
    }

    /// Sets the estimate, and decides on the command.
    #[tactic(auto, unfolding(crate::specs::Decision::decided_on, crate::specs::Plan::decided))]
    pub fn decide(
        &mut self,
        mode: u32,
        halt: bool,
        cmd: ManeuverCommand,
        state_estimate: Vector6f,
    ) -> PlanAnswer
        ensures value { let d = decided_on self.old mode halt cmd state_estimate in
            (result ≡ d.answer) × (self.new ≡ d.context) }
        ensures number { answer_number result ≡ number_on self.old mode halt cmd }
    {
        self.state_estimate = state_estimate;
        let answer = self.plan_answer(mode, halt, cmd);
        self.wheels_disabled |= answer.disables_wheels();
        answer
    }
}
