//! `ControlContext` of control_context.rs, and the work of sight and steer on it.

ghost use Rattle.std.specs.Prelude.{◌≡◌};
ghost use Rattle.control_context.specs.Context.{new_context, context_reset, planner_failed};
ghost use Rattle.control_context.specs.Following.{followed, steered, tracked, tracked_sample};
ghost use Rattle.control_context.specs.StateEstimate.{seen};

use crate::maneuvers::PlanAnswer;
use crate::memory::Memory;
use crate::recovery::TrackingDivergenceState;
use crate::tracking::{ManeuverSetpoints, ZERO_SETPOINTS};
use controllers::pid::PidMemory;
use linear::{Vector3f, Vector4f, Vector6f};
use tick::action::GateAction;
use tick::command::ManeuverCommand;
use tick::sample::Sample;
use tick::start::Start;
use vision::Vision;

/// What the calls of a tick keep from tick to tick.
#[derive(Clone, Copy)]
pub struct ControlContext {
    /// In the place of the Rust's `dt`.
    pub start: Start,
    pub vision: Vision,
    pub memory: Memory,
    /// `tracking_divergence_state`.
    pub divergence: TrackingDivergenceState,
    /// What `pose_pid_controller` remembers.
    pub pose_pid: PidMemory<3>,
    pub state_estimate: Vector6f,
    pub prev_mode: u32,
    pub wheels_disabled: bool,
}

/// What plan leaves to steer.
#[derive(Clone, Copy)]
pub struct Planned {
    pub answer: PlanAnswer,
    pub cmd: ManeuverCommand,
}

impl ControlContext {
    /// A context around this estimate: the wheels are disabled, and the previous mode is off.
    pub fn new(start: Start, state_estimate: Vector6f) -> ControlContext
        ensures { result ≡ new_context start state_estimate }
    {
        ControlContext {
            start,
            vision: Vision::new(),
            memory: Memory::empty(),
            divergence: TrackingDivergenceState::Normal,
            pose_pid: PidMemory::new(),
            state_estimate,
            prev_mode: 0,
            wheels_disabled: true,
        }
    }

    /// Where recovery ends: the estimate, the previous mode and the wheels' disabled mark stay.
    pub fn reset(&mut self)
        ensures { self.new ≡ context_reset self.old }
    {
        self.vision = Vision::new();
        self.memory = Memory::empty();
        self.divergence = TrackingDivergenceState::Normal;
        self.pose_pid.reset();
    }

    /// A planner failure drops the trajectory.
    pub fn fail_plan(&mut self)
        ensures { self.new ≡ planner_failed self.old }
    {
        self.memory.held = None;
    }

    /// The vision part of `update_state_estimate`: the gate judges the sighting, in metres and radians, beside the
    /// state that the filter predicts. Where the filter's state is overwritten, what was tracked is dropped.
    #[tactic(auto, unfolding(crate::specs::StateEstimate::seen))]
    pub fn update_vision(
        &mut self,
        sighting: Option<Vector3f>,
        predicted_state: Vector6f,
    ) -> GateAction
        ensures { let s = seen self.old sighting predicted_state in (result ≡ s.action) × (self.new ≡ s.context) }
    {
        self.wheels_disabled = false;
        let action = self.vision.update(sighting, predicted_state, self.start);
        if action.overwrites() {
            self.memory = Memory::empty();
            self.pose_pid.reset();
        }
        action
    }

    // The sample that plan's answer tracks, if it tracks one.
    fn tracked_sample(&self, planned: Planned, fresh: Sample) -> Option<Sample>
        ensures { result ≡ tracked_sample planned self.now.memory fresh }
    {
        match planned.answer {
            PlanAnswer::Hold | PlanAnswer::NoVision => None,
            PlanAnswer::Keep => Some(self.memory.held.unwrap_or(fresh)),
            PlanAnswer::NewPlan(_) => Some(fresh),
        }
    }

    // `run_traj_track`, on a sample of the trajectory and the next tick's.
    #[tactic(auto, unfolding(linear::specs::Vector::zeros3))]
    fn run_traj_track(&mut self, planned: Planned, fresh: Sample, next: Sample) -> ManeuverSetpoints
        ensures { let t = followed self.old planned fresh next in (result ≡ t.setpoints) × (self.new ≡ t.context) }
    {
        let Some(sample) = self.tracked_sample(planned, fresh) else {
            return ZERO_SETPOINTS;
        };
        let setpoints = self.calc_tracking_setpoints(sample.state);
        self.memory = Memory::after_tracking(next, planned.cmd);
        setpoints
    }

    /// Setpoints that track what plan decided, then recovery. `fresh` is the sample of a new plan, and `next` the
    /// one that is held afterwards.
    #[tactic(auto, unfolding(crate::specs::Following::steered))]
    pub fn steer(
        &mut self,
        planned: Planned,
        fresh: Sample,
        next: Sample,
        wheel_vel_meas: Vector4f,
    ) -> ManeuverSetpoints
        ensures { let t = steered self.old planned fresh next wheel_vel_meas in
            (result ≡ t.setpoints) × (self.new ≡ t.context) }
    {
        let setpoints = self.run_traj_track(planned, fresh, next);
        self.update_tracking_divergence_recovery(wheel_vel_meas);
        setpoints
    }
}
