//! What a run drives.
ghost use Rattle.std.specs.Prelude.{◌≡◌};
ghost use Rattle.replay_lists.specs.Subject.{subject_of, stepped};

use crate::runs::lag::lag_at;
use crate::runs::layout::ListOf;
use crate::runs::pids::Pid;
use crate::runs::{brake, lag};
use controllers::active_brake::ActiveBrakeController;
use controllers::first_order_lag::FirstOrderLag;
use tick_block::words::word_at;

#[derive(Clone, Copy)]
pub(crate) enum Subject {
    Pid1(Pid<1>),
    Pid3(Pid<3>),
    Pid4(Pid<4>),
    Brake(ActiveBrakeController),
    Lag(FirstOrderLag),
}

impl Subject {
    // What a run's header describes; none where it makes no brake or lag.
    #[tactic(auto, unfolding(crate::specs::Subject::subject_of))]
    pub(crate) fn of(list: ListOf, header: &[u8]) -> Option<Subject>
        ensures { result ≡ subject_of list header.now }
    {
        match list {
            ListOf::Pid1 => Some(Subject::Pid1(Pid::of(header))),
            ListOf::Pid3 => Some(Subject::Pid3(Pid::of(header))),
            ListOf::Pid4 => Some(Subject::Pid4(Pid::of(header))),
            ListOf::Brake => ActiveBrakeController::new(word_at(header, 0))
                .ok()
                .map(Subject::Brake),
            ListOf::Lag => lag_at(header).map(Subject::Lag),
        }
    }

    // The words after a call.
    #[tactic(auto, unfolding(crate::specs::Subject::stepped))]
    pub(crate) fn step(&mut self, call: &[u8]) -> [u32; 12]
        ensures { let told = stepped self.old call.now in (result ≡ told.words) × (self.new ≡ told.controller) }
    {
        match self {
            Subject::Pid1(pid) => pid.step(call),
            Subject::Pid3(pid) => pid.step(call),
            Subject::Pid4(pid) => pid.step(call),
            Subject::Brake(brake) => brake::step(brake, call),
            Subject::Lag(lag) => lag::step(lag, call),
        }
    }
}
