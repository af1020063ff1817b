//! `FirstOrderLag` of lib-stm32's model/mod.rs on one axis.

ghost use Rattle.std.specs.Prelude.{◌≡◌};
ghost use Rattle.controllers.specs.LagAxis.{one_over_t, axis_step, axis_invert, lag_turn, iterated};

use ieee754::bits::abs;

// An axis has a gain, a slope and a state of its own; the rest is every axis's.
#[derive(Clone, Copy)]
pub(crate) struct Axis {
    pub(crate) k: f32,
    pub(crate) t_slope: f32,
    pub(crate) t_min: f32,
    pub(crate) dt: f32,
    pub(crate) n_steps: usize,
    pub(crate) state: f32,
}

// The loop of `invert`: n times cmd = one_minus_a * cmd + target.
#[tactic(auto, unfolding(crate::specs::LagAxis::iterated))]
fn iterate(n: usize, one_minus_a: f32, target: f32, desired: f32) -> f32
    ensures { result ≡ iterated n (lag_turn one_minus_a target) desired }
{
    let mut cmd = desired;
    for _ in 0..n {
        cmd = one_minus_a * cmd + target;
    }
    cmd
}

impl Axis {
    // 1 / T_eff at an input.
    #[tactic(auto, unfolding(crate::specs::LagAxis::one_over_t))]
    fn one_over_t(self, input: f32) -> f32
        ensures { result ≡ one_over_t self input }
    {
        let t_eff = self.t_slope * abs(input) + self.t_min;
        1.0 / t_eff
    }

    // The state after one timestep at an input.
    #[tactic(auto, unfolding(crate::specs::LagAxis::axis_step))]
    pub(crate) fn step(self, input: f32) -> f32
        ensures { result ≡ axis_step self input }
    {
        let one_over_t = self.one_over_t(input);
        self.state + one_over_t * self.dt * (self.k * input - self.state)
    }

    // The input that is to bring the state to `desired`.
    #[tactic(auto, unfolding(crate::specs::LagAxis::axis_invert))]
    pub(crate) fn invert(self, desired: f32) -> f32
        ensures { result ≡ axis_invert self desired }
    {
        let one_over_t = self.one_over_t(desired);
        let a = self.dt * self.k * one_over_t;
        let target = desired - self.state * (1.0 - self.dt * one_over_t);
        iterate(self.n_steps, 1.0 - a, target, desired)
    }
}
