//! `FirstOrderLag` of lib-stm32's model/mod.rs over two axes, and the one of the encoders.
mod axis; // axis.rt: the lag on one axis
pub mod encoder; // encoder.rt: the encoder lag of a tick length

ghost use Rattle.std.specs.Prelude.{◌≡◌, [], ◌∷◌};
ghost use Rattle.controllers.specs.FirstOrderLag.{axis, x_axis, y_axis, reset_of, stepped_of, inverted_of};

use crate::first_order_lag::axis::Axis;
use linear::{Vector2f, ZEROS_2};

// What identifies the lag, by axis.
#[derive(Clone, Copy)]
struct FirstOrderLagParams {
    // The gain at rest.
    k: Vector2f,
    // How much the time constant grows with the input's size, in s/(m/s).
    t_slope: Vector2f,
}

/// A first-order lag of two axes, each with a gain, a slope and a state of its own. It is made by
/// `encoder::new_from_horizon` alone.
#[derive(Clone, Copy)]
pub struct FirstOrderLag {
    params: FirstOrderLagParams,
    t_min: f32,
    dt: f32,
    n_steps: usize,
    state: Vector2f,
}

impl FirstOrderLag {
    /// The modelled output.
    pub fn state(&self) -> Vector2f
        ensures { result ≡ self.now.state }
    {
        self.state
    }

    /// The least time constant, in s.
    pub fn t_min(&self) -> f32
        ensures { result ≡ self.now.t_min }
    {
        self.t_min
    }

    /// One timestep, in s.
    pub fn dt(&self) -> f32
        ensures { result ≡ self.now.dt }
    {
        self.dt
    }

    /// How many turns `invert` makes.
    pub fn n_steps(&self) -> usize
        ensures { result ≡ self.now.n_steps }
    {
        self.n_steps
    }

    /// Back to rest.
    #[tactic(auto, unfolding(crate::specs::FirstOrderLag::reset_of, linear::specs::Vector::zeros2))]
    pub fn reset(&mut self)
        ensures { self.new ≡ reset_of self.old }
    {
        self.state = ZEROS_2;
    }

    // The axis with this gain, slope and state; the rest is every axis's.
    #[tactic(auto, unfolding(crate::specs::FirstOrderLag::axis))]
    fn axis(self, k: f32, t_slope: f32, state: f32) -> Axis
        ensures { result ≡ axis self k t_slope state }
    {
        Axis {
            k,
            t_slope,
            t_min: self.t_min,
            dt: self.dt,
            n_steps: self.n_steps,
            state,
        }
    }

    // x and y.
    fn axes(self) -> [Axis; 2]
        ensures { result ≡ x_axis self ∷ y_axis self ∷ [] }
    {
        let p = self.params;
        [
            self.axis(p.k.x, p.t_slope.x, self.state.x),
            self.axis(p.k.y, p.t_slope.y, self.state.y),
        ]
    }

    /// One timestep at an input.
    #[tactic(auto, unfolding(crate::specs::FirstOrderLag::stepped_of))]
    pub fn step(&mut self, input: Vector2f)
        ensures { self.new ≡ stepped_of self.old input }
    {
        let [x, y] = self.axes();
        self.state = Vector2f {
            x: x.step(input.x),
            y: y.step(input.y),
        };
    }

    /// The input that is to bring the state to `desired`.
    #[tactic(auto, unfolding(crate::specs::FirstOrderLag::inverted_of))]
    pub fn invert(&self, desired: Vector2f) -> Vector2f
        ensures { result ≡ inverted_of self.now desired }
    {
        let [x, y] = self.axes();
        Vector2f {
            x: x.invert(desired.x),
            y: y.invert(desired.y),
        }
    }
}
