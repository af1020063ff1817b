//! `PidController` of pid.rs over any number of axes: what is chosen, apart from what is remembered.

ghost use Rattle.std.specs.Prelude.{◌≡◌};
ghost use Rattle.controllers.specs.Axis.{anti_jitter, limited, one_calculated, one_with_derivative};
ghost use Rattle.controllers.specs.PidAxes.{new_memory, calculated, calculated_with_derivative};

use ieee754::bits::abs;
use ieee754::clamp::clamp;
use params::PidGains;

/// What is chosen for one axis. A controller of N axes has N of them.
#[derive(Clone, Copy)]
pub struct PidSettings {
    pub gain: PidGains,
    /// The error below which the output is scaled toward zero, if there is one.
    pub anti_jitter_thresh: Option<f32>,
    /// The limits of the output, the lower one first, if there are any.
    pub output_limits: Option<(f32, f32)>,
}

impl PidSettings {
    // Below the threshold the output shrinks with the error.
    #[tactic(auto, unfolding(crate::specs::Axis::anti_jitter))]
    fn apply_anti_jitter(&self, output: f32, error: f32) -> f32
        ensures { result ≡ anti_jitter self.now.anti_jitter_thresh output error }
    {
        let size = abs(error);
        match self.anti_jitter_thresh {
            Some(thresh) if (thresh > 0.0) & (size < thresh) => output * size / thresh,
            _ => output,
        }
    }

    #[tactic(auto, unfolding(crate::specs::Axis::limited))]
    fn apply_output_limits(&self, output: f32) -> f32
        ensures { result ≡ limited self.now.output_limits output }
    {
        match self.output_limits {
            None => output,
            Some((min, max)) => clamp(output, min, max),
        }
    }
}

/// What one axis remembers between calls.
#[derive(Clone, Copy)]
pub struct AxisMemory {
    pub prev_error: f32,
    pub integrated_error: f32,
}

impl AxisMemory {
    #[tactic(auto, unfolding(crate::specs::Axis::one_calculated, crate::specs::Axis::one_with_derivative))]
    fn calculate(
        &mut self,
        settings: &PidSettings,
        setpoint: f32,
        process_variable: f32,
        dt_s: f32,
    ) -> f32
        ensures { let a = one_calculated settings.now self.old setpoint process_variable dt_s in
            (result ≡ a.output) × (self.new ≡ a.memory) }
    {
        let de_dt = (setpoint - process_variable - self.prev_error) / dt_s;
        self.calculate_with_derivative(settings, setpoint, process_variable, de_dt, dt_s)
    }

    #[tactic(auto, unfolding(crate::specs::Axis::one_with_derivative, crate::specs::Axis::response))]
    fn calculate_with_derivative(
        &mut self,
        settings: &PidSettings,
        setpoint: f32,
        process_variable: f32,
        derivative: f32,
        dt_s: f32,
    ) -> f32
        ensures { let a = one_with_derivative settings.now self.old setpoint process_variable derivative dt_s in
            (result ≡ a.output) × (self.new ≡ a.memory) }
    {
        let gain = settings.gain;
        let error = setpoint - process_variable;
        let sum = self.integrated_error + error * dt_s;
        self.integrated_error = clamp(sum, gain.ki_err_min, gain.ki_err_max);
        self.prev_error = error;
        let pid = gain.kp * error + gain.ki * self.integrated_error + gain.kd * derivative;
        settings.apply_output_limits(settings.apply_anti_jitter(pid, error))
    }
}

/// What the axes of a controller remember between calls.
#[derive(Clone, Copy)]
pub struct PidMemory<const N: usize> {
    pub axes: [AxisMemory; N],
}

impl<const N: usize> PidMemory<N> {
    /// Nothing remembered: every error is zero.
    #[tactic(auto, unfolding(crate::specs::Axis::no_memory, crate::specs::PidAxes::new_memory))]
    pub fn new() -> PidMemory<N>
        ensures { result ≡ new_memory }
    {
        let nothing = AxisMemory {
            prev_error: 0.0,
            integrated_error: 0.0,
        };
        PidMemory { axes: [nothing; N] }
    }

    /// Forgets the errors.
    pub fn reset(&mut self)
        ensures { self.new ≡ new_memory }
    {
        *self = PidMemory::new();
    }

    /// The outputs that are to bring the process variables to the setpoints, dt_s seconds after the
    /// previous call. The derivative is the error's difference from the previous error, over dt_s.
    pub fn calculate(
        &mut self,
        settings: &[PidSettings; N],
        setpoint: [f32; N],
        process_variable: [f32; N],
        dt_s: f32,
    ) -> [f32; N]
        ensures { let a = calculated settings.now self.old setpoint.entry process_variable.entry dt_s in
            (result ≡ a.output) × (self.new ≡ a.memory) }
    {
        let mut output = [0.0; N];
        for i in 0..N {
            let mut axis = self.axes[i];
            output[i] = axis.calculate(&settings[i], setpoint[i], process_variable[i], dt_s);
            self.axes[i] = axis;
        }
        output
    }

    /// Like `calculate`, with the errors' derivatives given from outside.
    pub fn calculate_with_derivative(
        &mut self,
        settings: &[PidSettings; N],
        setpoint: [f32; N],
        process_variable: [f32; N],
        derivative: [f32; N],
        dt_s: f32,
    ) -> [f32; N]
        ensures { let a = calculated_with_derivative settings.now self.old setpoint.entry
            process_variable.entry derivative.entry dt_s in
            (result ≡ a.output) × (self.new ≡ a.memory) }
    {
        let mut output = [0.0; N];
        for i in 0..N {
            let mut axis = self.axes[i];
            let out = axis.calculate_with_derivative(
                &settings[i],
                setpoint[i],
                process_variable[i],
                derivative[i],
                dt_s,
            );
            output[i] = out;
            self.axes[i] = axis;
        }
        output
    }
}
