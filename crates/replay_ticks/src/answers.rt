//! The words of the four answers, which are zeros before.
use crate::put::{put, put_two};
use body_controller::finish::Finished;
use body_controller::sight::{Measurement, Sighted};
use control_context::maneuvers::PlanAnswer;
use ieee754::bits::to_bits;
use linear::Vector3f;
use tick::outputs::Outputs;

fn put_measurement(words: &mut [u32; 96], m: Measurement) {
    put::<3>(words, 3, m.vision_pose.into());
    put::<4>(words, 6, m.wheel_vel.into());
    words[10] = to_bits(m.gyro_theta);
}

pub(crate) fn put_sight(words: &mut [u32; 96], s: Sighted) {
    words[1] = s.action as u32;
    put_measurement(words, s.measurement);
    words[11] = s.effective_vision_update as u32;
    put_two(words, 12, s.state_prediction.pose, s.state_prediction.twist);
}

pub(crate) fn put_plan(words: &mut [u32; 96], planned: PlanAnswer) {
    match planned {
        PlanAnswer::Hold => {}
        PlanAnswer::NoVision => words[18] = 1,
        PlanAnswer::Keep => words[18] = 2,
        PlanAnswer::NewPlan(seed) => {
            words[18] = 3;
            put_two(words, 19, seed.pose, seed.twist);
        }
    }
}

pub(crate) fn put_steer(words: &mut [u32; 96], friction_twist: Vector3f) {
    put::<3>(words, 25, friction_twist.into());
}

pub(crate) fn put_outputs(words: &mut [u32; 96], o: Outputs) {
    put_two(words, 28, o.body_twist_out, o.body_accel_out);
    put::<3>(words, 34, o.body_accel_out_fric_comp.into());
    put::<4>(words, 37, o.wheel_vel_out.into());
    put::<4>(words, 41, o.wheel_torque_out.into());
}

pub(crate) fn put_finish(words: &mut [u32; 96], f: Finished) {
    put_outputs(words, f.outputs);
    words[45] = f.vel_clamped as u32;
    words[46] = f.accel_clamped as u32;
    words[47] = f.wheels_disabled as u32;
}
