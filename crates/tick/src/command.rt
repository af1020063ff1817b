//! Commands, and the words that they are read from (docs/RULES.md, 'Commands and modes').
ghost use Rattle.std.specs.Prelude.{◌≡◌};
ghost use Rattle.tick.specs.Refusal.{number_of};
ghost use Rattle.tick.specs.Command.{position_from, line_from, command_from, refusal_of};

use crate::refusal::Refusal;
use linear::Vector3f;

/// Drive to a pose. Speeds are in m/s and rad/s, accelerations in m/s² and rad/s².
#[derive(Clone, Copy)]
pub struct GlobalPosition {
    pub target_pose: Vector3f,
    pub max_linear_vel: f32,
    pub max_angular_vel: f32,
    pub max_linear_acc: f32,
    pub max_angular_acc: f32,
}

/// Follow a line at a heading. Angles are in rad, lengths in m; "colinear" is along the line, "perp" across it.
#[derive(Clone, Copy)]
pub struct HeadingLine {
    pub global_theta: f32,
    pub start_x: f32,
    pub start_y: f32,
    pub dir_x: f32,
    pub dir_y: f32,
    pub line_velocity: f32,
    pub max_vel_colinear: f32,
    pub max_vel_perp: f32,
    pub max_vel_angular: f32,
    pub max_accel_colinear: f32,
    pub max_accel_perp: f32,
    pub max_accel_angular: f32,
    pub colinear_start_thresh: f32,
}

/// What the robot is to do.
#[derive(Clone, Copy)]
pub enum ManeuverCommand {
    Off,
    Brake,
    GlobalPosition(GlobalPosition),
    HeadingLine(HeadingLine),
}

/// A block's command words, 24 to 36, as floats.
pub type CommandWords = [f32; 13];

impl From<CommandWords> for GlobalPosition {
    #[tactic(auto, unfolding(crate::specs::Command::position_from))]
    fn from(w: CommandWords) -> GlobalPosition
        ensures { result ≡ position_from w }
    {
        GlobalPosition {
            target_pose: Vector3f {
                x: w[0],
                y: w[1],
                z: w[2],
            },
            max_linear_vel: w[3],
            max_angular_vel: w[4],
            max_linear_acc: w[5],
            max_angular_acc: w[6],
        }
    }
}

impl From<CommandWords> for HeadingLine {
    #[tactic(auto, unfolding(crate::specs::Command::line_from))]
    fn from(w: CommandWords) -> HeadingLine
        ensures { result ≡ line_from w }
    {
        HeadingLine {
            global_theta: w[0],
            start_x: w[1],
            start_y: w[2],
            dir_x: w[3],
            dir_y: w[4],
            line_velocity: w[5],
            max_vel_colinear: w[6],
            max_vel_perp: w[7],
            max_vel_angular: w[8],
            max_accel_colinear: w[9],
            max_accel_perp: w[10],
            max_accel_angular: w[11],
            colinear_start_thresh: w[12],
        }
    }
}

impl ManeuverCommand {
    /// The command of a mode number, or `Refusal::Mode` where it is none. Words that its mode does not use are not
    /// read.
    #[tactic(auto, unfolding(crate::specs::Command::command_from))]
    pub fn from_words(mode: u32, w: CommandWords) -> Result<ManeuverCommand, Refusal>
        ensures { (result ≡ command_from mode w) × (number_of result ≡ refusal_of mode) }
    {
        match mode {
            0 => Ok(ManeuverCommand::Off),
            1 => Ok(ManeuverCommand::Brake),
            2 => Ok(ManeuverCommand::GlobalPosition(GlobalPosition::from(w))),
            3 => Ok(ManeuverCommand::HeadingLine(HeadingLine::from(w))),
            _ => Err(Refusal::Mode),
        }
    }
}
