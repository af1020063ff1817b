//! The firmware's part of nalgebra: vectors, matrices by rows, rotation. Every step is rounded to f32.
#![tactic(auto)]

ghost use Rattle.std.specs.Prelude.{◌≡◌};
ghost use Rattle.linear.specs.Vector.{entries2, entries3, entries4, vector2_of, vector3_of, vector4_of, vector6_of};

/// nalgebra's vector of two.
#[derive(Clone, Copy, PartialEq)]
pub struct Vector2f {
    pub x: f32,
    pub y: f32,
}

/// nalgebra's vector of three. A pose has the heading, in radians, as z, and a twist the angular velocity, in rad/s.
#[derive(Clone, Copy, PartialEq)]
pub struct Vector3f {
    pub x: f32,
    pub y: f32,
    pub z: f32,
}

/// nalgebra's vector of four: of wheels, an entry each.
#[derive(Clone, Copy, PartialEq)]
pub struct Vector4f {
    pub x: f32,
    pub y: f32,
    pub z: f32,
    pub w: f32,
}

/// A state: x, y and heading, and their velocities.
#[derive(Clone, Copy, PartialEq)]
pub struct Vector6f {
    pub pose: Vector3f,
    pub twist: Vector3f,
}

// Zeros are constants and no derived `Default`, which is a call: other constants are made of them.

/// Two zeros.
pub const ZEROS_2: Vector2f = Vector2f { x: 0.0, y: 0.0 };

/// Three zeros.
pub const ZEROS_3: Vector3f = Vector3f {
    x: 0.0,
    y: 0.0,
    z: 0.0,
};

/// Four zeros.
pub const ZEROS_4: Vector4f = Vector4f {
    x: 0.0,
    y: 0.0,
    z: 0.0,
    w: 0.0,
};

/// Six zeros.
pub const ZEROS_6: Vector6f = Vector6f {
    pose: ZEROS_3,
    twist: ZEROS_3,
};

impl From<[f32; 2]> for Vector2f {
    ghost from_gives = { λ w v. v ≡ vector2_of w };

    #[tactic(auto, unfolding(crate::specs::Vector::vector2_of))]
    fn from(w: [f32; 2]) -> Vector2f {
        let [x, y] = w;
        Vector2f { x, y }
    }
}

impl From<Vector2f> for [f32; 2] {
    ghost from_gives = { λ v w. w ≡ entries2 v };

    fn from(v: Vector2f) -> [f32; 2] {
        [v.x, v.y]
    }
}

impl From<[f32; 3]> for Vector3f {
    ghost from_gives = { λ w v. v ≡ vector3_of w };

    #[tactic(auto, unfolding(crate::specs::Vector::vector3_of))]
    fn from(w: [f32; 3]) -> Vector3f {
        let [x, y, z] = w;
        Vector3f { x, y, z }
    }
}

impl From<Vector3f> for [f32; 3] {
    ghost from_gives = { λ v w. w ≡ entries3 v };

    fn from(v: Vector3f) -> [f32; 3] {
        [v.x, v.y, v.z]
    }
}

impl From<[f32; 4]> for Vector4f {
    ghost from_gives = { λ w v. v ≡ vector4_of w };

    #[tactic(auto, unfolding(crate::specs::Vector::vector4_of))]
    fn from(w: [f32; 4]) -> Vector4f {
        let [x, y, z, w] = w;
        Vector4f { x, y, z, w }
    }
}

impl From<Vector4f> for [f32; 4] {
    ghost from_gives = { λ v w. w ≡ entries4 v };

    fn from(v: Vector4f) -> [f32; 4] {
        [v.x, v.y, v.z, v.w]
    }
}

impl From<[f32; 6]> for Vector6f {
    ghost from_gives = { λ w v. v ≡ vector6_of w };

    #[tactic(auto, unfolding(crate::specs::Vector::vector6_of))]
    fn from(w: [f32; 6]) -> Vector6f {
        let [x, y, heading, x_vel, y_vel, heading_vel] = w;
        Vector6f {
            pose: Vector3f { x, y, z: heading },
            twist: Vector3f {
                x: x_vel,
                y: y_vel,
                z: heading_vel,
            },
        }
    }
}

pub mod laws; // laws.rt: what is proved of products and rotations
pub mod matrix; // matrix.rt: matrices by rows, and their products with a vector
pub mod rotation; // rotation.rt: a vector turned to global and to local axes
pub mod vectors; // vectors.rt: sums, multiples and dot products

pub use matrix::{Matrix, Matrix3, Matrix3x4, Matrix4x3};
