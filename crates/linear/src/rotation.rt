//! Rotation about the vertical, by a given cosine and sine.
ghost use Rattle.std.specs.Prelude.{◌≡◌};
ghost use Rattle.linear.specs.Rotation.{z_rotation, to_global, to_local};

use crate::{Matrix3, Vector3f};

/// By the angle with this cosine and sine.
#[derive(Clone, Copy)]
pub struct Rotation {
    pub cos: f32,
    pub sin: f32,
}

impl Rotation {
    #[tactic(auto, unfolding(crate::specs::Rotation::z_rotation))]
    fn z_rotation_mat(self) -> Matrix3
        ensures { result ≡ z_rotation self }
    {
        let c = self.cos;
        let s = self.sin;
        Matrix3 {
            rows: [[c, -s, 0.0], [s, c, 0.0], [0.0, 0.0, 1.0]],
        }
    }

    /// v turned from local axes to global ones.
    #[tactic(auto, unfolding(crate::specs::Rotation::to_global))]
    pub fn to_global(self, v: Vector3f) -> Vector3f
        ensures { result ≡ to_global self v }
    {
        Vector3f::from(self.z_rotation_mat().mul(v.into()))
    }

    /// v turned from global axes to local ones: by the opposite angle, whose sine is -sin.
    #[tactic(auto, unfolding(crate::specs::Rotation::to_local))]
    pub fn to_local(self, v: Vector3f) -> Vector3f
        ensures { result ≡ to_local self v }
    {
        let opposite = Rotation {
            sin: -self.sin,
            ..self
        };
        opposite.to_global(v)
    }
}
