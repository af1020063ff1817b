//! Sums, multiples and dot products of vectors.

ghost use Rattle.std.specs.Prelude.{◌≡◌};
ghost use Rattle.linear.specs.Vector.{sum_of, difference_of, scaled, dot_of};

use crate::Vector3f;

/// The sum, entry by entry.
#[tactic(auto, unfolding(crate::specs::Vector::sum_of))]
pub fn add(v: Vector3f, o: Vector3f) -> Vector3f
    ensures { result ≡ sum_of v o }
{
    Vector3f {
        x: v.x + o.x,
        y: v.y + o.y,
        z: v.z + o.z,
    }
}

/// v less o, entry by entry.
#[tactic(auto, unfolding(crate::specs::Vector::difference_of))]
pub fn sub(v: Vector3f, o: Vector3f) -> Vector3f
    ensures { result ≡ difference_of v o }
{
    Vector3f {
        x: v.x - o.x,
        y: v.y - o.y,
        z: v.z - o.z,
    }
}

/// Each entry times k.
#[tactic(auto, unfolding(crate::specs::Vector::scaled))]
pub fn scale(v: Vector3f, k: f32) -> Vector3f
    ensures { result ≡ scaled v k }
{
    Vector3f {
        x: v.x * k,
        y: v.y * k,
        z: v.z * k,
    }
}

/// The products of the entries, summed from the left, the first product first.
pub fn dot<const N: usize>(v: [f32; N], o: [f32; N]) -> f32
    ensures { result ≡ dot_of v.entry o.entry }
{
    v.iter()
        .zip(o.iter())
        .map(|(x, y)| x * y)
        .reduce(|sum, product| sum + product)
        .unwrap_or(0.0)
}
