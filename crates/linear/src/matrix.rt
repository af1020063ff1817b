//! Matrices by rows, and their products with a vector: each row's products summed from the left,
//! starting with the first one, zeros included (docs/RULES.md, 'Products').
ghost use Rattle.std.specs.Prelude.{◌≡◌};
ghost use Rattle.linear.specs.Matrix.{product_of};

use crate::vectors::dot;

/// R rows of C entries.
#[derive(Clone, Copy)]
pub struct Matrix<const R: usize, const C: usize> {
    pub rows: [[f32; C]; R],
}

/// Three rows of three.
pub type Matrix3 = Matrix<3, 3>;

/// Three rows of four.
pub type Matrix3x4 = Matrix<3, 4>;

/// Four rows of three.
pub type Matrix4x3 = Matrix<4, 3>;

impl<const R: usize, const C: usize> Matrix<R, C> {
    /// The product with a column vector.
    pub fn mul(self, v: [f32; C]) -> [f32; R]
        ensures { result ≡ product_of self.entry v.entry }
    {
        // By the index: `from_fn` takes twice as long, and nothing says what a zip over `iter_mut` has written.
        let mut product = [0.0; R];
        for (i, x) in product.iter_mut().enumerate() {
            *x = dot(self.rows[i], v);
        }
        product
    }
}
