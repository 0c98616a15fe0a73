// Rows of a net slice, by the place where they end.
ghost use Rattle.std.specs.Prelude.{◌≡◌, ◌≤◌, length, ℤ, pos};
ghost use Rattle.std.proofs.Math.IntN.{sub_ℕ};
ghost use Rattle.spline.specs.Place.{place};
ghost use Rattle.spline.specs.Box.{spread, places};
ghost use Rattle.shape.specs.Shape.{widths};
ghost use Rattle.shape.specs.Inner.Boxes.{Boxed};
ghost use Rattle.differences.specs.Inner.Rows.{row_end, IsRowEnd};

use shape::Shape;

// Where the row (y, z) ends; 0 outside the box.
pub(crate) fn end_of(s: Shape, y: usize, z: usize) -> usize
    requires { Boxed s }
    ensures { result ≡ row_end (widths s) (pos y) (pos z) }
{
    let w1 = s.w1;
    let w2 = s.w2;
    if w2 <= y {
        return 0;
    }
    if s.w3 <= z {
        return 0;
    }
    w1 * (y + w2 * z) + w1
}

// Where the row (y − b, z − c) ends; 0 outside the box.
pub(crate) fn end_back(s: Shape, y: usize, z: usize, b: usize, c: usize) -> usize
    requires { Boxed s }
    ensures { result ≡ row_end (widths s) (sub_ℕ y b) (sub_ℕ z c) }
{
    if y < b {
        return 0;
    }
    if z < c {
        return 0;
    }
    end_of(s, y - b, z - c)
}

// The number at x of the row that ends at e, or 0 outside the box.
pub(crate) fn read(net: &[u32], s: Shape, e: usize, x: usize) -> u32
    requires { Boxed s × (places (widths s) ≤ length net.now) × IsRowEnd (widths s) e }
    ensures { (y z : ℤ) → e ≡ row_end (widths s) y z
        → result ≡ spread (widths s) net.now (place (pos x) y z) }
{
    if e == 0 {
        return 0;
    }
    let w1 = s.w1;
    if w1 <= x {
        return 0;
    }
    net[e - w1 + x]
}

// The number at x − t of that row, or 0 outside the box.
pub(crate) fn read_back(net: &[u32], s: Shape, e: usize, x: usize, t: usize) -> u32
    requires { Boxed s × (places (widths s) ≤ length net.now) × IsRowEnd (widths s) e }
    ensures { (y z : ℤ) → e ≡ row_end (widths s) y z
        → result ≡ spread (widths s) net.now (place (sub_ℕ x t) y z) }
{
    if x < t {
        return 0;
    }
    read(net, s, e, x - t)
}
