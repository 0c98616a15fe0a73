// The differences of one row.
ghost use Rattle.std.specs.Prelude.{◌≡◌, ℕ, ◌+◌, ◌*◌, ◌≤◌, ◌<◌, length, ℤ};
ghost use Rattle.sums.specs.Fill.{filled};
ghost use Rattle.spline.specs.Build.{direction};
ghost use Rattle.spline.specs.Place.{a2, a3};
ghost use Rattle.spline.specs.Box.{places};
ghost use Rattle.shape.specs.Shape.{widths};
ghost use Rattle.shape.specs.Direction.{component};
ghost use Rattle.shape.specs.Inner.Boxes.{Boxed};
ghost use Rattle.cells.specs.Coordinates.{cell_of, near_coordinate};
ghost use Rattle.differences.specs.Pass.{index_difference};
ghost use Rattle.differences.specs.Inner.Rows.{row_end, low_in, step_difference, row_difference};
ghost use Rattle.differences.specs.Inner.Rows.{along_difference, Column, FillsOn, Growing, IsRowEnd};
ghost use Rattle.differences.specs.Inner.Rows.{SmallCell};

use crate::rows;
use cells::Cell;
use shape::{Shape, Vector};

// The places from i on of a row whose lines come from other rows: (b, c) is its lowered row, t the step
// to the other number. The lowered coordinate a stays once in each cell, past the pivot p, r places on.
fn difference_across(
    net: &[u32],
    work: &mut [i32],
    old: Shape,
    i: usize,
    w1: usize,
    t: Vector,
    p: usize,
    b: usize,
    c: usize,
)
    requires growing { Growing old (length net.now) }
    requires w1_in_bounds { (i + w1 ≤ length work.old) × (t.x ≤ p) × (p ≤ old.m) }
    ensures { (f : ℕ → ℤ)
        → ((x : ℕ) → x < w1
        → f (i + x) ≡ step_difference (widths old) net.now t
        (near_coordinate old.m p t.x x) b c)
        → FillsOn f i (i + w1) work.old work.new }
{
    let g = old.m;
    let near = rows::end_of(old, b, c);
    let far = rows::end_back(old, b, c, t.y, t.z);
    let mut r = p - t.x;
    let mut a = 0;
    for x in 0..w1 {
        work[i + x] = words::minus(
            rows::read(net, old, near, a),
            rows::read_back(net, old, far, a, t.x),
        );
        if r == 0 {
            r = g;
        } else {
            r -= 1;
            a += 1;
        }
    }
}

// Where the lowered row of the remainder u on the first axis ends, from the cells of y and z.
fn lowered_end(s: Shape, y: Cell, z: Cell, u: usize) -> usize
    requires { Boxed s × SmallCell y × SmallCell z }
    ensures { result ≡ row_end (widths s) (low_in u y) (low_in u z) }
{
    rows::end_of(
        s,
        y.base + cells::lower(u, y.u),
        z.base + cells::lower(u, z.u),
    )
}

// Every (g + 1)th index from b on, up to e: all of them read the row that ends at r, the first at a, each
// other g places on. So what is near at one of them is far at the next, and is read once.
fn difference_column(
    net: &[u32],
    work: &mut [i32],
    old: Shape,
    r: usize,
    a: usize,
    b: usize,
    e: usize,
)
    requires growing { Growing old (length net.now) × IsRowEnd (widths old) r }
    requires a_bound { (a ≤ 8) × (e ≤ length work.old) }
    ensures { (y z : ℤ) → r ≡ row_end (widths old) y z
        → Column old.m (λ k. row_difference old.m (widths old) net.now y z (a + old.m * k))
        b e e work.old work.new }
{
    let g = old.m;
    let mut far = rows::read_back(net, old, r, a, g);
    let mut x = a;
    let mut i = b;
    while i < e {
        let near = rows::read(net, old, r, x);
        work[i] = words::minus(near, far);
        far = near;
        x += g;
        i += g + 1;
    }
}

// The places from i on of a row of direction 1, whose lines run along it. The pivot is the remainder u of
// each place itself, so places of one remainder read one row. The first of them is x, at the lowered
// coordinate a.
fn difference_along(
    net: &[u32],
    work: &mut [i32],
    old: Shape,
    i: usize,
    w1: usize,
    y: Cell,
    z: Cell,
)
    requires growing { Growing old (length net.now) }
    requires w1_in_bounds { (i + w1 ≤ length work.old) × SmallCell y × SmallCell z }
    ensures { (f : ℕ → ℤ)
        → ((x : ℕ) → x < w1 → f (i + x) ≡ along_difference old.m (widths old) net.now y z x)
        → FillsOn f i (i + w1) work.old work.new }
{
    let g = old.m;
    let mut u = g;
    let mut a = 0;
    for x in 0..=g {
        let r = lowered_end(old, y, z, u);
        difference_column(net, work, old, r, a, i + x, i + w1);
        u = x;
        a = x;
    }
}

// Writes the differences of the row (y, z), where those before it are written.
pub(crate) fn difference_row(
    net: &[u32],
    work: &mut [i32],
    old: Shape,
    new: Shape,
    d: u8,
    y: usize,
    z: usize,
    cy: Cell,
    cz: Cell,
)
    requires growing { Growing old (length net.now) × Boxed new × (places (widths new) ≤ length work.old) }
    requires y_lt_w2 { (y < new.w2) × (z < new.w3) }
    requires cy_value { (cy ≡ cell_of old.m (y + old.m * component (direction d) a2))
        × (cz ≡ cell_of old.m (z + old.m * component (direction d) a3)) }
    requires work_value { work.old
        ≡ filled (index_difference (direction d) old.m (widths old) net.now (widths new))
        (new.w1 * (y + new.w2 * z)) work.old }
    ensures { work.new
        ≡ filled (index_difference (direction d) old.m (widths old) net.now (widths new))
        (new.w1 * (y + 1 + new.w2 * z)) work.old }
{
    let w1 = new.w1;
    let w2 = new.w2;
    let i = w1 * (y + w2 * z);
    if d == 1 {
        difference_along(net, work, old, i, w1, cy, cz);
        return;
    }
    let g = old.m;
    let v = shape::vector_of(d);
    let t = Vector {
        x: g * v.x,
        y: g * v.y,
        z: g * v.z,
    };
    let p = cells::pivot(d, cy.u, cz.u, g);
    let b = cy.base + cells::lower(p, cy.u) - t.y;
    let c = cz.base + cells::lower(p, cz.u) - t.z;
    difference_across(net, work, old, i, w1, t, p, b, c);
}
