// The first half of a repeat, shift and subtract: at every place of the new box, the right side of the step
// rule at the place one step of the direction before it. docs/SPECIFICATION.md, Section 6.3.
#![tactic(auto)]

ghost use Rattle.std.specs.Prelude.{◌≡◌, ℕ, ◌+◌, ◌≤◌, length};
ghost use Rattle.sums.specs.Fill.{filled};
ghost use Rattle.spline.specs.Build.{direction};
ghost use Rattle.spline.specs.Box.{places};
ghost use Rattle.shape.specs.Shape.{widths};
ghost use Rattle.shape.specs.Inner.Boxes.{Boxed};
ghost use Rattle.fitting.specs.Fitting.{differences_fit};
ghost use Rattle.cells.specs.Coordinates.{cell_of};
ghost use Rattle.differences.specs.Pass.{index_difference, differences_of};
ghost use Rattle.differences.specs.Inner.Rows.{Growing};

mod row;
mod rows;

use cells::Cell;
use shape::Shape;

// The cell and the remainder of the next coordinate.
fn next_cell(g: usize, c: Cell) -> Cell
    requires { (g ≤ 8) × (c.base ≤ 800) }
    ensures { (n : ℕ) → c ≡ cell_of g n → result ≡ cell_of g (n + 1) }
{
    if c.u < g {
        Cell { u: c.u + 1, ..c }
    } else {
        Cell {
            base: c.base + g,
            u: 0,
        }
    }
}

// Writes the differences of all places of the new box, in index order.
fn difference_box(net: &[u32], work: &mut [i32], old: Shape, new: Shape, d: u8)
    requires { Growing old (length net.now) × Boxed new × (places (widths new) ≤ length work.old) }
    ensures { work.new
        ≡ filled (index_difference (direction d) old.m (widths old) net.now (widths new))
        (places (widths new)) work.old }
{
    let g = old.m;
    let v = shape::vector_of(d);
    let mut cz = cells::first_cell(g, v.z);
    for z in 0..new.w3 {
        let mut cy = cells::first_cell(g, v.y);
        for y in 0..new.w2 {
            row::difference_row(net, work, old, new, d, y, z, cy, cz);
            cy = next_cell(g, cy);
        }
        cz = next_cell(g, cz);
    }
}

// Writes the differences of a repeat of direction d, from the net in the box `old` to that in the box `new`.
// Answers whether all fits; where it does not, nothing is written.
pub fn shift_and_subtract(old: Shape, new: Shape, d: u8, net: &[u32], work: &mut [i32]) -> bool
    ensures answer { result
        ≡ differences_fit old new (length net.now) (length work.old) }
    ensures work { work.new
        ≡ differences_of (direction d) old new net.now work.old }
{
    let fit = fitting::differences_fit(old, new, net.len(), work.len());
    if fit {
        difference_box(net, work, old, new, d);
    }
    fit
}
