// The second half of a repeat, integration: the differences are summed along each line of the direction, from
// the box's edge, into the net slice. docs/SPECIFICATION.md, Section 6.3.
#![tactic(auto)]

ghost use Rattle.std.specs.Prelude.{◌≡◌, ◌≤◌, length};
ghost use Rattle.sums.specs.Fill.{filled};
ghost use Rattle.spline.specs.Build.{direction};
ghost use Rattle.spline.specs.Box.{places};
ghost use Rattle.shape.specs.Shape.{widths};
ghost use Rattle.shape.specs.Inner.Boxes.{Boxed};
ghost use Rattle.fitting.specs.Fitting.{sums_fit};
ghost use Rattle.summations.specs.Pass.{line_number, sums_of};

mod row;

use shape::Shape;

// Sums the first places of the work slice into those of the net slice, in index order.
fn sum_box(net: &mut [u32], work: &[i32], s: Shape, d: u8)
    requires { Boxed s
        × (places (widths s) ≤ length net.old) × (places (widths s) ≤ length work.now) }
    ensures { net.new ≡ filled (line_number (direction d) (widths s) work.now)
        (places (widths s)) net.old }
{
    for z in 0..s.w3 {
        for y in 0..s.w2 {
            row::sum_row(net, work, s, d, y, z);
        }
    }
}

// Sums the entries of the work slice along the lines of direction d in a box. Answers whether all fits;
// where it does not, nothing is written.
pub fn integrate(s: Shape, d: u8, net: &mut [u32], work: &[i32]) -> bool
    ensures answer { result ≡ sums_fit s (length net.old) (length work.now) }
    ensures net { net.new
        ≡ sums_of (direction d) s net.old work.now }
{
    let fit = fitting::sums_fit(s, net.len(), work.len());
    if fit {
        sum_box(net, work, s, d);
    }
    fit
}
