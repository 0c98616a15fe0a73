// The sums of one row.
ghost use Rattle.std.specs.Prelude.{◌≡◌, ◌+◌, ◌*◌, ◌≤◌, ◌<◌, length, get_or, set, pos, ◌+ℤ◌};
ghost use Rattle.sums.specs.Fill.{filled};
ghost use Rattle.sums.specs.Word.{word};
ghost use Rattle.spline.specs.Build.{direction};
ghost use Rattle.spline.specs.Box.{places};
ghost use Rattle.shape.specs.Shape.{widths};
ghost use Rattle.shape.specs.Inner.Boxes.{Boxed};
ghost use Rattle.summations.specs.Pass.{line_number};
ghost use Rattle.summations.specs.Inner.Rows.{RowSums, none, places_back};

use shape::Shape;

// Writes the number at i, the sum of n and of the entry there, and answers it.
fn put(net: &mut [u32], work: &[i32], i: usize, n: u32) -> u32
    requires { (i < length net.old) × (i < length work.now) }
    ensures value { result ≡ word (pos n +ℤ get_or work.now i (pos 0)) }
    ensures net_after { net.new ≡ set net.old i result }
{
    let t = words::plus(n, work[i]);
    net[i] = t;
    t
}

// Places from which one step back of the direction leaves the box: the entries themselves.
fn sum_edge(net: &mut [u32], work: &[i32], a: usize, e: usize)
    requires { (a ≤ e) × (e ≤ length net.old) × (e ≤ length work.now) }
    ensures { (r : RowSums none a e work.now net.old)
        → net.new ≡ filled r.number e net.old }
{
    for i in a..e {
        put(net, work, i, 0);
    }
}

// Places whose lines run along the row: each number is the one before it and the entry.
fn sum_along(net: &mut [u32], work: &[i32], a: usize, e: usize)
    requires { (1 ≤ a) × (a ≤ e) × (e ≤ length net.old) × (e ≤ length work.now) }
    ensures { (r : RowSums (places_back 1) a e work.now net.old)
        → net.new ≡ filled r.number e net.old }
{
    let mut t = net[a - 1];
    for i in a..e {
        t = put(net, work, i, t);
    }
}

// Places whose lines come from a row before: each number is the one `back` places before it and the entry.
fn sum_back(net: &mut [u32], work: &[i32], a: usize, e: usize, back: usize)
    requires { (1 ≤ back) × (a < e → back ≤ a) × (a ≤ e)
        × (e ≤ length net.old) × (e ≤ length work.now) }
    ensures { (r : RowSums (places_back back) a e work.now net.old)
        → net.new ≡ filled r.number e net.old }
{
    for i in a..e {
        let n = net[i - back];
        put(net, work, i, n);
    }
}

// Sums the row (y, z), where those before it are summed.
pub(crate) fn sum_row(net: &mut [u32], work: &[i32], s: Shape, d: u8, y: usize, z: usize)
    requires boxed { Boxed s × (y < s.w2) × (z < s.w3) }
    requires s_in_bounds { (places (widths s) ≤ length net.old) × (places (widths s) ≤ length work.now) }
    requires net_value { net.old
        ≡ filled (line_number (direction d) (widths s) work.now) (s.w1 * (y + s.w2 * z)) net.old }
    ensures { net.new ≡ filled (line_number (direction d) (widths s) work.now)
        (s.w1 * (y + 1 + s.w2 * z)) net.old }
{
    let v = shape::vector_of(d);
    let w1 = s.w1;
    let w2 = s.w2;
    let a = w1 * (y + w2 * z);
    let b = a + edges::edge_width(v, w1, y, z);
    let e = a + w1;
    sum_edge(net, work, a, b);
    if d == 1 {
        sum_along(net, work, b, e);
        return;
    }
    sum_back(net, work, b, e, v.x + w1 * (v.y + w2 * v.z));
}
