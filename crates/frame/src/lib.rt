// What a unit and a placing fix for a blending: degree, extents, widths, sizes and steps, whatever both are.
// docs/SPECIFICATION.md, Section 10.2.
#![tactic(auto)]

ghost use Rattle.std.specs.Prelude.{◌≡◌, ◌+◌, ◌-◌, ◌≤◌};
ghost use Rattle.frame.specs.Frames.{frame_of, step_on};

use axis_order::Placing;
use shape::Counts;
use tetrahedron::local;
use unit::Unit;

// What a blending goes by beside the lent slices: the degree, its number of local places and that of groups
// of four that hold them, extents, widths of the net's box, sizes of the block, the window's lowest entry,
// and the net's steps along the axes p, r, s.
#[derive(Clone, Copy)]
pub struct Frame {
    pub m: usize,
    pub count: usize,
    pub groups: usize,
    pub e1: usize,
    pub e2: usize,
    pub e3: usize,
    pub w1: usize,
    pub w2: usize,
    pub n1: usize,
    pub n2: usize,
    pub low1: usize,
    pub low2: usize,
    pub low3: usize,
    pub s1: usize,
    pub s2: usize,
    pub s3: usize,
}

// E on the axis of the multiplicity v
fn extent_of(v: u8, v4: u8) -> usize
    ensures { result ≡ v + v4 }
{
    v as usize + v4 as usize
}

// The lowest entry of a window on an axis, from its cell there and its extent; 0 where that is the larger.
fn low_on(k: u32, e: usize) -> usize
    ensures { result ≡ k + 1 - e }
{
    (k as usize + 1).saturating_sub(e)
}

// The step through the net's box along an axis.
#[tactic(auto, unfolding(crate::specs::Frames::step_on))]
fn step_on(axis: u8, w1: usize, w2: usize) -> usize
    requires { (w1 ≤ 518671) × (w2 ≤ 518671) }
    ensures { result ≡ step_on w1 w2 axis }
{
    match axis {
        1 => 1,
        2 => w1,
        _ => w1 * w2,
    }
}

pub fn framed(unit: Unit, q: Placing) -> Frame
    ensures { result ≡ frame_of unit q }
{
    let s = shape::shape_of(Counts::of_unit(unit));
    let m = s.m;
    let w1 = s.w1;
    let w2 = s.w2;
    let e1 = extent_of(unit.v1, unit.v4);
    let e2 = extent_of(unit.v2, unit.v4);
    let e3 = extent_of(unit.v3, unit.v4);
    let count = local::local_places(m);
    Frame {
        m,
        count,
        groups: (count + 3) / 4,
        e1,
        e2,
        e3,
        w1,
        w2,
        n1: unit.n1 as usize,
        n2: unit.n2 as usize,
        low1: low_on(q.k1, e1),
        low2: low_on(q.k2, e2),
        low3: low_on(q.k3, e3),
        s1: step_on(q.p, w1, w2),
        s2: step_on(q.r, w1, w2),
        s3: step_on(q.s, w1, w2),
    }
}
