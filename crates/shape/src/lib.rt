// What multiplicities fix: the degree of a net and the box that it fills, for any four of them. What sizes
// fix: the number of a block's entries. What directions are: their vectors. docs/SPECIFICATION.md, Section 2.
#![tactic(auto)]

ghost use Rattle.std.specs.Prelude.{◌≡◌, ◌+◌, ◌*◌, ◌≤◌};
ghost use Rattle.spline.specs.Multiplicities.{degree};
ghost use Rattle.spline.specs.Box.{places, width};
ghost use Rattle.unit.specs.Unit.{net_of};
ghost use Rattle.spline.specs.Build.{direction};
ghost use Rattle.shape.specs.Shape.{boxed, counted, held_in, shape_of, side_allowed};
ghost use Rattle.shape.specs.Direction.{vector_of};

use unit::Unit;

// Four multiplicities.
#[derive(Clone, Copy)]
pub struct Counts {
    pub v1: u8,
    pub v2: u8,
    pub v3: u8,
    pub v4: u8,
}

// A net's degree, and the widths of its box.
#[derive(Clone, Copy)]
pub struct Shape {
    pub m: usize,
    pub w1: usize,
    pub w2: usize,
    pub w3: usize,
}

// The vector of a direction.
#[derive(Clone, Copy)]
pub struct Vector {
    pub x: usize,
    pub y: usize,
    pub z: usize,
}

impl Counts {
    // Those of a unit's net.
    pub fn of_unit(unit: Unit) -> Self
        ensures { counted result ≡ net_of unit }
    {
        Counts {
            v1: unit.v1,
            v2: unit.v2,
            v3: unit.v3,
            v4: unit.v4,
        }
    }
}

// m, which is 0 for multiplicities that add up to less than 3. The bounds here and below are those of
// four bytes.
pub fn degree_of(c: Counts) -> usize
    ensures { (result ≡ degree (counted c)) × (result ≤ 1017) }
{
    let sum = c.v1 as usize + c.v2 as usize + c.v3 as usize + c.v4 as usize;
    sum.saturating_sub(3)
}

// W on the axis of the multiplicity v.
fn width_of(m: usize, v: u8, v4: u8) -> usize
    requires { m ≤ 1017 }
    ensures { (result ≡ m * (v + v4) + 1) × (result ≤ 518671) }
{
    m * (v as usize + v4 as usize) + 1
}

pub fn shape_of(c: Counts) -> Shape
    ensures value { result ≡ shape_of (counted c) }
    ensures w1_bound { (result.w1 ≤ 518671) × (result.w2 ≤ 518671) × (result.w3 ≤ 518671) }
{
    let m = degree_of(c);
    Shape {
        m,
        w1: width_of(m, c.v1, c.v4),
        w2: width_of(m, c.v2, c.v4),
        w3: width_of(m, c.v3, c.v4),
    }
}

// W1×W2×W3.
pub fn places_of(c: Counts) -> usize
    ensures { result ≡ places (width (counted c)) }
{
    let box_of = shape_of(c);
    box_of.w1 * box_of.w2 * box_of.w3
}

// The most places of a box on an axis.
const SIDE: usize = 91;

#[tactic(auto, unfolding(crate::specs::Shape::side_allowed))]
fn side_allowed(w: usize) -> bool
    ensures { result ≡ side_allowed w }
{
    (1..=SIDE).contains(&w)
}

// Whether a degree and widths are within the limits.
#[tactic(auto, unfolding(crate::specs::Shape::boxed))]
fn is_boxed(s: Shape) -> bool
    ensures { result ≡ boxed s }
{
    s.m <= Unit::DEGREE as usize && side_allowed(s.w1) && side_allowed(s.w2) && side_allowed(s.w3)
}

// Whether a slice of n elements holds the box of such a shape.
#[tactic(auto, unfolding(crate::specs::Shape::held_in))]
pub fn is_held(s: Shape, n: usize) -> bool
    ensures { result ≡ held_in s n }
{
    is_boxed(s) && s.w1 * s.w2 * s.w3 <= n
}

// Of a byte that is no direction, the vector of direction 4.
pub fn vector_of(d: u8) -> Vector
    ensures { result ≡ vector_of (direction d) }
{
    match d {
        1 => Vector { x: 1, y: 0, z: 0 },
        2 => Vector { x: 0, y: 1, z: 0 },
        3 => Vector { x: 0, y: 0, z: 1 },
        _ => Vector { x: 1, y: 1, z: 1 },
    }
}

// n1×n2×n3.
pub fn entries_of(n1: u16, n2: u16, n3: u16) -> usize
    ensures { result ≡ n1 * n2 * n3 }
{
    n1 as usize * n2 as usize * n3 as usize
}
