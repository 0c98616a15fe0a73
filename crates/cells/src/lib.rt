// Cells and remainders of coordinates, and the pivot that remainders are compared with.
// docs/SPECIFICATION.md, Section 6.3.
#![tactic(auto)]

ghost use Rattle.std.specs.Prelude.{cond, ◌≡◌, ltb, ◌*◌, ◌≤◌};
ghost use Rattle.spline.specs.Build.{direction};
ghost use Rattle.spline.specs.Rule.{lower_above};
ghost use Rattle.cells.specs.Coordinates.{cell_of, pivot_of};

// The remainder that the others are compared with: for direction 4 the highest, which none exceeds. In
// direction 1 each place has its own, and the answer is 0.
pub fn pivot(d: u8, u2: usize, u3: usize, g: usize) -> usize
    ensures { result ≡ pivot_of (direction d) 0 u2 u3 g }
{
    match d {
        1 => 0,
        2 => u2,
        3 => u3,
        _ => g,
    }
}

// A remainder, less 1 where it is strictly greater than the pivot.
pub fn lower(p: usize, u: usize) -> usize
    ensures { result ≡ lower_above p u }
{
    if p < u { u - 1 } else { u }
}

// The cell and the remainder of a coordinate: `base` counts the lowered places of the cells before it, g×k.
#[derive(Clone, Copy)]
pub struct Cell {
    pub base: usize,
    pub u: usize,
}

// Those of the coordinate where the pass begins: on an axis that the direction moves along (step 1) it is −1,
// which is g when taken a cell up; on the others it is 0.
pub fn first_cell(g: usize, step: usize) -> Cell
    ensures at_any_step { result ≡ cell_of g (cond (ltb 0 step) g 0) }
    ensures up_to_one { step ≤ 1 → result ≡ cell_of g (g * step) }
{
    let u = if 0 < step { g } else { 0 };
    Cell { base: 0, u }
}
