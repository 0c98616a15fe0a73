// Whether what is lent to the halves of a repeat fits: boxes within the limits, and slices that hold them.
// docs/SPECIFICATION.md, Section 6.3.
#![tactic(auto)]

ghost use Rattle.std.specs.Prelude.{◌≡◌};
ghost use Rattle.fitting.specs.Fitting.{differences_fit, sums_fit};

use shape::Shape;
use unit::Unit;

// For the first half: both boxes are within the limits, the older one of a degree that can grow, and the
// slices, of these lengths, hold them.
pub fn differences_fit(old: Shape, new: Shape, net: usize, work: usize) -> bool
    ensures { result ≡ differences_fit old new net work }
{
    shape::is_held(old, net) && shape::is_held(new, work) && old.m < Unit::DEGREE as usize
}

// For the second: the box is within the limits, and both slices hold it.
pub fn sums_fit(s: Shape, net: usize, work: usize) -> bool
    ensures { result ≡ sums_fit s net work }
{
    shape::is_held(s, net) && shape::is_held(s, work)
}
