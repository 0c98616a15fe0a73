// Inspecting a net that arrived from elsewhere: it is compared with the defined one, built beside it.
// docs/SPECIFICATION.md, Section 7.
#![tactic(auto)]

ghost use Rattle.std.specs.Prelude.{◌≡◌, ◌≤◌, length};
ghost use Rattle.sums.specs.Fill.{filled};
ghost use Rattle.spline.specs.Multiplicities.{multiplicities};
ghost use Rattle.spline.specs.Box.{defined_number, places, width};
ghost use Rattle.spline.specs.Inner.Limits.{Limits};
ghost use Rattle.shape.specs.Shape.{counted};
ghost use Rattle.inspection.specs.Inspect.{inspect_checks, inspect_answer};

use checks::Refusal;
use shape::Counts;
use unit::Unit;

// Writes the defined net.
fn lay_defined(c: Counts, defined: &mut [u32], work: &mut [i32])
    requires limits { Limits (counted c) 12 }
    requires c_in_bounds { (places (width (counted c)) ≤ length defined.old)
        × (places (width (counted c)) ≤ length work.old) }
    ensures defined_after { defined.new
        ≡ filled (defined_number (counted c)) (places (width (counted c))) defined.old }
    ensures work_len_unchanged { length work.new ≡ length work.old }
{
    let order = defined_order::bytes_of(c);
    let n = c.v1 as usize + c.v2 as usize + c.v3 as usize + c.v4 as usize - 4;
    let _ = net::build(Unit::empty(), &order[..n], defined, work);
}

// All checks of an inspection: 3, 4, 14.
#[tactic(auto, unfolding(crate::specs::Inspect::inspect_checks))]
fn check_net(c: Counts, net: &[u32], defined: &mut [u32], work: &mut [i32]) -> Result<(), Refusal>
    ensures value { result
        ≡ inspect_checks (counted c) net.now (length defined.old)
        (length work.old) }
    ensures defined_len_unchanged { length defined.new ≡ length defined.old }
    ensures work_len_unchanged { length work.new ≡ length work.old }
{
    inspection_checks::check_given(c, net.len(), defined.len(), work.len())?;
    lay_defined(c, defined, work);
    comparison::compare(net, defined, shape::shape_of(c))
}

// Whether the net slice holds the defined net of four multiplicities: the unit with that net, or a refusal.
// The two other slices are work slices: they keep their lengths, and nothing more.
#[tactic(auto, unfolding(crate::specs::Inspect::inspect_answer))]
pub fn inspect(
    unit: Unit,
    v1: u8,
    v2: u8,
    v3: u8,
    v4: u8,
    net: &[u32],
    defined: &mut [u32],
    work: &mut [i32],
) -> Result<Unit, Refusal>
    ensures answer { result
        ≡ inspect_answer unit (multiplicities v1 v2 v3 v4) net.now
        (length defined.old) (length work.old) }
    ensures defined { length defined.new ≡ length defined.old }
    ensures work { length work.new ≡ length work.old }
{
    let c = Counts { v1, v2, v3, v4 };
    check_net(c, net, defined, work)?;
    Ok(unit.with_net(v1, v2, v3, v4))
}
