// Checks 3 and 4 of an inspection, which come before anything is written. docs/SPECIFICATION.md, Section 7.
#![tactic(auto)]

ghost use Rattle.std.specs.Prelude.{not, ◌≡◌};
ghost use Rattle.checks.specs.declared.Refusal.TheVariants.{BadMultiplicities, NetRoom};
ghost use Rattle.spline.specs.Box.{places, width};
ghost use Rattle.spline.specs.Multiplicities.{allowed};
ghost use Rattle.checks.specs.Checks.{no_refusal, refuse_if};
ghost use Rattle.shape.specs.Shape.{counted};
ghost use Rattle.inspection_checks.specs.Room.{shorter};

use checks::Refusal;
use shape::Counts;

// Check 4, for a box of n places and slices of these lengths.
fn check_room(n: usize, net: usize, defined: usize, work: usize) -> Result<(), Refusal>
    ensures { result ≡ refuse_if NetRoom (shorter net defined work n) no_refusal }
{
    if net < n || defined < n || work < n {
        return Err(Refusal::NetRoom);
    }
    Ok(())
}

// Checks 3 and 4, by the lengths of the three slices.
pub fn check_given(c: Counts, net: usize, defined: usize, work: usize) -> Result<(), Refusal>
    ensures { result
        ≡ refuse_if BadMultiplicities (not (allowed (counted c)))
        (refuse_if NetRoom (shorter net defined work (places (width (counted c)))) no_refusal) }
{
    if !allowed::multiplicities_allowed(c.v1, c.v2, c.v3, c.v4) {
        return Err(Refusal::BadMultiplicities);
    }
    check_room(shape::places_of(c), net, defined, work)
}
