// The checks that several calls share: of a unit, and of the slices that are lent with it. Section 5.3.
#![tactic(auto)]

ghost use Rattle.std.specs.Prelude.{◌≡◌};
ghost use Rattle.limits.specs.Limits.{block_room_check, lent_checks, room_checks, unit_checks};

use checks::Refusal;
use shape::Counts;
use unit::Unit;

// Checks 21 and 22.
#[tactic(auto, unfolding(crate::specs::Limits::unit_checks))]
pub fn check_unit(unit: Unit) -> Result<(), Refusal>
    ensures { result ≡ unit_checks unit }
{
    if !unit.holds_net() {
        return Err(Refusal::NoNet);
    }
    if !unit.holds_block() {
        return Err(Refusal::NoBlock);
    }
    Ok(())
}

// Check 9, of block slices of these lengths for n entries.
pub fn check_block_room(n: usize, corrections: usize, uncertainties: usize) -> Result<(), Refusal>
    ensures { result ≡ block_room_check n corrections uncertainties }
{
    if corrections < n || uncertainties < n {
        return Err(Refusal::BlockRoom);
    }
    Ok(())
}

// Checks 4 and 9, by the lengths of the lent slices.
pub fn check_room(
    unit: Unit,
    net: usize,
    corrections: usize,
    uncertainties: usize,
) -> Result<(), Refusal>
    ensures { result ≡ room_checks unit net corrections uncertainties }
{
    if net < shape::places_of(Counts::of_unit(unit)) {
        return Err(Refusal::NetRoom);
    }
    let n = shape::entries_of(unit.n1, unit.n2, unit.n3);
    check_block_room(n, corrections, uncertainties)
}

// Checks 21, 22, 4 and 9.
#[tactic(auto, unfolding(crate::specs::Limits::lent_checks))]
pub fn check_lent(
    unit: Unit,
    net: usize,
    corrections: usize,
    uncertainties: usize,
) -> Result<(), Refusal>
    ensures { result ≡ lent_checks unit net corrections uncertainties }
{
    check_unit(unit)?;
    check_room(unit, net, corrections, uncertainties)
}
