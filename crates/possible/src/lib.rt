// Which placings the placing call gives for a unit, and the checks of a call that is handed a placing.
// Section 9.7.
#![tactic(auto)]

ghost use Rattle.std.specs.Prelude.{◌≡◌};
ghost use Rattle.possible.specs.Possible.{live_placing_checks, placed_checks, placing_checks, possible};

use axis_order::Placing;
use checks::Refusal;
use unit::Unit;

// Whether the placing call gives the placing for the unit and some point. Where L0 is not 0 no remainder is
// D, and no face is looked at.
#[tactic(auto, using(crate::proofs::FieldTests::no_face), unfolding(crate::specs::Possible::possible))]
fn is_possible(unit: Unit, q: Placing) -> bool
    ensures { result ≡ possible unit q }
{
    three_axes::are_axes(q.p, q.r, q.s)
        && divisor_checks::check_divisor(unit, q.divisor()).is_ok()
        && cell_checks::is_inside(unit, q.k1, q.k2, q.k3)
        && placing_fields::ties_in_order(q)
        && (q.l0 != 0 || placing_fields::faces_in_last(unit, q))
}

// Checks 21, 22 and 17.
#[tactic(auto, unfolding(crate::specs::Possible::placing_checks))]
fn check_placing(unit: Unit, q: Placing) -> Result<(), Refusal>
    ensures { result ≡ placing_checks unit q }
{
    limits::check_unit(unit)?;
    if !is_possible(unit, q) {
        return Err(Refusal::ImpossiblePlacing);
    }
    Ok(())
}

// Checks 21, 22, 17, 4 and 9, by the lengths of the lent slices.
#[tactic(auto, unfolding(crate::specs::Possible::placed_checks))]
pub fn check_placed(
    unit: Unit,
    q: Placing,
    net: usize,
    corrections: usize,
    uncertainties: usize,
) -> Result<(), Refusal>
    ensures { result ≡ placed_checks unit q net corrections uncertainties }
{
    let placing = check_placing(unit, q);
    let room = limits::check_room(unit, net, corrections, uncertainties);
    placing.and(room)
}

// Checks 21, 22, 17 and 15.
#[tactic(auto, unfolding(crate::specs::Possible::live_placing_checks, divisor_checks::specs::Divisor::live_divisor_checks))]
pub fn check_live_placing(unit: Unit, q: Placing) -> Result<(), Refusal>
    ensures { result ≡ live_placing_checks unit q }
{
    check_placing(unit, q)?;
    divisor_checks::check_live_divisor(unit, q.divisor())
}
