// What a call that places and values in turn looks at beside these two: what a point that is not placed is
// refused by, and 15 before the blending.
#![tactic(auto)]

ghost use Rattle.std.specs.Prelude.{◌≡◌};
ghost use Rattle.checks.specs.Checks.{and_then};
ghost use Rattle.unit.specs.Unit.{net_of};
ghost use Rattle.limits.specs.Limits.{lent_checks};
ghost use Rattle.divisor_checks.specs.Divisor.{live_divisor_checks};
ghost use Rattle.in_turn.specs.Early.{early_checks};
ghost use Rattle.in_turn.specs.Unplaced.{HandedOn};

use answers::{Fraction, LiveValue};
use axis_order::Placing;
use checks::Refusal;
use unit::Unit;

// What a point call refuses a point by that the placing call refuses: by what is lent, which is looked at
// first, or else as that call does, by a refusal of whatever kind those of the library turn into.
pub fn unplaced_point<R: From<Refusal> + Copy>(
    unit: Unit,
    net_length: usize,
    corrections_length: usize,
    uncertainties_length: usize,
    refusal: R,
) -> Result<Fraction, R>
    ensures { HandedOn R.from_gives
        (lent_checks unit net_length corrections_length uncertainties_length) refusal result }
{
    limits::check_lent(unit, net_length, corrections_length, uncertainties_length)?;
    Err(refusal)
}

// What a live call refuses it by: by what is lent, then by the divisor, or else as that call does.
pub fn unplaced_live<R: From<Refusal> + Copy>(
    unit: Unit,
    net_length: usize,
    corrections_length: usize,
    uncertainties_length: usize,
    divisor: u32,
    refusal: R,
) -> Result<LiveValue, R>
    ensures { HandedOn R.from_gives
        (and_then (lent_checks unit net_length corrections_length uncertainties_length)
        (live_divisor_checks (net_of unit) divisor)) refusal result }
{
    limits::check_lent(unit, net_length, corrections_length, uncertainties_length)?;
    divisor_checks::check_live_divisor(unit, divisor as u64)?;
    Err(refusal)
}

// Checks 21, 22, 17 and 15, where 15 may apply; where it does not, the others are left to the blending.
#[tactic(auto, unfolding(crate::specs::Early::early_checks))]
pub fn check_early(unit: Unit, q: Placing) -> Result<(), Refusal>
    ensures { result ≡ early_checks unit q }
{
    if divisor_checks::check_live_divisor(unit, q.divisor()).is_err() {
        return possible::check_live_placing(unit, q);
    }
    Ok(())
}
