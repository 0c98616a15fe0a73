// The live answer at a rational point or at a placing: N and U as 64-bit floats, or the refusal that applies.
// Blending is in whole numbers, as for the exact answer; the Bernstein sums are made in floats, each step
// exact. Sections 11.7, 11.8 and 11.12.
#![tactic(auto)]

ghost use Rattle.std.specs.Prelude.{◌≡◌, ◌≤◌};
ghost use Rattle.sums.specs.Fill.{number_at, signed_at};
ghost use Rattle.spline.specs.Multiplicities.{degree};
ghost use Rattle.unit.specs.Unit.{net_of};
ghost use Rattle.divisor_checks.specs.Divisor.{live_limit, scale};
ghost use Rattle.axis_order.specs.Weights.{weight_sum};
ghost use Rattle.answers.specs.Live.{live_answer, live_value, live_valuing_answer};
ghost use Rattle.parts.specs.Parts.{BlendedSizes, parts_to};
ghost use Rattle.parts.specs.Weights.{Scaled};

use answers::LiveValue;
use axis_order::Placing;
use blending::lent::Lent;
use checks::Refusal;
use placing::Point;
use shape::Counts;
use unit::Unit;

mod bernstein;

// N and U at a placing, N alone where the flag is off, from the blended numbers of its local places.
fn summed(
    unit: Unit,
    q: Placing,
    shifts: &[i64; 220],
    spreads: &[u64; 220],
    with_uncertainty: bool,
) -> LiveValue
    requires { Scaled (degree (net_of unit)) q × (scale (degree (net_of unit)) (weight_sum q) ≤ live_limit)
        × BlendedSizes (degree (net_of unit)) (signed_at shifts.now) (number_at spreads.now) }
    ensures { result ≡ live_value with_uncertainty
        (parts_to (degree (net_of unit)) q (signed_at shifts.now) (number_at spreads.now)
        ).numerator
        (parts_to (degree (net_of unit)) q (signed_at shifts.now) (number_at spreads.now)
        ).uncertainty }
{
    let m = shape::degree_of(Counts::of_unit(unit));
    let sums = bernstein::float_sums(m, q, shifts, spreads);
    if with_uncertainty {
        return LiveValue::Both(sums);
    }
    LiveValue::Shift(sums.numerator)
}

// N and U as floats at a placing, N alone where the flag is off, or the first refusal that applies of 21, 22,
// 17, 15, 4, 9, 13, 23, with the lowest index of a gap for 13.
pub fn value(
    unit: Unit,
    lent: Lent<'_>,
    q: Placing,
    with_uncertainty: bool,
) -> Result<LiveValue, Refusal>
    ensures { result ≡ live_valuing_answer unit lent.entry.net.now lent.entry.corrections.now
        lent.entry.uncertainties.now q with_uncertainty }
{
    in_turn::check_early(unit, q)?;
    let mut shifts = [0i64; 220];
    let mut spreads = [0u64; 220];
    blending::blend(unit, lent, q, &mut shifts, &mut spreads)?;
    Ok(summed(unit, q, &shifts, &spreads, with_uncertainty))
}

// N and U as floats at a point, N alone where the flag is off, or the first refusal that applies of 21, 22,
// 4, 9, 10, 11, 15, 12, 13, 23, with the lowest index of a gap for 13. The point is placed and valued; 4 and
// 9 stand before 15 here, so they are looked at before it is valued, and where it is not placed they come
// first, and then 15.
pub fn answer(
    unit: Unit,
    lent: Lent<'_>,
    at: Point,
    with_uncertainty: bool,
) -> Result<LiveValue, Refusal>
    ensures { result ≡ live_answer unit lent.entry.net.now lent.entry.corrections.now
        lent.entry.uncertainties.now at.x at.y at.z at.divisor with_uncertainty }
{
    match placing::place(unit, at) {
        Ok(q) => {
            limits::check_room(
                unit,
                lent.net.len(),
                lent.corrections.len(),
                lent.uncertainties.len(),
            )?;
            value(unit, lent, q, with_uncertainty)
        }
        Err(refusal) => in_turn::unplaced_live(
            unit,
            lent.net.len(),
            lent.corrections.len(),
            lent.uncertainties.len(),
            at.divisor,
            refusal,
        ),
    }
}
