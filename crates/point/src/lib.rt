// The exact answer at a rational point or at a placing: the Bernstein sums of its blended numbers, or the
// refusal that applies. Section 11.
#![tactic(auto)]

ghost use Rattle.std.specs.Prelude.{◌≡◌};
ghost use Rattle.sums.specs.Fill.{number_at, signed_at};
ghost use Rattle.spline.specs.Multiplicities.{degree};
ghost use Rattle.unit.specs.Unit.{net_of};
ghost use Rattle.parts.specs.Parts.{BlendedSizes, fraction_of};
ghost use Rattle.parts.specs.Weights.{Scaled};
ghost use Rattle.answers.specs.Point.{point_answer, valuing_answer};

use answers::Fraction;
use axis_order::Placing;
use blending::lent::Lent;
use checks::Refusal;
use placing::Point;
use shape::Counts;
use unit::Unit;

pub mod bernstein;

// The fraction at a placing, from the blended numbers of its local places.
fn summed(unit: Unit, q: Placing, shifts: &[i64; 220], spreads: &[u64; 220]) -> Fraction
    requires { Scaled (degree (net_of unit)) q
        × BlendedSizes (degree (net_of unit)) (signed_at shifts.now) (number_at spreads.now) }
    ensures { result ≡ fraction_of (degree (net_of unit)) q (signed_at shifts.now)
        (number_at spreads.now) }
{
    let m = shape::degree_of(Counts::of_unit(unit));
    let sums = bernstein::bernstein_sums(m, q, shifts, spreads);
    Fraction {
        numerator: sums.numerator,
        uncertainty: sums.uncertainty,
        denominator: bernstein::denominator(m, q),
    }
}

// The exact fraction at a placing, over the sum of its weights, or the first refusal that applies of 21, 22,
// 17, 4, 9, 13, 23, with the lowest index of a gap for 13.
pub fn value(unit: Unit, lent: Lent<'_>, q: Placing) -> Result<Fraction, Refusal>
    ensures { result ≡ valuing_answer unit lent.entry.net.now lent.entry.corrections.now
        lent.entry.uncertainties.now q }
{
    let mut shifts = [0i64; 220];
    let mut spreads = [0u64; 220];
    blending::blend(unit, lent, q, &mut shifts, &mut spreads)?;
    Ok(summed(unit, q, &shifts, &spreads))
}

// The exact fraction at a point, or the first refusal that applies of 21, 22, 4, 9, 10, 11, 12, 13, 23, with
// the lowest index of a gap for 13. The point is placed and valued; 4 and 9 stand before the refusals of
// placing, so where it is not placed they are looked at first.
pub fn answer(unit: Unit, lent: Lent<'_>, at: Point) -> Result<Fraction, Refusal>
    ensures { result ≡ point_answer unit lent.entry.net.now lent.entry.corrections.now
        lent.entry.uncertainties.now at.x at.y at.z at.divisor }
{
    match placing::place(unit, at) {
        Ok(q) => value(unit, lent, q),
        Err(refusal) => in_turn::unplaced_point(
            unit,
            lent.net.len(),
            lent.corrections.len(),
            lent.uncertainties.len(),
            refusal,
        ),
    }
}
