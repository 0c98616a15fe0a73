// The blended numbers at a placing: from unit, net and block the blended correction and uncertainty at every
// local place of its tetrahedron, or the refusal that applies. Section 10.
#![tactic(auto)]

ghost use Rattle.std.specs.Prelude.{◌≡◌, ◌≤◌, length};
ghost use Rattle.checks.specs.Checks.{no_refusal};
ghost use Rattle.sums.specs.Fill.{filled, number_at, signed_at};
ghost use Rattle.unit.specs.Unit.{net_of, sizes};
ghost use Rattle.axis_order.specs.declared.Placing.{Placing};
ghost use Rattle.blended.specs.Blend.{Sized, blend_checks, blended_correction_at, blended_uncertainty_at};
ghost use Rattle.blended.specs.Blend.{correction_at, window_checks, written_if};
ghost use Rattle.blended.specs.Inner.Fit.{Fit};

use axis_order::Placing;
use checks::Refusal;
use lent::Lent;
use tetrahedron::unity;
use unit::Unit;
use window::gap;

mod adding;
mod entry;
pub mod lent;

// Writes the first of the blended corrections and uncertainties to the caller's arrays. With copy_from_slice
// the archive would need memcpy.
fn hand_over(
    count: usize,
    corrections: &[i64; 220],
    uncertainties: &[u64; 220],
    shifts: &mut [i64],
    spreads: &mut [u64],
)
    requires { (count ≤ 220) × (220 ≤ length shifts.old) × (220 ≤ length spreads.old) }
    ensures shifts_after { shifts.new
        ≡ filled (signed_at corrections.now) count shifts.old }
    ensures spreads_after { spreads.new
        ≡ filled (number_at uncertainties.now) count spreads.old }
{
    for t in 0..count {
        shifts[t] = corrections[t];
        spreads[t] = uncertainties[t];
    }
}

// The same for a placing that was looked at: its window decides, by 13 or 23.
fn blend_at(
    unit: Unit,
    lent: Lent<'_>,
    q: Placing,
    shifts: &mut [i64],
    spreads: &mut [u64],
) -> Result<(), Refusal>
    requires { Fit unit (length lent.net.now) (length lent.corrections.now) (length lent.uncertainties.now) q
        × (220 ≤ length shifts.old) × (220 ≤ length spreads.old) }
    ensures value { result ≡ window_checks (net_of unit) (sizes unit) (number_at lent.entry.net.now)
        (correction_at (sizes unit) lent.entry.corrections.now) q }
    ensures shifts_after { shifts.new
        ≡ written_if result (blended_correction_at unit lent.entry.net.now lent.entry.corrections.now q)
        unit shifts.old }
    ensures spreads_after { spreads.new
        ≡ written_if result (blended_uncertainty_at unit lent.entry.net.now lent.entry.uncertainties.now q)
        unit spreads.old }
    ensures sized { result ≡ no_refusal
        → Sized unit lent.entry.net.now lent.entry.corrections.now lent.entry.uncertainties.now q }
{
    let f = frame::framed(unit, q);
    let offsets = adding::offsets_of(f);
    let mut shares = [0u64; 220];
    let mut c = [0i64; 220];
    let mut u = [0u64; 220];
    let found = adding::add_window(
        lent.net,
        lent.corrections,
        lent.uncertainties,
        f,
        &offsets,
        &mut shares,
        &mut c,
        &mut u,
    );
    gap::check(found)?;
    let m = f.m;
    if !unity::adds_up(&shares, m) {
        return Err(Refusal::UnevenShares);
    }
    let count = f.count;
    hand_over(count, &c, &u, shifts, spreads);
    Ok(())
}

// In the two arrays, the blended correction and uncertainty at each local place of a placing in turn; or the
// first refusal that applies of 21, 22, 17, 4, 9, 13, 23, with the lowest index of a gap for 13, and arrays
// as they were. The last clause follows from the others and the sizes of the slices' elements, which a caller
// does not see.
pub fn blend(
    unit: Unit,
    lent: Lent<'_>,
    q: Placing,
    shifts: &mut [i64; 220],
    spreads: &mut [u64; 220],
) -> Result<(), Refusal>
    ensures value { result ≡ blend_checks unit lent.entry.net.now lent.entry.corrections.now
        lent.entry.uncertainties.now q }
    ensures shifts_after { shifts.new
        ≡ written_if result (blended_correction_at unit lent.entry.net.now lent.entry.corrections.now q)
        unit shifts.old }
    ensures spreads_after { spreads.new
        ≡ written_if result (blended_uncertainty_at unit lent.entry.net.now lent.entry.uncertainties.now q)
        unit spreads.old }
    ensures sized { result ≡ no_refusal
        → Sized unit lent.entry.net.now lent.entry.corrections.now lent.entry.uncertainties.now q }
{
    possible::check_placed(
        unit,
        q,
        lent.net.len(),
        lent.corrections.len(),
        lent.uncertainties.len(),
    )?;
    blend_at(unit, lent, q, shifts, spreads)
}
