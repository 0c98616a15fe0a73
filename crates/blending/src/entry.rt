// One entry's shares at all local places, added to the sums there: plain, and times its correction and its
// uncertainty.
ghost use Rattle.std.specs.Prelude.{◌≡◌, ◌*◌, ◌+◌, ◌-◌, ◌<◌, ◌≤◌, ℕ, length};
ghost use Rattle.sums.specs.Fill.{number_at};
ghost use Rattle.blending.specs.Inner.Sums.{Room, Small, add_sums, entry_sums, sums_in};
ghost use Rattle.blending.specs.Inner.Window.{AddedIn, EntryIn};

use tetrahedron::group;

// Adds one share to the sums at a local place.
fn add_share(
    t: usize,
    share: u32,
    correction: i16,
    uncertainty: u16,
    shares: &mut [u64],
    shifts: &mut [i64],
    spreads: &mut [u64],
)
    requires { (t < 220) × Room shares.old shifts.old spreads.old
        × Small 4095 (sums_in shares.old shifts.old spreads.old t) }
    ensures { AddedIn t (t + 1) (λ i. entry_sums share correction uncertainty)
        (sums_in shares.old shifts.old spreads.old)
        (sums_in shares.new shifts.new spreads.new) }
{
    shares[t] += share as u64;
    shifts[t] += correction as i64 * share as i64;
    spreads[t] += share as u64 * uncertainty as u64;
}

// An entry's shares at four local places from number t on; its first share stands at an index of the net.
fn four_at(net: &[u32], offsets: &[usize; 220], share: usize, t: usize) -> [u32; 4]
    requires { (t < 217) × ((i : ℕ) → i < 4 → share + number_at offsets.now (t + i) < length net.now) }
    ensures { (i : ℕ) → i < 4
        → number_at result i ≡ number_at net.now (share + number_at offsets.now (t + i)) }
{
    let mut four = [0u32; 4];
    for i in 0..4 {
        four[i] = net[share + offsets[t + i]];
    }
    four
}

// Adds the shares at four local places, most often all of them 0.
fn add_four(
    t: usize,
    four: [u32; 4],
    correction: i16,
    uncertainty: u16,
    shares: &mut [u64],
    shifts: &mut [i64],
    spreads: &mut [u64],
)
    requires { (t < 217) × Room shares.old shifts.old spreads.old
        × ((i : ℕ) → t ≤ i → i < t + 4 → Small 4095 (sums_in shares.old shifts.old spreads.old i)) }
    ensures { AddedIn t (t + 4) (λ i. entry_sums (number_at four (i - t)) correction uncertainty)
        (sums_in shares.old shifts.old spreads.old)
        (sums_in shares.new shifts.new spreads.new) }
{
    if group::all_zero(four[0], four[1], four[2], four[3]) {
        return;
    }
    for i in 0..4 {
        add_share(
            t + i,
            four[i],
            correction,
            uncertainty,
            shares,
            shifts,
            spreads,
        );
    }
}

// Adds an entry's shares, the first of which stands at an index of the net, four at a time.
pub(crate) fn add_entry(
    net: &[u32],
    offsets: &[usize; 220],
    groups: usize,
    share: usize,
    correction: i16,
    uncertainty: u16,
    shares: &mut [u64],
    shifts: &mut [i64],
    spreads: &mut [u64],
)
    requires { EntryIn (length net.now) (number_at offsets.now) groups share
        (sums_in shares.old shifts.old spreads.old) × Room shares.old shifts.old spreads.old }
    ensures { (t : ℕ) → t < 4 * groups
        → sums_in shares.new shifts.new spreads.new t
        ≡ add_sums (sums_in shares.old shifts.old spreads.old t)
        (entry_sums (number_at net.now (share + number_at offsets.now t))
        correction uncertainty) }
{
    for g in 0..groups {
        let t = 4 * g;
        let four = four_at(net, offsets, share, t);
        add_four(t, four, correction, uncertainty, shares, shifts, spreads);
    }
}
