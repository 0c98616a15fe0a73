// The window of a point, entry by entry in the order of the block's index, up to the first gap.
ghost use Rattle.std.specs.Prelude.{◌≡◌, ◌*◌, ◌<◌, ◌≤◌, ℕ, length};
ghost use Rattle.sums.specs.Fill.{number_at, signed_at};
ghost use Rattle.sums.specs.Search.{nowhere};
ghost use Rattle.tetrahedron.specs.LocalPlaces.{local_at};
ghost use Rattle.window.specs.Window.{found_of, gap_of};
ghost use Rattle.blending.specs.Inner.Frame.{FrameLimits, entry_at, offset_of, share_at};
ghost use Rattle.blending.specs.Inner.Search.{window_gaps};
ghost use Rattle.blending.specs.Inner.Sums.{Bounded, Room, no_sums, sums_in};
ghost use Rattle.blending.specs.Inner.Window.{InWindow, Within, window_sums};

use crate::entry;
use frame::Frame;
use tetrahedron::local::LocalPlace;
use window::position::Position;

// The index of an entry in the block.
fn entry_at(f: Frame, at: Position) -> usize
    requires { FrameLimits f × Within f at }
    ensures { result ≡ entry_at f at.x at.y at.z }
{
    f.low1 + at.x + f.n1 * (f.low2 + at.y + f.n2 * (f.low3 + at.z))
}

// The index of its share at the first local place in the net.
fn share_at(f: Frame, at: Position) -> usize
    requires { FrameLimits f × Within f at }
    ensures { result ≡ share_at f at.x at.y at.z }
{
    f.m * (f.e1 - 1 - at.x + f.w1 * (f.e2 - 1 - at.y + f.w2 * (f.e3 - 1 - at.z)))
}

// How far the local places lie from the first one in the net.
pub(crate) fn offsets_of(f: Frame) -> [usize; 220]
    requires { FrameLimits f }
    ensures { ((t : ℕ) → t < f.count → number_at result t ≡ offset_of f (local_at t))
        × ((t : ℕ) → f.count ≤ t → t < 220 → number_at result t ≡ 0) }
{
    let mut offsets = [0usize; 220];
    let mut l = LocalPlace::first();
    for t in 0..f.count {
        offsets[t] = f.s1 * l.p + f.s2 * l.r + f.s3 * l.s;
        l = l.next();
    }
    offsets
}

// Adds every entry of the window to sums that start at 0, up to the first gap.
pub(crate) fn add_window(
    net: &[u32],
    corrections: &[i16],
    uncertainties: &[u16],
    f: Frame,
    offsets: &[usize; 220],
    shares: &mut [u64],
    shifts: &mut [i64],
    spreads: &mut [u64],
) -> Option<usize>
    requires in_window { InWindow (length net.now) (length corrections.now) (length uncertainties.now)
        (number_at offsets.now) f × Room shares.old shifts.old spreads.old }
    requires by_index { (t : ℕ) → t < 4 * f.groups
        → sums_in shares.old shifts.old spreads.old t ≡ no_sums }
    ensures gap { result ≡ gap_of (window_gaps (signed_at corrections.now) f) }
    ensures result_value { found_of result ≡ window_gaps (signed_at corrections.now) f }
    ensures t_after { window_gaps (signed_at corrections.now) f ≡ nowhere
        → (t : ℕ) → t < 4 * f.groups
        → sums_in shares.new shifts.new spreads.new t
        ≡ window_sums (number_at net.now) (signed_at corrections.now)
        (number_at uncertainties.now) f (number_at offsets.now t) }
    ensures bounded { window_gaps (signed_at corrections.now) f ≡ nowhere
        → (t : ℕ) → t < 4 * f.groups
        → Bounded (sums_in shares.new shifts.new spreads.new t) }
{
    let groups = f.groups;
    let e1 = f.e1;
    let e2 = f.e2;
    let e3 = f.e3;
    let mut at = Position { x: 0, y: 0, z: 0 };
    while at.z < e3 {
        let entry = entry_at(f, at);
        let correction = corrections[entry];
        if unit::is_gap(correction) {
            return Some(entry);
        }
        entry::add_entry(
            net,
            offsets,
            groups,
            share_at(f, at),
            correction,
            uncertainties[entry],
            shares,
            shifts,
            spreads,
        );
        at = at.next(e1, e2);
    }
    None
}
