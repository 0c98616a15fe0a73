// Ties and far faces of a placing that is handed in, by its fields. Section 9.7.
#![tactic(auto)]

ghost use Rattle.std.specs.Prelude.{◌≡◌};
ghost use Rattle.placing_fields.specs.Fields.{face_in_last, faces_in_last, remainder_on, tie_in_order};
ghost use Rattle.placing_fields.specs.Fields.{ties_in_order};

use axis_order::Placing;
use unit::Unit;

// Whether axis a may stand before axis b, with this weight between them.
fn tie_in_order(weight: u32, a: u8, b: u8) -> bool
    ensures { result ≡ tie_in_order weight a b }
{
    weight != 0 || a < b
}

// Whether the lower axis stands first wherever two remainders are equal.
#[tactic(auto, unfolding(crate::specs::Fields::ties_in_order))]
pub fn ties_in_order(q: Placing) -> bool
    ensures { result ≡ ties_in_order q }
{
    tie_in_order(q.l1, q.p, q.r) && tie_in_order(q.l2, q.r, q.s)
}

// Whether a remainder over D may stand in cell k of an axis with so many entries.
fn face_in_last(remainder: u64, divisor: u64, size: u16, k: u32) -> bool
    ensures { result ≡ face_in_last remainder divisor size k }
{
    remainder != divisor || k == coordinates::last_cell(size)
}

// The remainder on an axis.
#[tactic(auto, unfolding(crate::specs::Fields::remainder_on))]
fn remainder_on(q: Placing, axis: u8) -> u64
    ensures { result ≡ remainder_on q axis }
{
    if axis == q.p {
        q.l1 as u64 + q.l2 as u64 + q.l3 as u64
    } else if axis == q.r {
        q.l2 as u64 + q.l3 as u64
    } else {
        q.l3 as u64
    }
}

// Whether on every axis the remainder may stand in the cell.
#[tactic(auto, unfolding(crate::specs::Fields::faces_in_last))]
pub fn faces_in_last(unit: Unit, q: Placing) -> bool
    ensures { result ≡ faces_in_last unit q }
{
    let d = q.divisor();
    face_in_last(remainder_on(q, 1), d, unit.n1, q.k1)
        && face_in_last(remainder_on(q, 2), d, unit.n2, q.k2)
        && face_in_last(remainder_on(q, 3), d, unit.n3, q.k3)
}
