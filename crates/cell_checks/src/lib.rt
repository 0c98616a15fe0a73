// Which cells are inside, and check 12 of a cell. Section 9.2.
#![tactic(auto)]

ghost use Rattle.std.specs.Prelude.{◌≡◌, ◌+◌};
ghost use Rattle.spline.specs.Place.{on_axes};
ghost use Rattle.unit.specs.Unit.{net_of, sizes};
ghost use Rattle.cell_checks.specs.Inside.{cell_check, inside, inside_on};

use checks::Refusal;
use unit::Unit;

// Whether a cell is inside on one axis, whose multiplicity is v.
fn inside_on(v: u8, v4: u8, size: u16, k: u32) -> bool
    ensures { result ≡ inside_on (v + v4) size k }
{
    let k = k as usize;
    v as usize + v4 as usize <= k + 1 && (k == 0 || k < size as usize)
}

// Whether a cell is inside.
#[tactic(auto, unfolding(crate::specs::Inside::inside))]
pub fn is_inside(unit: Unit, k1: u32, k2: u32, k3: u32) -> bool
    ensures { result ≡ inside (net_of unit) (sizes unit) (on_axes k1 k2 k3) }
{
    inside_on(unit.v1, unit.v4, unit.n1, k1)
        && inside_on(unit.v2, unit.v4, unit.n2, k2)
        && inside_on(unit.v3, unit.v4, unit.n3, k3)
}

// Check 12, of the cell.
#[tactic(auto, unfolding(crate::specs::Inside::cell_check))]
pub fn check_cell(unit: Unit, k1: u32, k2: u32, k3: u32) -> Result<(), Refusal>
    ensures { result ≡ cell_check (net_of unit) (sizes unit) (on_axes k1 k2 k3) }
{
    if !is_inside(unit, k1, k2, k3) {
        return Err(Refusal::Outside);
    }
    Ok(())
}
