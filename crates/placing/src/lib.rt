// Where a point lies: its cell, the ranks of the axes and the four weights; or the refusal that it meets.
// Section 9.
#![tactic(auto)]

ghost use Rattle.std.specs.Prelude.{Err, Ok, ◌≡◌};
ghost use Rattle.checks.specs.Checks.{passed_or};
ghost use Rattle.unit.specs.Unit.{net_of, sizes};
ghost use Rattle.cell_checks.specs.Inside.{cell_check};
ghost use Rattle.placing.specs.Place.{place_answer};
ghost use Rattle.placing.specs.Placing.{block_cells, block_placing};

use axis_order::Placing;
use checks::Refusal;
use unit::Unit;

// The point X, Y, Z over a divisor.
#[derive(Clone, Copy)]
pub struct Point {
    pub x: i32,
    pub y: i32,
    pub z: i32,
    pub divisor: u32,
}

// The placing of a point by its distances from the origin, or 12.
fn place_in_block(unit: Unit, x: u32, y: u32, z: u32, divisor: u32) -> Result<Placing, Refusal>
    ensures { result ≡ passed_or (cell_check (net_of unit) (sizes unit) (block_cells unit x y z divisor))
        (Ok (block_placing unit x y z divisor)) Err }
{
    let a = coordinates::locate(x, divisor, unit.n1);
    let b = coordinates::locate(y, divisor, unit.n2);
    let c = coordinates::locate(z, divisor, unit.n3);
    cell_checks::check_cell(unit, a.cell, b.cell, c.cell)?;
    Ok(axis_order::placing_of(a, b, c, divisor))
}

// The placing of a point, or the first refusal that applies of 21, 22, 10, 11, 12.
#[tactic(auto, unfolding(crate::specs::Place::place_answer, crate::specs::Place::position_checks, crate::specs::Place::inside_check))]
pub fn place(unit: Unit, at: Point) -> Result<Placing, Refusal>
    ensures { result ≡ place_answer unit at.x at.y at.z at.divisor }
{
    limits::check_unit(unit)?;
    divisor_checks::check_divisor(unit, at.divisor as u64)?;
    let a = coordinates::from_origin(at.x, unit.o1, at.divisor);
    let b = coordinates::from_origin(at.y, unit.o2, at.divisor);
    let c = coordinates::from_origin(at.z, unit.o3, at.divisor);
    coordinates::check_signs(a, b, c)?;
    place_in_block(unit, a as u32, b as u32, c as u32, at.divisor)
}
