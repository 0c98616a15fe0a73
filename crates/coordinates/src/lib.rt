// A coordinate on an axis: read from the origin of its axis, and cell and remainder of its distance from
// there. Section 9.1.
#![tactic(auto)]

ghost use Rattle.std.specs.Prelude.{◌≡◌, ◌-◌, ◌≤◌, nat_abs};
ghost use Rattle.coordinates.specs.Coordinates.{farthest_over, from_origin, located, sign_check};
ghost use Rattle.coordinates.specs.Inner.Reading.{farthest};

use checks::Refusal;

// A coordinate, read from the origin of its axis; in 64 bits, since it may be past 32.
pub fn from_origin(x: i32, origin: i16, divisor: u32) -> i64
    ensures read { (result ≡ from_origin x origin divisor) × (nat_abs result ≤ farthest_over divisor) }
    ensures near { divisor ≤ 4096 → nat_abs result ≤ farthest }
{
    x as i64 - origin as i64 * divisor as i64
}

// Check 12, of coordinates read from the origin.
#[tactic(auto, unfolding(crate::specs::Coordinates::sign_check))]
pub fn check_signs(x: i64, y: i64, z: i64) -> Result<(), Refusal>
    ensures { result ≡ sign_check x y z }
{
    if x < 0 || y < 0 || z < 0 {
        return Err(Refusal::Outside);
    }
    Ok(())
}

// The last cell of an axis with so many entries; 0 where it has none.
pub fn last_cell(size: u16) -> u32
    ensures { result ≡ size - 1 }
{
    (size as u32).saturating_sub(1)
}

// Cell and remainder of a coordinate.
#[derive(Clone, Copy)]
pub struct Located {
    pub cell: u32,
    pub remainder: u32,
}

// Where a coordinate lies on an axis with so many entries, by its distance from the origin. Over 0 all of it
// remains.
#[tactic(auto, unfolding(crate::specs::Coordinates::located))]
pub fn locate(x: u32, divisor: u32, size: u16) -> Located
    ensures { result ≡ located x divisor size }
{
    if x as u64 == size as u64 * divisor as u64 {
        Located {
            cell: last_cell(size),
            remainder: divisor,
        }
    } else if divisor == 0 {
        Located {
            cell: 0,
            remainder: x,
        }
    } else {
        Located {
            cell: x / divisor,
            remainder: x % divisor,
        }
    }
}
