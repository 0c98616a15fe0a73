// The net of 2, 2, 2, 1, with which nearly all units leave the factory, as a table that is copied to a lent
// slice. docs/SPECIFICATION.md, Section 6.5.
#![tactic(auto)]

ghost use Rattle.std.specs.Prelude.{◌≡◌, ◌≤◌, length};
ghost use Rattle.sums.specs.Fill.{filled};
ghost use Rattle.spline.specs.Box.{defined_number};
ghost use Rattle.factory.specs.Factory.{factory_answer, factory_checks, factory_net, factory_shape};

mod table;

use checks::Refusal;
use unit::Unit;

// The places of its box.
const PLACES: usize = 2197;

// Check 4, of a net slice of this length.
#[tactic(auto, unfolding(crate::specs::Factory::factory_checks))]
fn check_room(net: usize) -> Result<(), Refusal>
    ensures { result ≡ factory_checks net }
{
    if net < PLACES {
        return Err(Refusal::NetRoom);
    }
    Ok(())
}

// Writes the table to the start of the net slice. The compiler makes stores to the slice of it: no copy of
// the table stands on the stack. By copy_from_slice the table would stand in the archive, past its limit.
fn lay_table(net: &mut [u32])
    requires { 2197 ≤ length net.old }
    ensures { net.new
        ≡ filled (defined_number factory_shape) 2197 net.old }
{
    let numbers = table::TABLE;
    for i in 0..PLACES {
        net[i] = numbers[i];
    }
}

// Copies the net of the factory shape to the start of the net slice, and its multiplicities to the unit.
#[tactic(auto, unfolding(crate::specs::Factory::factory_answer, crate::specs::Factory::factory_net))]
pub fn copy(unit: Unit, net: &mut [u32]) -> Result<Unit, Refusal>
    ensures answer { result ≡ factory_answer unit (length net.old) }
    ensures net { net.new ≡ factory_net net.old }
{
    check_room(net.len())?;
    lay_table(net);
    Ok(unit.with_net(2, 2, 2, 1))
}
