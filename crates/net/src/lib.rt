// Building the net of an order in a lent slice, by differences and sums along lines. docs/SPECIFICATION.md,
// Section 6.
#![tactic(auto)]

ghost use Rattle.std.specs.Prelude.{◌≡◌, length};
ghost use Rattle.builds.specs.Build.{build_answer, build_net, BuildWork};

mod repeat;

use checks::Refusal;
use unit::Unit;

// Builds the net of an order: it goes to the start of the net slice, and its multiplicities to the unit.
#[tactic(auto, unfolding(builds::specs::Build::build_answer))]
pub fn build(unit: Unit, order: &[u8], net: &mut [u32], work: &mut [i32]) -> Result<Unit, Refusal>
    ensures answer { result
        ≡ build_answer unit order.now (length net.old) (length work.old) }
    ensures net { net.new
        ≡ build_net order.now net.old (length work.old) }
    ensures work { BuildWork order.now (length net.old)
        work.old work.new }
{
    orders::check_build(order, net.len(), work.len())?;
    let c = repeat::run(order, net, work);
    Ok(unit.with_net(c.v1, c.v2, c.v3, c.v4))
}
