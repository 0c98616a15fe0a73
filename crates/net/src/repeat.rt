// The repeats of an order, one for each byte, from the simple net.
ghost use Rattle.std.specs.Prelude.{◌≡◌, ◌≤◌, ◌<◌, [], length};
ghost use Rattle.sums.specs.Fill.{filled};
ghost use Rattle.spline.specs.Build.{direction};
ghost use Rattle.spline.specs.Multiplicities.{more, order_multiplicities};
ghost use Rattle.spline.specs.Inner.Limits.{Limits};
ghost use Rattle.shape.specs.Shape.{counted};
ghost use Rattle.orders.specs.Order.{order_number};
ghost use Rattle.orders.specs.Inner.GoodOrder.{GoodOrder};
ghost use Rattle.builds.specs.Repeat.{work_between, net_repeated, taken_up};

use shape::Counts;

// Writes the simple net, in its box of 3×3×3 places: 1 at (1, 1, 1), 0 elsewhere.
fn lay_simple(net: &mut [u32])
    requires { 27 ≤ length net.old }
    ensures { net.new ≡ filled (order_number []) 27 net.old }
{
    net[..27].fill(0);
    net[13] = 1;
}

// Takes up a repeat of direction d, from the net of multiplicities c: the differences first, then their sums
// along each line. Answers the multiplicities with it.
fn take_up(c: Counts, d: u8, net: &mut [u32], work: &mut [i32]) -> Counts
    requires { Limits (counted c) 11 }
    ensures counts { counted result ≡ more (direction d) (counted c) }
    ensures work { work.new
        ≡ work_between (direction d) (counted c) net.old work.old }
    ensures net { net.new
        ≡ net_repeated (direction d) (counted c) net.old work.old }
{
    let next = orders::one_more(c, d);
    let old = shape::shape_of(c);
    let new = shape::shape_of(next);
    differences::shift_and_subtract(old, new, d, net, work);
    summations::integrate(new, d, net, work);
    next
}

// Takes up all bytes of an order, from the simple net. Answers the multiplicities that it leads to.
pub(crate) fn run(order: &[u8], net: &mut [u32], work: &mut [i32]) -> Counts
    requires { GoodOrder order.now × (27 ≤ length net.old) }
    ensures counts { counted result ≡ order_multiplicities order.now }
    ensures net { net.new
        ≡ (taken_up order.now net.old work.old).net }
    ensures work { work.new
        ≡ (taken_up order.now net.old work.old).work }
{
    lay_simple(net);
    let mut c = Counts {
        v1: 1,
        v2: 1,
        v3: 1,
        v4: 1,
    };
    for &d in order {
        c = take_up(c, d, net, work);
    }
    c
}
