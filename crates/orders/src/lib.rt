// Orders: their checks, and the multiplicities that they lead to. docs/SPECIFICATION.md, Sections 3.6, 6.1.
#![tactic(auto)]

ghost use Rattle.std.specs.Prelude.{cond, ◌≡◌, length, get_or};
ghost use Rattle.checks.specs.declared.Refusal.TheVariants.{BadByte};
ghost use Rattle.sums.specs.Search.{first};
ghost use Rattle.spline.specs.Build.{direction};
ghost use Rattle.spline.specs.Multiplicities.{allowed, more, order_multiplicities};
ghost use Rattle.spline.specs.Inner.Limits.{Limits};
ghost use Rattle.checks.specs.Checks.{no_refusal, refuse_at};
ghost use Rattle.shape.specs.Shape.{counted};
ghost use Rattle.orders.specs.Order.{bad_byte, order_checks, build_checks};
ghost use Rattle.orders.specs.Inner.GoodOrder.{GoodOrder};

use checks::Refusal;
use shape::Counts;

// The most repeats of an order.
const REPEATS: usize = 8;

// One repeat of a direction more, of multiplicities within the limits.
fn repeated(c: Counts, d: u8) -> Counts
    requires { Limits (counted c) 12 }
    ensures { counted result ≡ more (direction d) (counted c) }
{
    match d {
        1 => Counts { v1: c.v1 + 1, ..c },
        2 => Counts { v2: c.v2 + 1, ..c },
        3 => Counts { v3: c.v3 + 1, ..c },
        _ => Counts { v4: c.v4 + 1, ..c },
    }
}

// The same of any: those outside of the limits stay as they are.
pub fn one_more(c: Counts, d: u8) -> Counts
    ensures { counted result
        ≡ cond (allowed (counted c)) (more (direction d) (counted c)) (counted c) }
{
    if !allowed::multiplicities_allowed(c.v1, c.v2, c.v3, c.v4) {
        return c;
    }
    repeated(c, d)
}

// The multiplicities that an order leads to.
fn counts_of(order: &[u8]) -> Counts
    requires { GoodOrder order.now }
    ensures { (counted result ≡ order_multiplicities order.now) × Limits (counted result) 12 }
{
    let mut c = Counts {
        v1: 1,
        v2: 1,
        v3: 1,
        v4: 1,
    };
    for &d in order {
        c = repeated(c, d);
    }
    c
}

// Check 2.
fn check_bytes(order: &[u8]) -> Result<(), Refusal>
    ensures { result
        ≡ refuse_at BadByte (first (length order.now) (λ i. bad_byte (get_or order.now i 0)))
        no_refusal }
{
    for (i, &byte) in order.iter().enumerate() {
        if byte < 1 || 4 < byte {
            return Err(Refusal::BadByte(i));
        }
    }
    Ok(())
}

// Checks 1 and 2.
#[tactic(auto, unfolding(crate::specs::Order::order_checks))]
fn check_order(order: &[u8]) -> Result<(), Refusal>
    ensures { result ≡ order_checks order.now }
{
    if REPEATS < order.len() {
        return Err(Refusal::LongOrder);
    }
    check_bytes(order)
}

// Checks 1, 2 and 4, by the lengths of the two slices.
#[tactic(auto, unfolding(crate::specs::Order::build_checks))]
pub fn check_build(order: &[u8], net: usize, work: usize) -> Result<(), Refusal>
    ensures { result ≡ build_checks order.now net work }
{
    check_order(order)?;
    let n = shape::places_of(counts_of(order));
    if net < n || work < n {
        return Err(Refusal::NetRoom);
    }
    Ok(())
}
