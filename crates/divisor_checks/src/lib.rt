// The checks of a divisor: 10, 11 and 15. Section 5.3.
#![tactic(auto)]

ghost use Rattle.std.specs.Prelude.{◌||◌, ◌≡◌, ◌≤◌, eqb, leb, ltb};
ghost use Rattle.checks.specs.declared.Refusal.TheVariants.{BadDivisor};
ghost use Rattle.checks.specs.Checks.{no_refusal, refuse_if};
ghost use Rattle.unit.specs.Unit.{net_of};
ghost use Rattle.divisor_checks.specs.Inner.Largest.{Largest};
ghost use Rattle.divisor_checks.specs.Divisor.{divisor_checks, limit, live_divisor_checks, live_limit};
ghost use Rattle.divisor_checks.specs.Divisor.{scale};

use checks::Refusal;
use shape::Counts;
use unit::Unit;

// The largest m!×D^m of an exact answer, 2^48, and of a live one, 2^37.
const SCALE: u64 = 281474976710656;

const LIVE_SCALE: u64 = 137438953472;

// Whether m!×D^m is at most so large. The product of the first factors is no larger than the whole one, so
// the first that is above decides, and none on the way overflows.
fn scale_allowed(m: usize, divisor: u64, most: u64) -> bool
    requires { (m ≤ 1017) × (1 ≤ divisor) × (divisor ≤ 4096) × (1 ≤ most) × (most ≤ limit) }
    ensures { result ≡ leb (scale m divisor) most }
{
    let mut product: u64 = 1;
    for i in 1..=m as u64 {
        let part = product * i;
        if most < part {
            return false;
        }
        product = part * divisor;
        if most < product {
            return false;
        }
    }
    true
}

// The largest divisor of an exact call, by the degree up to 9; none is above 4096. A choice in the code and
// no table, which would be laid out on the stack.
fn exact_largest(m: usize) -> u64
    ensures { Largest limit m result }
{
    match m {
        0..=3 => 4096,
        4 => 1850,
        5 => 297,
        6 => 85,
        7 => 34,
        8 => 17,
        _ => 9,
    }
}

// That of a live call.
fn live_largest(m: usize) -> u64
    ensures { Largest live_limit m result }
{
    match m {
        0..=2 => 4096,
        3 => 2840,
        4 => 275,
        5 => 64,
        6 => 23,
        7 => 11,
        8 => 6,
        _ => 4,
    }
}

// Whether m!×D^m is at most so large, by the largest such divisor up to degree 9, which all nets have: a
// point asks for it several times.
fn within(m: usize, divisor: u64, most: u64, largest: u64) -> bool
    requires { (m ≤ 1017) × (1 ≤ divisor) × (divisor ≤ 4096) × (1 ≤ most) × (most ≤ limit)
        × Largest most m largest }
    ensures { result ≡ leb (scale m divisor) most }
{
    if m <= 9 {
        divisor <= largest
    } else {
        scale_allowed(m, divisor, most)
    }
}

// Refuses where m!×D^m is larger.
fn check_scale(
    m: usize,
    divisor: u64,
    refusal: Refusal,
    most: u64,
    largest: u64,
) -> Result<(), Refusal>
    requires { (m ≤ 1017) × (1 ≤ divisor) × (divisor ≤ 4096) × (1 ≤ most) × (most ≤ limit)
        × Largest most m largest }
    ensures { result ≡ refuse_if refusal (ltb most (scale m divisor)) no_refusal }
{
    if !within(m, divisor, most, largest) {
        return Err(refusal);
    }
    Ok(())
}

// Check 10.
fn check_range(divisor: u64) -> Result<(), Refusal>
    ensures { result ≡ refuse_if BadDivisor (eqb divisor 0 || ltb 4096 divisor) no_refusal }
{
    if divisor == 0 {
        return Err(Refusal::BadDivisor);
    }
    if (Unit::DIVISOR as u64) < divisor {
        return Err(Refusal::BadDivisor);
    }
    Ok(())
}

// Checks 10 and 11, of a divisor or of a sum of weights, which may be past 32 bits.
#[tactic(auto, unfolding(crate::specs::Divisor::divisor_checks))]
pub fn check_divisor(unit: Unit, divisor: u64) -> Result<(), Refusal>
    ensures { result ≡ divisor_checks (net_of unit) divisor }
{
    check_range(divisor)?;
    let m = shape::degree_of(Counts::of_unit(unit));
    check_scale(m, divisor, Refusal::LargeScale, SCALE, exact_largest(m))
}

// Checks 10, 11 and 15.
#[tactic(auto, unfolding(crate::specs::Divisor::live_divisor_checks, crate::specs::Divisor::live_scale_check, crate::specs::Divisor::divisor_checks))]
pub fn check_live_divisor(unit: Unit, divisor: u64) -> Result<(), Refusal>
    ensures { result ≡ live_divisor_checks (net_of unit) divisor }
{
    check_range(divisor)?;
    let m = shape::degree_of(Counts::of_unit(unit));
    let exact = check_scale(m, divisor, Refusal::LargeScale, SCALE, exact_largest(m));
    let live = check_scale(
        m,
        divisor,
        Refusal::LargeLiveScale,
        LIVE_SCALE,
        live_largest(m),
    );
    exact.and(live)
}
