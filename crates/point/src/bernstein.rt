// The Bernstein sums N and U over the blended numbers of a point's local places.
ghost use Rattle.std.specs.Prelude.{◌≡◌, ◌*◌, ◌+◌, ◌-◌, ◌<◌, ◌^◌, ◌≤◌, ℕ, nat_abs, get_or};
ghost use Rattle.sums.specs.Fill.{number_at, signed_at};
ghost use Rattle.divisor_checks.specs.Divisor.{limit, scale};
ghost use Rattle.axis_order.specs.Weights.{weight_sum};
ghost use Rattle.binomials.specs.Binomials.{Binomials, binomial_table};
ghost use Rattle.answers.specs.Bernstein.{term_weight};
ghost use Rattle.parts.specs.Parts.{BlendedSizes, add_parts, parts_to, weighed};
ghost use Rattle.parts.specs.Weights.{Scaled, Tables, WithinDegree, factor};

use axis_order::Placing;
use parts::Part;
use tetrahedron::local;
use tetrahedron::local::LocalPlace;

// The powers 0 to m of a number.
fn powers(base: u64, m: usize) -> [u64; 10]
    requires { (m ≤ 9) × ((i : ℕ) → i ≤ m → base ^ i ≤ limit) }
    ensures { (i : ℕ) → i ≤ m → get_or result i 0 ≡ base ^ i }
{
    let mut p = [1u64; 10];
    for i in 0..m {
        p[i + 1] = p[i] * base;
    }
    p
}

// A placing at degree m, with what the weights of its local places are made of: the binomials, and the powers
// of L0 to L3.
#[derive(Clone, Copy)]
struct Weights<'a> {
    m: usize,
    q: Placing,
    table: &'a [[u8; 10]; 10],
    x0: &'a [u64; 10],
    x1: &'a [u64; 10],
    x2: &'a [u64; 10],
    x3: &'a [u64; 10],
    ghost scaled: { Scaled m q },
    ghost binomials: { Binomials table.now },
    ghost powers: { Tables m q (number_at x0.now) (number_at x1.now) (number_at x2.now) (number_at x3.now) },
}

impl<'a> Weights<'a> {
    // w × C(n, k) × x^(n−k), from the powers of x.
    fn with_factor(self, w: u64, n: usize, k: usize, x: &[u64; 10]) -> u64
        requires { (k ≤ n) × (n ≤ 9) × (factor (number_at x.now) n k ≤ limit)
            × (w * factor (number_at x.now) n k ≤ limit) }
        ensures { result ≡ w * factor (number_at x.now) n k }
    {
        w * (self.table[n][k] as u64 * x[n - k])
    }

    // The weight of a local place.
    fn weight(self, l: LocalPlace) -> u64
        requires { WithinDegree self.m l }
        ensures { (result
            ≡ term_weight self.entry.m self.entry.q (self.entry.m - l.p) (l.p - l.r) (l.r - l.s) l.s)
            × (result ≤ limit) }
    {
        let s = l.s;
        let w = self.with_factor(1, self.m, l.p, self.x0);
        let w = self.with_factor(w, l.p, l.r, self.x1);
        let w = self.with_factor(w, l.r, s, self.x2);
        w * self.x3[s]
    }
}

// The blended numbers times a weight.
fn term(shift: i64, spread: u64, w: u64) -> Part
    requires { (nat_abs shift < 2 ^ 63) × (nat_abs shift * w < 2 ^ 63) × (w < 2 ^ 63)
        × (spread * w < 2 ^ 64) }
    ensures { result ≡ weighed shift spread w }
{
    Part {
        numerator: shift * w as i64,
        uncertainty: spread * w,
    }
}

fn joined(s: Part, t: Part) -> Part
    requires { (nat_abs s.numerator + nat_abs t.numerator < 2 ^ 63)
        × (s.uncertainty + t.uncertainty < 2 ^ 64) }
    ensures { result ≡ add_parts s t }
{
    Part {
        numerator: s.numerator + t.numerator,
        uncertainty: s.uncertainty + t.uncertainty,
    }
}

// The sums over the local places of degree m, whose blended numbers the two arrays begin with.
pub(crate) fn bernstein_sums(
    m: usize,
    q: Placing,
    shifts: &[i64; 220],
    spreads: &[u64; 220],
) -> Part
    requires { Scaled m q × BlendedSizes m (signed_at shifts.now) (number_at spreads.now) }
    ensures { result ≡ parts_to m q (signed_at shifts.now) (number_at spreads.now) }
{
    let table = binomials::table();
    let x0 = powers(q.l0 as u64, m);
    let x1 = powers(q.l1 as u64, m);
    let x2 = powers(q.l2 as u64, m);
    let x3 = powers(q.l3 as u64, m);
    let weights = Weights {
        m,
        q,
        table: &table,
        x0: &x0,
        x1: &x1,
        x2: &x2,
        x3: &x3,
    };
    let count = local::local_places(m);
    let mut sum = Part {
        numerator: 0,
        uncertainty: 0,
    };
    let mut l = LocalPlace::first();
    for t in 0..count {
        let w = weights.weight(l);
        sum = joined(sum, term(shifts[t], spreads[t], w));
        l = l.next();
    }
    sum
}

// m!×D^m
pub(crate) fn denominator(m: usize, q: Placing) -> u64
    requires { Scaled m q }
    ensures { result ≡ scale m (weight_sum q) }
{
    let d = q.divisor();
    let mut product: u64 = 1;
    for i in 1..=m as u64 {
        product *= i * d;
    }
    product
}
