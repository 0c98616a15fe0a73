// The Bernstein sums N and U in floats: of each weight powers and binomials first, then their product, then
// this times the blended numbers.
ghost use Rattle.std.specs.Prelude.{◌≡◌, ◌*◌, ◌-◌, ◌≤◌, ℕ, nat_abs, pos};
ghost use Rattle.std.specs.Float.{binary64};
ghost use Rattle.std.specs.Float.Ieee.{mul};
ghost use Rattle.sums.specs.Coefficient.{binomial};
ghost use Rattle.sums.specs.Fill.{number_at, signed_at};
ghost use Rattle.divisor_checks.specs.Divisor.{limit, live_limit, scale};
ghost use Rattle.axis_order.specs.Weights.{weight_sum};
ghost use Rattle.binomials.specs.Binomials.{binomial_table};
ghost use Rattle.floats.specs.Floats.{exact, float, float_at};
ghost use Rattle.answers.specs.Bernstein.{term_weight};
ghost use Rattle.parts.specs.Parts.{BlendedSizes, parts_to};
ghost use Rattle.parts.specs.Weights.{Scaled, WithinDegree};
ghost use Rattle.live.specs.Inner.Floats.{FloatTables};

use answers::Floats;
use axis_order::Placing;
use tetrahedron::local;
use tetrahedron::local::LocalPlace;

// A placing at degree m, with what the weights of its local places are made of: the binomials, and the powers
// of L0 to L3.
#[derive(Clone, Copy)]
struct Weights<'a> {
    m: usize,
    q: Placing,
    table: &'a [[u8; 10]; 10],
    x0: &'a [f64; 10],
    x1: &'a [f64; 10],
    x2: &'a [f64; 10],
    x3: &'a [f64; 10],
    ghost scaled: { Scaled m q },
    ghost binomials: { table.now ≡ binomial_table },
    ghost powers: { FloatTables m q (float_at x0.now) (float_at x1.now) (float_at x2.now)
        (float_at x3.now) },
}

impl<'a> Weights<'a> {
    // C(n, k) × x^(n−k), from the powers of x, for whatever number the power is.
    fn factor(self, n: usize, k: usize, x: &[f64; 10]) -> f64
        requires { (k ≤ n) × (n ≤ 9) }
        ensures { (power : ℕ) → power ≤ limit → float_at x.now (n - k) ≡ float (pos power)
            → result ≡ float (pos (binomial n k * power)) }
    {
        self.table[n][k] as f64 * x[n - k]
    }

    // The weight of a local place.
    fn weight(self, l: LocalPlace) -> f64
        requires { WithinDegree self.m l }
        ensures { result ≡ float (pos (term_weight self.entry.m self.entry.q
            (self.entry.m - l.p) (l.p - l.r) (l.r - l.s) l.s)) }
    {
        let s = l.s;
        let w0 = self.factor(self.m, l.p, self.x0);
        let w1 = self.factor(l.p, l.r, self.x1);
        let w2 = self.factor(l.r, s, self.x2);
        w0 * w1 * w2 * self.x3[s]
    }
}

// The blended numbers times a weight. An unsigned number is turned by way of a signed one, which is faster.
fn term(shift: i64, spread: u64, w: f64) -> Floats
    requires { (nat_abs shift ≤ exact) × (spread ≤ exact) }
    ensures { (result.numerator ≡ mul binary64 (float shift) w)
        × (result.uncertainty ≡ mul binary64 (float (pos spread)) w) }
{
    let x = shift as f64;
    let y = spread as i64 as f64;
    Floats {
        numerator: x * w,
        uncertainty: y * w,
    }
}

// The sums over the local places of degree m, whose blended numbers the two arrays begin with. The first of
// them has the weight L0^m. A term is −0 where its number is negative and its weight 0, so the first one
// too is added to +0.
pub(crate) fn float_sums(m: usize, q: Placing, shifts: &[i64; 220], spreads: &[u64; 220]) -> Floats
    requires { Scaled m q × (scale m (weight_sum q) ≤ live_limit)
        × BlendedSizes m (signed_at shifts.now) (number_at spreads.now) }
    ensures { (result.numerator ≡ float
        (parts_to m q (signed_at shifts.now) (number_at spreads.now)).numerator)
        × (result.uncertainty ≡ float (pos
        (parts_to m q (signed_at shifts.now) (number_at spreads.now)).uncertainty)) }
{
    let table = binomials::table();
    let x0 = floats::powers(q.l0, m);
    let x1 = floats::powers(q.l1, m);
    let x2 = floats::powers(q.l2, m);
    let x3 = floats::powers(q.l3, m);
    let weights = Weights {
        m,
        q,
        table: &table,
        x0: &x0,
        x1: &x1,
        x2: &x2,
        x3: &x3,
    };
    let count = local::local_places(m);
    let first = term(shifts[0], spreads[0], x0[m]);
    let n = first.numerator;
    let u = first.uncertainty;
    let mut numerator = 0.0 + n;
    let mut uncertainty = 0.0 + u;
    let mut l = LocalPlace::first().next();
    for t in 1..count {
        let w = weights.weight(l);
        let part = term(shifts[t], spreads[t], w);
        numerator += part.numerator;
        uncertainty += part.uncertainty;
        l = l.next();
    }
    Floats {
        numerator,
        uncertainty,
    }
}
