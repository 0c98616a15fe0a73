// Whole numbers as 64-bit floats: the powers of a weight, and the laws that sums and products within 2^53 are
// exact.
#![tactic(auto)]

ghost use Rattle.std.specs.Prelude.{◌≡◌, ◌^◌, ◌≤◌, pos, ℕ};
ghost use Rattle.floats.specs.Floats.{exact, float, float_at};
ghost use Rattle.floats.specs.Powers.{float_powers};

// The powers 0 to m of a number, for m up to 9, and ones behind.
pub fn powers(base: u32, m: usize) -> [f64; 10]
    ensures table { result ≡ float_powers base m }
    ensures exact_within { (m ≤ 9) × ((i : ℕ) → i ≤ m → base ^ i ≤ exact)
        → (i : ℕ) → i ≤ m → float_at result i ≡ float (pos (base ^ i)) }
{
    let x = base as f64;
    let mut p = [1.0f64; 10];
    if m > 9 {
        return p;
    }
    for i in 0..m {
        p[i + 1] = p[i] * x;
    }
    p
}
