// Whether the shares of a window add up to the whole, at every local place.
ghost use Rattle.std.specs.Prelude.{◌≡◌, ◌≤◌};
ghost use Rattle.sums.specs.Coefficient.{factorial};
ghost use Rattle.sums.specs.Fill.{number_at};
ghost use Rattle.tetrahedron.specs.Unity.{whole_at};

use crate::local;

const FACTORIAL: [u32; 10] = [1, 1, 2, 6, 24, 120, 720, 5040, 40320, 362880];

// n!
fn factorial_of(n: usize) -> u64
    requires { n ≤ 9 }
    ensures { result ≡ factorial n }
{
    u64::from(FACTORIAL[n])
}

// Whether the sums of shares at the local places of degree m are all m!; past degree 9 there are none.
pub fn adds_up(shares: &[u64; 220], m: usize) -> bool
    ensures { result ≡ whole_at m (number_at shares.now) }
{
    if 9 < m {
        return true;
    }
    let count = local::local_places(m);
    let full = factorial_of(m);
    shares[..count].iter().all(|&share| share == full)
}
