// The order that defines a net, as bytes: 1s, 3s, 2s, 4s. docs/SPECIFICATION.md, Section 3.7.
#![tactic(auto)]

ghost use Rattle.std.specs.Prelude.{◌≡◌};
ghost use Rattle.sums.specs.Fill.{tabulate};
ghost use Rattle.shape.specs.Shape.{counted};
ghost use Rattle.defined_order.specs.Bytes.{defined_byte};

use shape::Counts;
use std::array;

// The byte at a position.
fn byte_at(c: Counts, i: usize) -> u8
    ensures { result ≡ defined_byte (counted c) i }
{
    let ones = usize::from(c.v1.saturating_sub(1));
    let threes = ones + usize::from(c.v3.saturating_sub(1));
    let twos = threes + usize::from(c.v2.saturating_sub(1));
    if i < ones {
        1
    } else if i < threes {
        3
    } else if i < twos {
        2
    } else {
        4
    }
}

// Its first eight bytes; past its end there are 4s.
pub fn bytes_of(c: Counts) -> [u8; 8]
    ensures { result ≡ tabulate (defined_byte (counted c)) 8 }
{
    array::from_fn(move |i| byte_at(c, i))
}
