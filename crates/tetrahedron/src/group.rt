// An entry's shares at a group of four local places, most often all of them 0.
ghost use Rattle.std.specs.Prelude.{◌≡◌, ◌+◌, eqb};

// Whether four shares are all 0, by their sum.
pub fn all_zero(a: u32, b: u32, c: u32, d: u32) -> bool
    ensures { result ≡ eqb (a + b + c + d) 0 }
{
    a as u64 + b as u64 + c as u64 + d as u64 == 0
}
