// Which multiplicities and which sizes of a block are allowed. docs/SPECIFICATION.md, Sections 2.2, 4.3.
#![tactic(auto)]

ghost use Rattle.std.specs.Prelude.{◌≡◌};
ghost use Rattle.spline.specs.Multiplicities.{allowed, multiplicities};
ghost use Rattle.allowed.specs.Allowed.{size_allowed, sizes_allowed};

// The highest degree of a net.
pub const DEGREE: u32 = 9;

// The highest sum of the four multiplicities: it is the degree and 3.
pub const MULTIPLICITIES: u32 = DEGREE + 3;

// The largest size of a block on an axis.
pub const SIZE: u16 = 64;

// The most entries of a block.
pub const ENTRIES: u32 = 4096;

// Whether four multiplicities are within their limits.
#[tactic(auto, unfolding(spline::specs::Multiplicities::allowed))]
pub fn multiplicities_allowed(v1: u8, v2: u8, v3: u8, v4: u8) -> bool
    ensures { result ≡ allowed (multiplicities v1 v2 v3 v4) }
{
    let sum = v1 as u32 + v2 as u32 + v3 as u32 + v4 as u32;
    v1 != 0 && v2 != 0 && v3 != 0 && v4 != 0 && sum <= MULTIPLICITIES
}

// Whether a size is within its limits.
#[tactic(auto, unfolding(crate::specs::Allowed::size_allowed))]
fn size_allowed(n: u16) -> bool
    ensures { result ≡ size_allowed n }
{
    (1..=SIZE).contains(&n)
}

// Whether three sizes, and the number of their entries, are within their limits.
#[tactic(auto, unfolding(crate::specs::Allowed::sizes_allowed))]
pub fn sizes_allowed(n1: u16, n2: u16, n3: u16) -> bool
    ensures { result ≡ sizes_allowed n1 n2 n3 }
{
    size_allowed(n1)
        && size_allowed(n2)
        && size_allowed(n3)
        && n1 as u32 * n2 as u32 * n3 as u32 <= ENTRIES
}
