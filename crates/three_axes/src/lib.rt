// Whether three numbers are the three axes in some order. Section 9.7.
#![tactic(auto)]

ghost use Rattle.std.specs.Prelude.{◌≡◌};
ghost use Rattle.three_axes.specs.Axes.{are_axes, is_axis};

fn is_axis(a: u8) -> bool
    ensures { result ≡ is_axis a }
{
    matches!(a, 1..=3)
}

// Whether p, r, s are the three axes in some order.
#[tactic(auto, unfolding(crate::specs::Axes::are_axes))]
pub fn are_axes(p: u8, r: u8, s: u8) -> bool
    ensures { result ≡ are_axes p r s }
{
    is_axis(p) && is_axis(r) && is_axis(s) && p != r && p != s && r != s
}
