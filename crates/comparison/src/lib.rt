// Check 14 of an inspection: a net beside the defined one. docs/SPECIFICATION.md, Section 7.
#![tactic(auto)]

ghost use Rattle.std.specs.Prelude.{◌≡◌, ◌≤◌, length};
ghost use Rattle.checks.specs.declared.Refusal.TheVariants.{Differing};
ghost use Rattle.sums.specs.Search.{first};
ghost use Rattle.spline.specs.Box.{places};
ghost use Rattle.checks.specs.Checks.{no_refusal, refuse_at};
ghost use Rattle.shape.specs.Shape.{widths};
ghost use Rattle.shape.specs.Inner.Boxes.{Boxed};
ghost use Rattle.comparison.specs.Compare.{differs, comparison};

use checks::Refusal;
use shape::Shape;

// The lowest index of the box at which two lists differ.
fn first_differing(net: &[u32], defined: &[u32], s: Shape) -> Result<(), Refusal>
    requires { Boxed s × (places (widths s) ≤ length net.now)
        × (places (widths s) ≤ length defined.now) }
    ensures { result
        ≡ refuse_at Differing (first (places (widths s)) (differs net.now defined.now))
        no_refusal }
{
    let w1 = s.w1;
    let w2 = s.w2;
    let w3 = s.w3;
    let mut seen = Ok(());
    let mut i = 0;
    'places: for z in 0..w3 {
        for y in 0..w2 {
            for x in 0..w1 {
                if net[i] != defined[i] {
                    seen = Err(Refusal::Differing(i));
                    break 'places;
                }
                i += 1;
            }
        }
    }
    seen
}

// Check 14, of two slices that hold the box; 4 where one does not.
#[tactic(auto, unfolding(crate::specs::Compare::comparison))]
pub fn compare(net: &[u32], defined: &[u32], s: Shape) -> Result<(), Refusal>
    ensures { result ≡ comparison s net.now defined.now }
{
    if !shape::is_held(s, net.len()) || !shape::is_held(s, defined.len()) {
        return Err(Refusal::NetRoom);
    }
    first_differing(net, defined, s)
}
