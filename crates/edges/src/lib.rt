// Lines of a direction in a box, from the box's edge: sums along them, and which places of a row are on the
// edge. docs/SPECIFICATION.md, Section 6.3.
#![tactic(auto)]

ghost use Rattle.std.specs.Prelude.{◌≡◌, ◌<◌, ◌≤◌, ◌⊎◌, ℕ};
ghost use Rattle.edges.specs.EdgeWidth.{edge_width};

use shape::Vector;

// How many places of a row are on the edge, where one step of the vector back leaves the box.
pub fn edge_width(v: Vector, w1: usize, y: usize, z: usize) -> usize
    ensures width { result ≡ edge_width v w1 y z }
    ensures most { v.x ≤ w1 → result ≤ w1 }
    ensures leaves { v.x ≤ w1 → (x : ℕ) → x < result → (x < v.x) ⊎ (y < v.y) ⊎ (z < v.z) }
    ensures stays { v.x ≤ w1
        → (x : ℕ) → result ≤ x → x < w1 → (v.x ≤ x) × (v.y ≤ y) × (v.z ≤ z) }
{
    if y < v.y || z < v.z { w1 } else { v.x }
}
