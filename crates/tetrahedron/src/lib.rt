// The local places of a tetrahedron: one after another, in groups of four, and whether the shares at all of
// them add up. docs/SPECIFICATION.md, Sections 10.1 and 10.6.
#![tactic(auto)]

pub mod group;
pub mod local;
pub mod unity;
