// The window of a placing: its entries' positions one after another, and what a search for its gaps has
// found. docs/SPECIFICATION.md, Sections 10.2 and 10.5.
#![tactic(auto)]

pub mod gap;
pub mod position;
