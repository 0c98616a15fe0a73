// What a build answers and leaves in its slices, and how its repeats in turn make the net of its order.
// Definitions and laws, and no code. docs/SPECIFICATION.md, Sections 6.2, 6.3.
#![tactic(auto)]
