// Shares and blended numbers at the local places of a placing, the gaps of its window, and what a blending
// call answers and writes. Definitions and laws, and no code. docs/SPECIFICATION.md, Section 10.
#![tactic(auto)]
