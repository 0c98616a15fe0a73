// What is demanded of points in a block with one correction throughout, stated in specs/ over the definitions
// that the contracts cite, and a theorem for each. Definitions and laws, and no code.
#![tactic(auto)]
