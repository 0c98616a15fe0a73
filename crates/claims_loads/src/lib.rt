// What is demanded of loads, stated in specs/ over the definitions that the contracts cite, and a theorem for
// each. Definitions and laws, and no code.
#![tactic(auto)]
