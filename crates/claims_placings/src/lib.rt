// What is demanded of placings alone, stated in specs/ over the definitions that the contracts cite, and a
// theorem for each. Definitions and laws, and no code.
#![tactic(auto)]
