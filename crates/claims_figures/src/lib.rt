// The figures that were worked by hand, stated in specs/ over the definitions that the contracts cite, and a
// theorem for each list. Definitions and laws, and no code.
#![tactic(auto)]
