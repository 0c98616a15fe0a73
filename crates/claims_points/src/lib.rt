// What is demanded of points and placings, exact and live, stated in specs/ over the definitions that the
// contracts cite, and a theorem for each. Definitions and laws, and no code.
#![tactic(auto)]
