// What is demanded of all calls, their refusals and the C interface, stated in specs/ over the definitions
// that the contracts cite, and a theorem for each. Definitions and laws, and no code.
#![tactic(auto)]
