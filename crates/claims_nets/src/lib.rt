// What is demanded of nets, their inspections and the factory's net, stated in specs/ over the definitions
// that the contracts cite, and a theorem for each. Definitions and laws, and no code.
#![tactic(auto)]
