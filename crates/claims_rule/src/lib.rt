// What is demanded of nets by the step rule alone, stated in specs/ over the definitions that the contracts
// cite, and a theorem for each. Definitions and laws, and no code.
#![tactic(auto)]
