// The numbers of the defined net of 2, 2, 2, 1, computed once for all checks of the table in `factory`. Laws,
// and no code.
#![tactic(auto)]
