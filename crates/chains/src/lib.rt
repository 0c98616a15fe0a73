// Which check of a chain it was that stopped, by its refusal. Laws, and no code.
#![tactic(auto)]
