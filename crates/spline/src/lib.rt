// The mathematics of the nets: places, the step rule, what an order builds, the defined net and its
// box, with their laws at every whole-number place. Definitions and laws, and no code.
#![tactic(auto)]
