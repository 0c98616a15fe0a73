// Parts of the Bernstein sums: the weights of local places, and what the blended numbers add up to with them,
// in specs/, and their laws. No functions.
#![tactic(auto)]

// What some of the terms add to N and U.
#[derive(Clone, Copy)]
pub struct Part {
    pub numerator: i64,
    pub uncertainty: u64,
}
