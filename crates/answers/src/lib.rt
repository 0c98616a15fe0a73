// What points and placings are answered with, exact and live: the kinds of answers, their definitions in
// specs/ (Section 11), and laws on placing and valuing in turn. No functions.
#![tactic(auto)]

// The exact fraction of an answered point: N and U over m!×D^m, unreduced.
#[derive(Clone, Copy)]
pub struct Fraction {
    pub numerator: i64,
    pub uncertainty: u64,
    pub denominator: u64,
}

// N and U of an answered point as 64-bit floats.
#[derive(Clone, Copy)]
pub struct Floats {
    pub numerator: f64,
    pub uncertainty: f64,
}

// What a live call answers a point with: both floats, or N alone where the uncertainty is switched off.
#[derive(Clone, Copy)]
pub enum LiveValue {
    Both(Floats),
    Shift(f64),
}
