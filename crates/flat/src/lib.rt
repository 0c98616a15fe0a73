// The answers of the C interface that carry no unit: flat structs in the place of enums.
// docs/SPECIFICATION.md, Section 12.
#![tactic(auto)]

ghost use Rattle.std.specs.Prelude.{◌≡◌};
ghost use Rattle.flat.specs.Flat.{LiveMade, PlacingMade, PointMade, switched_on};

use answers::{Fraction, LiveValue};
use axis_order::Placing;
use flat_unit::FlatRefusal;

// What a placing call answers: 0, 0 and the placing; or the number and the place of a refusal and zeros.
#[repr(C)]
#[derive(Clone, Copy)]
pub struct FlatPlacingAnswer {
    pub number: u32,
    pub place: usize,
    pub placing: Placing,
}

// What a point call or a valuing call answers: 0, 0 and the fraction; or the number and the place of a
// refusal and zeros.
#[repr(C)]
#[derive(Clone, Copy)]
pub struct FlatPointAnswer {
    pub number: u32,
    pub place: usize,
    pub numerator: i64,
    pub uncertainty: u64,
    pub denominator: u64,
}

// What a live call or a live valuing call answers: 0, 0, N and U, U being +0 where it is switched off; or the
// number and the place of a refusal and +0 for both.
#[repr(C)]
#[derive(Clone, Copy)]
pub struct FlatLiveAnswer {
    pub number: u32,
    pub place: usize,
    pub numerator: f64,
    pub uncertainty: f64,
}

// The answer of a placing call.
impl<R: Into<FlatRefusal> + Copy> From<Result<Placing, R>> for FlatPlacingAnswer {
    ghost from_gives = { λ answer flat. PlacingMade R.converts answer flat };

    fn from(answer: Result<Placing, R>) -> FlatPlacingAnswer {
        match answer {
            Ok(q) => FlatPlacingAnswer {
                number: 0,
                place: 0,
                placing: q,
            },
            Err(refusal) => {
                let flat: FlatRefusal = refusal.into();
                FlatPlacingAnswer {
                    number: flat.number,
                    place: flat.place,
                    placing: Placing {
                        k1: 0,
                        k2: 0,
                        k3: 0,
                        p: 0,
                        r: 0,
                        s: 0,
                        l0: 0,
                        l1: 0,
                        l2: 0,
                        l3: 0,
                    },
                }
            }
        }
    }
}

// The answer of a point call or of a valuing call.
impl<R: Into<FlatRefusal> + Copy> From<Result<Fraction, R>> for FlatPointAnswer {
    ghost from_gives = { λ answer flat. PointMade R.converts answer flat };

    fn from(answer: Result<Fraction, R>) -> FlatPointAnswer {
        match answer {
            Ok(value) => FlatPointAnswer {
                number: 0,
                place: 0,
                numerator: value.numerator,
                uncertainty: value.uncertainty,
                denominator: value.denominator,
            },
            Err(refusal) => {
                let flat: FlatRefusal = refusal.into();
                FlatPointAnswer {
                    number: flat.number,
                    place: flat.place,
                    numerator: 0,
                    uncertainty: 0,
                    denominator: 0,
                }
            }
        }
    }
}

// Whether the byte of a call leaves the uncertainty on: all but 0 do.
pub fn switched_on(flag: u8) -> bool
    ensures { result ≡ switched_on flag }
{
    flag != 0
}

// The answer of a live call or of a live valuing call.
impl<R: Into<FlatRefusal> + Copy> From<Result<LiveValue, R>> for FlatLiveAnswer {
    ghost from_gives = { λ answer flat. LiveMade R.converts answer flat };

    #[tactic(auto, using(floats::proofs::Totals::zero_is))]
    fn from(answer: Result<LiveValue, R>) -> FlatLiveAnswer {
        match answer {
            Ok(LiveValue::Both(floats)) => FlatLiveAnswer {
                number: 0,
                place: 0,
                numerator: floats.numerator,
                uncertainty: floats.uncertainty,
            },
            Ok(LiveValue::Shift(numerator)) => FlatLiveAnswer {
                number: 0,
                place: 0,
                numerator,
                uncertainty: 0.0,
            },
            Err(refusal) => {
                let flat: FlatRefusal = refusal.into();
                FlatLiveAnswer {
                    number: flat.number,
                    place: flat.place,
                    numerator: 0.0,
                    uncertainty: 0.0,
                }
            }
        }
    }
}
