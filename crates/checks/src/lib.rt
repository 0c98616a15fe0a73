// Refusals: why a call is refused. Checks answer one as the error of a `Result`; of checks in a row the first
// that applies stops the call. docs/SPECIFICATION.md, Section 5.
#![tactic(auto)]

ghost use Rattle.std.specs.Prelude.{◌≡◌};
ghost use Rattle.checks.specs.Checks.{number_of, place_of};

// What a call is refused for, in the order of the numbers; five speak of a place.
#[derive(Clone, Copy, PartialEq, Eq)]
pub enum Refusal {
    LongOrder,
    BadByte(usize),
    BadMultiplicities,
    NetRoom,
    ShortFile,
    BadSizes,
    BadLength,
    LargeUncertainty(usize),
    BlockRoom,
    BadDivisor,
    LargeScale,
    Outside,
    WindowGap(usize),
    Differing(usize),
    LargeLiveScale,
    UncertainGap(usize),
    ImpossiblePlacing,
    NoNet,
    NoBlock,
    UnevenShares,
}

impl Refusal {
    // Its number in the list of Section 5.3.
    pub fn number(self) -> u32
        ensures { result ≡ number_of self }
    {
        match self {
            Refusal::LongOrder => 1,
            Refusal::BadByte(_) => 2,
            Refusal::BadMultiplicities => 3,
            Refusal::NetRoom => 4,
            Refusal::ShortFile => 5,
            Refusal::BadSizes => 6,
            Refusal::BadLength => 7,
            Refusal::LargeUncertainty(_) => 8,
            Refusal::BlockRoom => 9,
            Refusal::BadDivisor => 10,
            Refusal::LargeScale => 11,
            Refusal::Outside => 12,
            Refusal::WindowGap(_) => 13,
            Refusal::Differing(_) => 14,
            Refusal::LargeLiveScale => 15,
            Refusal::UncertainGap(_) => 16,
            Refusal::ImpossiblePlacing => 17,
            Refusal::NoNet => 21,
            Refusal::NoBlock => 22,
            Refusal::UnevenShares => 23,
        }
    }

    // The place that it speaks of, 0 where it speaks of none.
    pub fn place(self) -> usize
        ensures { result ≡ place_of self }
    {
        match self {
            Refusal::BadByte(place)
            | Refusal::LargeUncertainty(place)
            | Refusal::WindowGap(place)
            | Refusal::Differing(place)
            | Refusal::UncertainGap(place) => place,
            _ => 0,
        }
    }
}
