// The unit record of the C interface, a flat struct with bytes as flags, and the answers that carry one. Any
// bytes may stand in a record. docs/SPECIFICATION.md, Section 12.
#![tactic(auto)]

ghost use Rattle.std.specs.Prelude.{◌≡◌};
ghost use Rattle.flat_unit.specs.Record.{UnitMade, block_half, changed_by, empty_flat, flat_refusal};
ghost use Rattle.flat_unit.specs.Record.{net_half, unit_of};

use checks::Refusal;
use unit::Unit;

// The unit record with bytes as flags. 1 says present; every other byte counts as absent.
#[repr(C)]
#[derive(Clone, Copy)]
pub struct FlatUnit {
    pub has_net: u8,
    pub v1: u8,
    pub v2: u8,
    pub v3: u8,
    pub v4: u8,
    pub has_block: u8,
    pub n1: u16,
    pub n2: u16,
    pub n3: u16,
    pub o1: i16,
    pub o2: i16,
    pub o3: i16,
}

// A refusal by its number and its place, whatever they are: what a flat answer tells of it.
#[derive(Clone, Copy)]
pub struct FlatRefusal {
    pub number: u32,
    pub place: usize,
}

impl From<Refusal> for FlatRefusal {
    ghost from_gives = { λ refusal flat. flat ≡ flat_refusal refusal };

    fn from(refusal: Refusal) -> FlatRefusal {
        FlatRefusal {
            number: refusal.number(),
            place: refusal.place(),
        }
    }
}

// What a call that changes the unit answers: 0, 0 and the changed record; or the number and the place of
// a refusal and the record as it was handed in.
#[repr(C)]
#[derive(Clone, Copy)]
pub struct FlatUnitAnswer {
    pub number: u32,
    pub place: usize,
    pub unit: FlatUnit,
}

// The record that holds neither net nor block.
pub fn empty_flat() -> FlatUnit
    ensures { result ≡ empty_flat }
{
    FlatUnit {
        has_net: 0,
        v1: 0,
        v2: 0,
        v3: 0,
        v4: 0,
        has_block: 0,
        n1: 0,
        n2: 0,
        n3: 0,
        o1: 0,
        o2: 0,
        o3: 0,
    }
}

// The unit that a record stands for.
impl From<FlatUnit> for Unit {
    ghost from_gives = { λ flat unit. unit ≡ unit_of flat };

    fn from(flat: FlatUnit) -> Unit {
        Unit {
            has_net: flat.has_net == 1,
            v1: flat.v1,
            v2: flat.v2,
            v3: flat.v3,
            v4: flat.v4,
            has_block: flat.has_block == 1,
            n1: flat.n1,
            n2: flat.n2,
            n3: flat.n3,
            o1: flat.o1,
            o2: flat.o2,
            o3: flat.o3,
        }
    }
}

impl FlatUnit {
    // The record with the net of a unit; its block half is kept.
    fn with_net(self, unit: Unit) -> Self
        ensures { result ≡ net_half self unit }
    {
        FlatUnit {
            has_net: 1,
            v1: unit.v1,
            v2: unit.v2,
            v3: unit.v3,
            v4: unit.v4,
            ..self
        }
    }

    // The record with the block of a unit; its net half is kept.
    fn with_block(self, unit: Unit) -> Self
        ensures { result ≡ block_half self unit }
    {
        FlatUnit {
            has_block: 1,
            n1: unit.n1,
            n2: unit.n2,
            n3: unit.n3,
            o1: unit.o1,
            o2: unit.o2,
            o3: unit.o3,
            ..self
        }
    }
}

impl FlatUnitAnswer {
    // The changed record, or what the refusal turns into and the record `before`.
    fn of<R: Into<FlatRefusal> + Copy>(before: FlatUnit, changed: Result<FlatUnit, R>) -> Self
        ensures { UnitMade R.converts before changed result }
    {
        match changed {
            Ok(unit) => FlatUnitAnswer {
                number: 0,
                place: 0,
                unit,
            },
            Err(refusal) => {
                let flat: FlatRefusal = refusal.into();
                FlatUnitAnswer {
                    number: flat.number,
                    place: flat.place,
                    unit: before,
                }
            }
        }
    }
}

// The answer of a call that changes the net half of the record `before`.
pub fn flat_net<R: Into<FlatRefusal> + Copy>(
    before: FlatUnit,
    answer: Result<Unit, R>,
) -> FlatUnitAnswer
    ensures { UnitMade R.converts before (changed_by (net_half before) answer) result }
{
    FlatUnitAnswer::of(before, answer.map(|after| before.with_net(after)))
}

// The answer of a call that changes the block half of the record `before`.
pub fn flat_block<R: Into<FlatRefusal> + Copy>(
    before: FlatUnit,
    answer: Result<Unit, R>,
) -> FlatUnitAnswer
    ensures { UnitMade R.converts before (changed_by (block_half before) answer) result }
{
    FlatUnitAnswer::of(before, answer.map(|after| before.with_block(after)))
}
