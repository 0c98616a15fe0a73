// The calls for C and for any language that can call C: they take and answer a flat record in the place of a
// unit, and answer a flat struct in the place of an enum. Any bytes may stand in the record.
// include/torskavel.h declares the calls, and says what such a caller owes.
// docs/SPECIFICATION.md, Section 12.
#![tactic(auto)]

ghost use Rattle.std.specs.Prelude.{◌≡◌, length};
ghost use Rattle.spline.specs.Multiplicities.{multiplicities};
ghost use Rattle.builds.specs.Build.{build_answer, build_net, BuildWork};
ghost use Rattle.inspection.specs.Inspect.{inspect_answer};
ghost use Rattle.factory.specs.Factory.{factory_answer, factory_net};
ghost use Rattle.field.specs.Load.{load_answer, load_corrections, load_uncertainties};
ghost use Rattle.placing.specs.Place.{place_answer};
ghost use Rattle.answers.specs.Live.{live_answer, live_valuing_answer};
ghost use Rattle.answers.specs.Point.{point_answer, valuing_answer};
ghost use Rattle.flat_unit.specs.Record.{empty_flat, flat_block, flat_net, unit_of};
ghost use Rattle.flat.specs.Flat.{flat_live, flat_placing, flat_point, switched_on};

use axis_order::Placing;
use blending::lent::Lent;
use flat::{FlatLiveAnswer, FlatPlacingAnswer, FlatPointAnswer};
use flat_unit::{FlatUnit, FlatUnitAnswer};
use placing::Point;

// The record that holds neither net nor block.
#[unsafe(no_mangle)]
pub extern "C" fn torskavel_empty_unit() -> FlatUnit
    ensures { result ≡ empty_flat }
{
    flat_unit::empty_flat()
}

// `net::build`.
#[unsafe(no_mangle)]
pub extern "C" fn torskavel_build(
    unit: FlatUnit,
    order: &[u8],
    net: &mut [u32],
    work: &mut [i32],
) -> FlatUnitAnswer
    ensures answer { result ≡ flat_net unit (build_answer (unit_of unit) order.now
        (length net.old) (length work.old)) }
    ensures net { net.new ≡
        build_net order.now net.old (length work.old) }
    ensures work { BuildWork order.now (length net.old)
        work.old work.new }
{
    flat_unit::flat_net(unit, net::build(unit.into(), order, net, work))
}

// `inspection::inspect`.
#[unsafe(no_mangle)]
pub extern "C" fn torskavel_inspect(
    unit: FlatUnit,
    v1: u8,
    v2: u8,
    v3: u8,
    v4: u8,
    net: &[u32],
    defined: &mut [u32],
    work: &mut [i32],
) -> FlatUnitAnswer
    ensures answer { result ≡ flat_net unit (inspect_answer (unit_of unit) (multiplicities v1 v2 v3 v4)
        net.now (length defined.old) (length work.old)) }
    ensures defined { length defined.new ≡ length defined.old }
    ensures work { length work.new ≡ length work.old }
{
    flat_unit::flat_net(
        unit,
        inspection::inspect(unit.into(), v1, v2, v3, v4, net, defined, work),
    )
}

// `factory::copy`.
#[unsafe(no_mangle)]
pub extern "C" fn torskavel_factory(unit: FlatUnit, net: &mut [u32]) -> FlatUnitAnswer
    ensures answer { result
        ≡ flat_net unit (factory_answer (unit_of unit) (length net.old)) }
    ensures net { net.new ≡ factory_net net.old }
{
    flat_unit::flat_net(unit, factory::copy(unit.into(), net))
}

// `field::load`.
#[unsafe(no_mangle)]
pub extern "C" fn torskavel_load(
    unit: FlatUnit,
    file: &[u8],
    corrections: &mut [i16],
    uncertainties: &mut [u16],
) -> FlatUnitAnswer
    ensures answer { result ≡ flat_block unit (load_answer (unit_of unit) file.now
        corrections.old uncertainties.old) }
    ensures corrections { corrections.new ≡
        load_corrections file.now corrections.old uncertainties.old }
    ensures uncertainties { uncertainties.new ≡
        load_uncertainties file.now corrections.old uncertainties.old }
{
    flat_unit::flat_block(
        unit,
        field::load(unit.into(), file, corrections, uncertainties),
    )
}

// `point::answer`.
#[unsafe(no_mangle)]
pub extern "C" fn torskavel_answer(
    unit: FlatUnit,
    net: &[u32],
    corrections: &[i16],
    uncertainties: &[u16],
    x: i32,
    y: i32,
    z: i32,
    divisor: u32,
) -> FlatPointAnswer
    ensures { result ≡ flat_point (point_answer (unit_of unit) net.now
        corrections.now uncertainties.now x y z divisor) }
{
    let lent = Lent {
        net,
        corrections,
        uncertainties,
    };
    point::answer(unit.into(), lent, Point { x, y, z, divisor }).into()
}

// `live::answer`.
#[unsafe(no_mangle)]
pub extern "C" fn torskavel_live_answer(
    unit: FlatUnit,
    net: &[u32],
    corrections: &[i16],
    uncertainties: &[u16],
    x: i32,
    y: i32,
    z: i32,
    divisor: u32,
    with_uncertainty: u8,
) -> FlatLiveAnswer
    ensures { result ≡ flat_live (live_answer (unit_of unit) net.now corrections.now
        uncertainties.now x y z divisor (switched_on with_uncertainty)) }
{
    let lent = Lent {
        net,
        corrections,
        uncertainties,
    };
    let at = Point { x, y, z, divisor };
    let on = flat::switched_on(with_uncertainty);
    live::answer(unit.into(), lent, at, on).into()
}

// `placing::place`.
#[unsafe(no_mangle)]
pub extern "C" fn torskavel_place(
    unit: FlatUnit,
    x: i32,
    y: i32,
    z: i32,
    divisor: u32,
) -> FlatPlacingAnswer
    ensures { result ≡ flat_placing (place_answer (unit_of unit) x y z divisor) }
{
    placing::place(unit.into(), Point { x, y, z, divisor }).into()
}

// `point::value`.
#[unsafe(no_mangle)]
pub extern "C" fn torskavel_value(
    unit: FlatUnit,
    net: &[u32],
    corrections: &[i16],
    uncertainties: &[u16],
    q: Placing,
) -> FlatPointAnswer
    ensures { result ≡ flat_point (valuing_answer (unit_of unit) net.now
        corrections.now uncertainties.now q) }
{
    let lent = Lent {
        net,
        corrections,
        uncertainties,
    };
    point::value(unit.into(), lent, q).into()
}

// `live::value`.
#[unsafe(no_mangle)]
pub extern "C" fn torskavel_live_value(
    unit: FlatUnit,
    net: &[u32],
    corrections: &[i16],
    uncertainties: &[u16],
    q: Placing,
    with_uncertainty: u8,
) -> FlatLiveAnswer
    ensures { result ≡ flat_live (live_valuing_answer (unit_of unit) net.now
        corrections.now uncertainties.now q (switched_on with_uncertainty)) }
{
    let lent = Lent {
        net,
        corrections,
        uncertainties,
    };
    let on = flat::switched_on(with_uncertainty);
    live::value(unit.into(), lent, q, on).into()
}
