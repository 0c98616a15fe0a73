// What program `shares` prints (docs/SPECIFICATION.md, Section 13), as text in a lent slice: the lines of the
// net that a typed order builds, or the line of its refusal.
#![tactic(auto)]

ghost use Rattle.std.specs.Prelude.{◌≡◌, ◌++◌, ◌≤◌, ℕ, drop, get_or, length, take};
ghost use Rattle.text.specs.Put.{Put};
ghost use Rattle.unit.specs.Unit.{net_of};
ghost use Rattle.input.specs.Reading.{held};
ghost use Rattle.listing.specs.Inner.Fit.{Lines, Listed};
ghost use Rattle.listing.specs.Print.{net_text, places_text, printed, printed_order};

use input::Typed;
use shape::Counts;
use unit::Unit;

// The most places of a box whose net is listed.
pub const PLACES: usize = 9261;

// Room for every text: a first line of at most 22 bytes, and at most 16 for each place.
pub const ROOM: usize = 22 + 16 * PLACES;

// The lines of the places of a box, in index order.
fn put_places(out: &mut [u8], start: usize, net: &[u32], w1: usize, w2: usize, w3: usize) -> usize
    requires { Lines w1 w2 w3 net.now }
    ensures { Put (places_text w1 w2 w3 (λ (i : ℕ). get_or net.now i 0))
        out.old out.new start result }
{
    let n = w1 * w2 * w3;
    let mut at = start;
    for (i, &number) in net[..n].iter().enumerate() {
        let q = i / w1;
        at = lines::put_place(out, at, i % w1, q % w2, q / w2, number);
    }
    at
}

// The lines of a unit's net.
fn put_net(out: &mut [u8], unit: Unit, net: &[u32]) -> usize
    requires { Listed unit net.now }
    ensures { Put (net_text (net_of unit) (λ (i : ℕ). get_or net.now i 0))
        out.old out.new 0 result }
{
    let s = shape::shape_of(Counts::of_unit(unit));
    let at = lines::put_header(out, s.w1, s.w2, s.w3, s.m);
    put_places(out, at, net, s.w1, s.w2, s.w3)
}

// The text of an order.
fn print_order(order: &[u8], out: &mut [u8]) -> usize
    ensures { Put (printed_order order.now) out.old out.new 0 result
        × (length (printed_order order.now) ≤ 148198) }
{
    let mut net = [0u32; PLACES];
    let mut work = [0i32; PLACES];
    match net::build(Unit::empty(), order, &mut net, &mut work) {
        Ok(unit) => put_net(out, unit, &net),
        Err(refusal) => lines::put_refusal(out, refusal.number()),
    }
}

// Puts what is printed for the typed bytes at the start of a slice, and answers its length. An order's first
// nine bytes decide: a longer one is refused whatever they are. The last clause follows from the others: with
// it a caller lends the text, `&out[..n]`, without a proof.
pub fn print(typed: &[u8], out: &mut [u8; ROOM]) -> usize
    ensures length { result ≡ length (printed typed.now) }
    ensures text { out.new ≡ printed typed.now ++ drop result out.old }
    ensures counted { (result ≤ length out.new) × (result ≡ length (take result out.new)) }
{
    let mut order = [0u8; 9];
    let n = input::read_order(typed, &mut order);
    print_order(&order[..n], out)
}

// `print` for the bytes that were read.
pub fn print_typed(typed: Typed, out: &mut [u8; ROOM]) -> usize
    ensures length { result ≡ length (printed (held typed)) }
    ensures text { out.new ≡ printed (held typed) ++ drop result out.old }
    ensures counted { (result ≤ length out.new) × (result ≡ length (take result out.new)) }
{
    print(typed.as_slice(), out)
}
