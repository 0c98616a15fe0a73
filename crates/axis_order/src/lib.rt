// The placing of a point that is located on each axis: axis order and weights. Sections 9.3 and 9.4.
#![tactic(auto)]

ghost use Rattle.std.specs.Prelude.{◌≡◌};
ghost use Rattle.axis_order.specs.Weights.{placing_on, weight_sum};

use coordinates::Located;

mod ranking;

// k on the three axes, the axes in the order p, r, s, and the weights, whose sum is D. Any values may stand
// in it; a call that is handed one looks whether the placing call gives it. It is laid out for C.
#[repr(C)]
#[derive(Clone, Copy)]
pub struct Placing {
    pub k1: u32,
    pub k2: u32,
    pub k3: u32,
    pub p: u8,
    pub r: u8,
    pub s: u8,
    pub l0: u32,
    pub l1: u32,
    pub l2: u32,
    pub l3: u32,
}

impl Placing {
    // D, which the weights add up to; past 32 bits too.
    pub fn divisor(self) -> u64
        ensures { result ≡ weight_sum self }
    {
        self.l0 as u64 + self.l1 as u64 + self.l2 as u64 + self.l3 as u64
    }
}

// The placing of a point, located on each axis.
pub fn placing_of(x: Located, y: Located, z: Located, divisor: u32) -> Placing
    ensures { result ≡ placing_on x y z divisor }
{
    let t = ranking::rank(x.remainder, y.remainder, z.remainder);
    Placing {
        k1: x.cell,
        k2: y.cell,
        k3: z.cell,
        p: t.p,
        r: t.r,
        s: t.s,
        l0: divisor.saturating_sub(t.up),
        l1: t.up - t.ur,
        l2: t.ur - t.us,
        l3: t.us,
    }
}
