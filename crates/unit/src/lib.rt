// The unit record: which net and which block a correction unit holds. Any values may stand in it.
// docs/SPECIFICATION.md, Section 4.
#![tactic(auto)]

ghost use Rattle.std.specs.Prelude.{◌≡◌};
ghost use Rattle.spline.specs.Multiplicities.{multiplicities};
ghost use Rattle.unit.specs.Gaps.{is_gap};
ghost use Rattle.unit.specs.Unit.{empty_unit, holds_block, holds_net, with_block, with_net};

#[derive(Clone, Copy)]
pub struct Unit {
    pub has_net: bool,
    pub v1: u8,
    pub v2: u8,
    pub v3: u8,
    pub v4: u8,
    pub has_block: bool,
    pub n1: u16,
    pub n2: u16,
    pub n3: u16,
    pub o1: i16,
    pub o2: i16,
    pub o3: i16,
}

impl Unit {
    // The highest degree of a net.
    pub const DEGREE: u32 = allowed::DEGREE;

    // The highest sum of the four multiplicities: it is the degree and 3.
    pub const MULTIPLICITIES: u32 = allowed::MULTIPLICITIES;

    // The largest divisor of a point.
    pub const DIVISOR: u32 = 4096;

    // The largest size of a block on an axis.
    pub const SIZE: u16 = allowed::SIZE;

    // The most entries of a block.
    pub const ENTRIES: u32 = allowed::ENTRIES;

    // The unit that holds neither net nor block.
    pub fn empty() -> Self
        ensures { result ≡ empty_unit }
    {
        Unit {
            has_net: false,
            v1: 0,
            v2: 0,
            v3: 0,
            v4: 0,
            has_block: false,
            n1: 0,
            n2: 0,
            n3: 0,
            o1: 0,
            o2: 0,
            o3: 0,
        }
    }

    // Whether it counts as having a net.
    pub fn holds_net(self) -> bool
        ensures { result ≡ holds_net self }
    {
        let has_net = self.has_net;
        if has_net {
            return allowed::multiplicities_allowed(self.v1, self.v2, self.v3, self.v4);
        }
        false
    }

    // Whether it counts as having a block.
    pub fn holds_block(self) -> bool
        ensures { result ≡ holds_block self }
    {
        let has_block = self.has_block;
        if has_block {
            return allowed::sizes_allowed(self.n1, self.n2, self.n3);
        }
        false
    }

    // The unit with this net; its block half is kept.
    pub fn with_net(mut self, v1: u8, v2: u8, v3: u8, v4: u8) -> Self
        ensures { result ≡ with_net self (multiplicities v1 v2 v3 v4) }
    {
        self.has_net = true;
        self.v1 = v1;
        self.v2 = v2;
        self.v3 = v3;
        self.v4 = v4;
        self
    }

    // The unit with a block of these sizes and this origin; its net half is kept.
    pub fn with_block(mut self, n1: u16, n2: u16, n3: u16, o1: i16, o2: i16, o3: i16) -> Self
        ensures { result ≡ with_block self n1 n2 n3 o1 o2 o3 }
    {
        self.has_block = true;
        self.n1 = n1;
        self.n2 = n2;
        self.n3 = n3;
        self.o1 = o1;
        self.o2 = o2;
        self.o3 = o3;
        self
    }
}

// Whether a correction marks a gap, an entry that was never measured.
pub fn is_gap(correction: i16) -> bool
    ensures { result ≡ is_gap correction }
{
    correction == -32768
}
