// The order of the axes by their remainders. Section 9.3.
ghost use Rattle.std.specs.Prelude.{◌≡◌};
ghost use Rattle.axis_order.specs.Inner.Ranking.{ranked, third_among};

// The axes p, r, s and their remainders.
#[derive(Clone, Copy)]
pub(crate) struct Ranking {
    pub(crate) p: u8,
    pub(crate) r: u8,
    pub(crate) s: u8,
    pub(crate) up: u32,
    pub(crate) ur: u32,
    pub(crate) us: u32,
}

// Axis 3 among two axes in order, a first, each given by its number and its remainder.
#[tactic(auto, unfolding(crate::specs::Inner::Ranking::third_among))]
fn with_third(a: u8, ua: u32, b: u8, ub: u32, u3: u32) -> Ranking
    ensures { result ≡ third_among a ua b ub u3 }
{
    if u3 <= ub {
        Ranking {
            p: a,
            r: b,
            s: 3,
            up: ua,
            ur: ub,
            us: u3,
        }
    } else if u3 <= ua {
        Ranking {
            p: a,
            r: 3,
            s: b,
            up: ua,
            ur: u3,
            us: ub,
        }
    } else {
        Ranking {
            p: 3,
            r: a,
            s: b,
            up: u3,
            ur: ua,
            us: ub,
        }
    }
}

// The axes with the largest remainder first, ties by the lower axis.
pub(crate) fn rank(u1: u32, u2: u32, u3: u32) -> Ranking
    ensures { result ≡ ranked u1 u2 u3 }
{
    if u2 <= u1 {
        with_third(1, u1, 2, u2, u3)
    } else {
        with_third(2, u2, 1, u1, u3)
    }
}
