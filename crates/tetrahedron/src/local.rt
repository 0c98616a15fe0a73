// The local places of a tetrahedron, in the order in which every list of them stands.
ghost use Rattle.std.specs.Prelude.{◌≡◌};
ghost use Rattle.tetrahedron.specs.LocalPlaces.{local_after, local_at, local_places};

// How far a local place lies along the axes p, r and s, along each no farther than along the one before.
#[derive(Clone, Copy)]
pub struct LocalPlace {
    pub p: usize,
    pub r: usize,
    pub s: usize,
}

impl LocalPlace {
    #[tactic(auto, unfolding(crate::specs::LocalPlaces::local_at))]
    pub fn first() -> Self
        ensures { result ≡ local_at 0 }
    {
        LocalPlace { p: 0, r: 0, s: 0 }
    }

    // The next one; after the last of degree 9 the first.
    #[tactic(auto, unfolding(crate::specs::LocalPlaces::local_after, crate::specs::LocalPlaces::local_at))]
    pub fn next(self) -> Self
        ensures { result ≡ local_after self }
    {
        if self.s < self.r {
            LocalPlace {
                s: self.s + 1,
                ..self
            }
        } else if self.r < self.p {
            LocalPlace {
                r: self.r + 1,
                s: 0,
                ..self
            }
        } else if self.p < 9 {
            LocalPlace {
                p: self.p + 1,
                r: 0,
                s: 0,
            }
        } else {
            LocalPlace::first()
        }
    }
}

const LOCAL_PLACES: [usize; 10] = [1, 4, 10, 20, 35, 56, 84, 120, 165, 220];

// How many a degree has; past degree 9 none.
pub fn local_places(m: usize) -> usize
    ensures { result ≡ local_places m }
{
    if 9 < m {
        return 0;
    }
    LOCAL_PLACES[m]
}
