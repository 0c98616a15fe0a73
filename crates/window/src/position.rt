// Where an entry stands in a window, and the next one in the order of the block's index.
ghost use Rattle.std.specs.Prelude.{◌≡◌, ◌<◌};
ghost use Rattle.window.specs.Positions.{position, position_after};

// Counted from the window's lowest entry.
#[derive(Clone, Copy)]
pub struct Position {
    pub x: usize,
    pub y: usize,
    pub z: usize,
}

impl Position {
    pub fn first() -> Self
        ensures { result ≡ position 0 0 0 }
    {
        Position { x: 0, y: 0, z: 0 }
    }

    // The next one in a window of extents e1, e2; past the 16 layers of the largest window the first, and
    // nothing is promised.
    #[tactic(auto, unfolding(crate::specs::Positions::position_after))]
    pub fn next(self, e1: usize, e2: usize) -> Self
        ensures { self.z < 16 → result ≡ position_after self e1 e2 }
    {
        if self.x < e1.saturating_sub(1) {
            Position {
                x: self.x + 1,
                ..self
            }
        } else if self.y < e2.saturating_sub(1) {
            Position {
                x: 0,
                y: self.y + 1,
                ..self
            }
        } else if self.z < 16 {
            Position {
                x: 0,
                y: 0,
                z: self.z + 1,
            }
        } else {
            Position::first()
        }
    }
}
