// What is typed into program `shares` (docs/SPECIFICATION.md, Sections 13.1 and 13.3): the bytes as they are
// read, one by one until no more can matter, and the order that they stand for.
#![tactic(auto)]

ghost use Rattle.std.specs.Prelude.{[], ◌≡◌, ◌≤◌, min, ℕ, get_or, length};
ghost use Rattle.input.specs.declared.TheConstants.{DECISIVE};
ghost use Rattle.sums.specs.Fill.{filled};
ghost use Rattle.input.specs.Order.{digit_number, order_length};

// Typed bytes past so many change nothing of what is printed.
const DECISIVE: usize = 10;

// The typed bytes that have been read so far, one by one: the first `count` of `bytes`.
#[derive(Clone, Copy)]
pub struct Typed {
    bytes: [u8; DECISIVE],
    count: usize,
    ghost within: { count ≤ DECISIVE },
}

// A digit's number; 0 for any other byte.
#[tactic(auto, unfolding(crate::specs::Order::digit_number))]
fn digit_number(b: u8) -> u8
    ensures { result ≡ digit_number b }
{
    match b {
        b'0'..=b'9' => b - b'0',
        _ => 0,
    }
}

// How many of the typed bytes are the order's: a final newline is not.
#[tactic(auto, unfolding(crate::specs::Order::order_length))]
fn order_length(typed: &[u8]) -> usize
    ensures { (result ≡ order_length typed.now) × (result ≤ length typed.now) }
{
    match typed {
        [order @ .., b'\n'] => order.len(),
        _ => typed.len(),
    }
}

// Puts the order's numbers at the start of a slice, as many as it holds, and answers how many.
pub fn read_order(typed: &[u8], order: &mut [u8]) -> usize
    ensures count { result ≡ min (order_length typed.now) (length order.old) }
    ensures order { order.new
        ≡ filled (λ (i : ℕ). digit_number (get_or typed.now i 0)) result order.old }
{
    let n = order_length(typed).min(order.len());
    for (i, &byte) in typed[..n].iter().enumerate() {
        order[i] = digit_number(byte);
    }
    n
}

impl Typed {
    ghost use Rattle.input.specs.Reading.{held, wants_more, with_byte};

    pub fn nothing() -> Self
        ensures { held result ≡ [] }
    {
        Typed {
            bytes: [0; DECISIVE],
            count: 0,
        }
    }

    // Whether a further byte could change what is printed: where not, none does (`ten-decide`).
    #[tactic(auto, unfolding(crate::specs::Reading::wants_more))]
    pub fn wants_more(self) -> bool
        ensures { result ≡ wants_more (held self) }
    {
        self.count < DECISIVE
    }

    // With the byte that was typed next; as they were where no more is wanted.
    #[tactic(auto, unfolding(crate::specs::Reading::with_byte, crate::specs::Reading::wants_more))]
    pub fn with_byte(mut self, byte: u8) -> Self
        ensures { held result ≡ with_byte (held self) byte }
    {
        if self.count == DECISIVE {
            return self;
        }
        self.bytes[self.count] = byte;
        self.count += 1;
        self
    }

    // How many they are.
    pub fn len(self) -> usize
        ensures { result ≡ length (held self) }
    {
        self.count
    }

    // The bytes.
    pub fn as_slice(&self) -> &[u8]
        ensures { result.now ≡ held self.now }
    {
        &self.bytes[..self.count]
    }
}
