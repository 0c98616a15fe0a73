// Numbers and words as text in a lent slice, for the programs that print. Each function puts bytes from a
// place on and answers where the text goes on. Bytes past the slice's end are left out.
#![tactic(auto)]

ghost use Rattle.std.specs.Prelude.{[], ◌∷◌};
ghost use Rattle.text.specs.Put.{Put};
ghost use Rattle.text.specs.Text.{decimal, item, triple};

fn put_byte(text: &mut [u8], at: usize, byte: u8) -> usize
    ensures { Put (byte ∷ []) text.old text.new at result }
{
    if at < text.len() {
        text[at] = byte;
        return at + 1;
    }
    at
}

pub fn put_word(text: &mut [u8], at: usize, word: &[u8]) -> usize
    ensures { Put word.now text.old text.new at result }
{
    let mut next = at;
    for &byte in word {
        next = put_byte(text, next, byte);
    }
    next
}

// A number in base ten.
fn put_decimal(text: &mut [u8], at: usize, n: usize) -> usize
    ensures { Put (decimal n) text.old text.new at result }
{
    if n < 10 {
        return put_byte(text, at, b'0' + n as u8);
    }
    let last = put_decimal(text, at, n / 10);
    put_byte(text, last, b'0' + (n % 10) as u8)
}

// A number, and the byte after it.
pub fn put_item(text: &mut [u8], at: usize, n: usize, end: u8) -> usize
    ensures { Put (item n end) text.old text.new at result }
{
    let last = put_decimal(text, at, n);
    put_byte(text, last, end)
}

// Three numbers with a blank between, and the byte after them.
pub fn put_triple(text: &mut [u8], at: usize, a: usize, b: usize, c: usize, end: u8) -> usize
    ensures { Put (triple a b c end) text.old text.new at result }
{
    let after_a = put_item(text, at, a, b' ');
    let after_b = put_item(text, after_a, b, b' ');
    put_item(text, after_b, c, end)
}
