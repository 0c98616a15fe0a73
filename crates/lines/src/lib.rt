// The lines that program `shares` prints (docs/SPECIFICATION.md, Section 13.2), as text in a lent slice.
#![tactic(auto)]

ghost use Rattle.std.specs.Prelude.{◌≤◌, length};
ghost use Rattle.text.specs.Put.{Put};
ghost use Rattle.lines.specs.Lines.{header_text, place_text, refused_text};

// The line of a refusal, by its number.
pub fn put_refusal(out: &mut [u8], number: u32) -> usize
    ensures { Put (refused_text number) out.old out.new 0 result
        × (length (refused_text number) ≤ 19) }
{
    let at = text::put_word(out, 0, b"refused ");
    text::put_item(out, at, number as usize, b'\n')
}

// The line of a box and its degree.
pub fn put_header(out: &mut [u8], w1: usize, w2: usize, w3: usize, m: usize) -> usize
    ensures { Put (header_text w1 w2 w3 m) out.old out.new 0 result }
{
    let mut at = text::put_word(out, 0, b"box ");
    at = text::put_triple(out, at, w1, w2, w3, b' ');
    at = text::put_word(out, at, b"degree ");
    text::put_item(out, at, m, b'\n')
}

// The line of a place, where its number is not 0.
pub fn put_place(out: &mut [u8], at: usize, x: usize, y: usize, z: usize, number: u32) -> usize
    ensures { Put (place_text x y z number) out.old out.new at result }
{
    if number == 0 {
        return at;
    }
    let after_place = text::put_triple(out, at, x, y, z, b' ');
    text::put_item(out, after_place, number as usize, b'\n')
}
