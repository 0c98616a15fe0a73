// Sums and differences in 32 bits. Net numbers are small, so theirs are never cut; a lent slice may hold any.
// docs/SPECIFICATION.md, Section 6.3.
#![tactic(auto)]

ghost use Rattle.std.specs.Prelude.{◌≡◌, pos, ◌+ℤ◌, ◌-ℤ◌};
ghost use Rattle.sums.specs.Word.{word, signed_word};

// A difference in 32 bits.
pub fn minus(a: u32, b: u32) -> i32
    ensures { result ≡ signed_word (word (pos a -ℤ pos b)) }
{
    a.wrapping_sub(b).cast_signed()
}

// A number and a signed change in 32 bits.
pub fn plus(a: u32, b: i32) -> u32
    ensures { result ≡ word (pos a +ℤ b) }
{
    a.wrapping_add_signed(b)
}
