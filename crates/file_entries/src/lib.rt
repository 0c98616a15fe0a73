// The entries of a field file, written to lent slices. docs/SPECIFICATION.md, Sections 8.2, 8.4.
#![tactic(auto)]

ghost use Rattle.std.specs.Prelude.{◌≡◌, ◌<◌, ℕ, length};
ghost use Rattle.file.specs.File.{correction, entry, uncertainties_start};
ghost use Rattle.file_entries.specs.Written.{entries_fit, written};

use file::{HEADER, correction_at, uncertainty_at};

// Writes the n entries, where the file has the length for n and the slice has room, and answers whether it
// did. Inlined for the compiler: in each of the two below it then knows from the length that no entry is past
// the end of the file.
#[inline(always)]
#[tactic(auto, unfolding(crate::specs::Written::entries_fit, crate::specs::Written::written))]
fn read_entries<T: Copy, F: Fn(u32) -> T>(
    file: &[u8],
    n: u32,
    entries: &mut [T],
    entry_at: F,
) -> bool
    requires { F.IsAlwaysCallable entry_at }
    ensures answer { result ≡ entries_fit file.now n (length entries.old) }
    ensures entries { (number_of : ℕ → T)
        → ((i : ℕ) (r : T) → i < n → F.post entry_at i r → r ≡ number_of i)
        → entries.new ≡ written file.now n number_of entries.old }
{
    if file.len() != HEADER + 4 * n as usize {
        return false;
    }
    if entries.len() < n as usize {
        return false;
    }
    for i in 0..n {
        entries[i as usize] = entry_at(i);
    }
    true
}

// Writes the corrections of the n entries, where the file has the length for n and the slice has room, and
// answers whether it did.
pub fn read_corrections(file: &[u8], n: u32, corrections: &mut [i16]) -> bool
    ensures answer { result ≡ entries_fit file.now n (length corrections.old) }
    ensures corrections { corrections.new
        ≡ written file.now n (correction file.now) corrections.old }
{
    read_entries(file, n, corrections, |i| correction_at(file, i))
}

// So the uncertainties.
pub fn read_uncertainties(file: &[u8], n: u32, uncertainties: &mut [u16]) -> bool
    ensures answer { result ≡ entries_fit file.now n (length uncertainties.old) }
    ensures uncertainties { uncertainties.new
        ≡ written file.now n (entry file.now (uncertainties_start n))
        uncertainties.old }
{
    read_entries(file, n, uncertainties, |i| uncertainty_at(file, n, i))
}
