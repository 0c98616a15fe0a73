// The layout of a field file: the sizes and the origin that it starts with, and the numbers of its entries.
// Any bytes may stand in it; one past its end reads as 0. docs/SPECIFICATION.md, Section 8.2.
#![tactic(auto)]

ghost use Rattle.std.specs.Prelude.{◌≡◌};
ghost use Rattle.file.specs.File.{correction, entry, entry_count, origin1, origin2, origin3, signed};
ghost use Rattle.file.specs.File.{size1, size2, size3, uncertainties_start, word};

// The bytes before the two arrays.
pub const HEADER: usize = 12;

#[derive(Clone, Copy)]
pub struct Sizes {
    pub n1: u16,
    pub n2: u16,
    pub n3: u16,
}

#[derive(Clone, Copy)]
pub struct Origin {
    pub o1: i16,
    pub o2: i16,
    pub o3: i16,
}

impl Sizes {
    // The sizes that a file starts with.
    pub fn read(file: &[u8]) -> Self
        ensures { (result.n1 ≡ size1 file.now) × (result.n2 ≡ size2 file.now)
            × (result.n3 ≡ size3 file.now) }
    {
        Sizes {
            n1: word_at(file, 0),
            n2: word_at(file, 2),
            n3: word_at(file, 4),
        }
    }
}

impl Origin {
    // The origin, which follows the sizes.
    pub fn read(file: &[u8]) -> Self
        ensures { (result.o1 ≡ origin1 file.now) × (result.o2 ≡ origin2 file.now)
            × (result.o3 ≡ origin3 file.now) }
    {
        Origin {
            o1: signed_at(file, 6),
            o2: signed_at(file, 8),
            o3: signed_at(file, 10),
        }
    }
}

// The unsigned 16-bit number that starts at a byte of the file.
#[tactic(auto, unfolding(crate::specs::File::word))]
fn word_at(file: &[u8], at: usize) -> u16
    ensures { result ≡ word file.now at }
{
    let Some(&low) = file.get(at) else {
        return 0;
    };
    let Some(&high) = file.get(at + 1) else {
        return u16::from(low);
    };
    u16::from_le_bytes([low, high])
}

// The signed 16-bit number that starts at a byte of the file.
#[tactic(auto, unfolding(crate::specs::File::signed))]
fn signed_at(file: &[u8], at: usize) -> i16
    ensures { result ≡ signed (word file.now at) }
{
    word_at(file, at).cast_signed()
}

// The number of entries that the sizes give.
pub fn entries(file: &[u8]) -> usize
    ensures { result ≡ entry_count file.now }
{
    let sizes = Sizes::read(file);
    shape::entries_of(sizes.n1, sizes.n2, sizes.n3)
}

// The correction of entry i.
#[tactic(auto, unfolding(crate::specs::File::correction))]
pub fn correction_at(file: &[u8], i: u32) -> i16
    ensures { result ≡ correction file.now i }
{
    signed_at(file, HEADER + 2 * i as usize)
}

// The uncertainty of entry i of n.
pub fn uncertainty_at(file: &[u8], n: u32, i: u32) -> u16
    ensures { result ≡ entry file.now (uncertainties_start n) i }
{
    word_at(file, HEADER + 2 * n as usize + 2 * i as usize)
}
