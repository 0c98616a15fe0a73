// The checks of a field file, in this order: 5, 6, 7 on its layout, 8 and 16 each on all entries.
// docs/SPECIFICATION.md, Sections 5.3, 8.3.
#![tactic(auto)]

ghost use Rattle.std.specs.Prelude.{◌≡◌, ◌<◌, ℕ};
ghost use Rattle.checks.specs.Checks.{and_then};
ghost use Rattle.file.specs.File.{correction, entry_count, uncertainty};
ghost use Rattle.file_checks.specs.FileChecks.{file_checks, gap_check, layout_checks, limit_check};
ghost use Rattle.file_checks.specs.Inner.Sound.{Sound};

use checks::Refusal;
use entry_checks::{check_gap, check_limit, fault};
use file::{HEADER, Sizes, correction_at, entries, uncertainty_at};

// Checks 5, 6, 7.
#[tactic(auto, unfolding(crate::specs::FileChecks::layout_checks))]
fn check_layout(file: &[u8]) -> Result<(), Refusal>
    ensures { result ≡ layout_checks file.now }
{
    if file.len() < HEADER {
        return Err(Refusal::ShortFile);
    }
    let sizes = Sizes::read(file);
    if !allowed::sizes_allowed(sizes.n1, sizes.n2, sizes.n3) {
        return Err(Refusal::BadSizes);
    }
    if file.len() != HEADER + 4 * entries(file) {
        return Err(Refusal::BadLength);
    }
    Ok(())
}

// The faults of all n entries, joined by their bits: 0 only where none has one. Most files have none, and
// that is seen many times faster than where the first of them stands. The length is tested here again, for
// the compiler: it then knows that no entry is past the end of the file.
fn faults(file: &[u8], n: u32) -> u16
    requires { n ≡ entry_count file.now }
    ensures { result ≡ 0 → (i : ℕ) → i < n → Sound file.now i }
{
    if file.len() != HEADER + 4 * n as usize {
        return 1;
    }
    let mut all = 0;
    for i in 0..n {
        all |= fault(correction_at(file, i), uncertainty_at(file, n, i));
    }
    all
}

// Check 8, on all entries.
fn check_limits(file: &[u8], n: u32) -> Result<(), Refusal>
    requires { n ≡ entry_count file.now }
    ensures { result ≡ limit_check n (uncertainty file.now) }
{
    let mut limit = Ok(());
    for i in 0..n {
        limit = limit.and(check_limit(i as usize, uncertainty_at(file, n, i)));
    }
    limit
}

// Check 16, on all entries.
fn check_gaps(file: &[u8], n: u32) -> Result<(), Refusal>
    requires { n ≡ entry_count file.now }
    ensures { result ≡ gap_check n (correction file.now) (uncertainty file.now) }
{
    let mut gaps = Ok(());
    for i in 0..n {
        let uncertainty = uncertainty_at(file, n, i);
        gaps = gaps.and(check_gap(i as usize, correction_at(file, i), uncertainty));
    }
    gaps
}

// Checks 8 and 16, one after the other: in one loop they take more stack.
fn check_entries(file: &[u8], n: u32) -> Result<(), Refusal>
    requires { n ≡ entry_count file.now }
    ensures { result ≡ and_then (limit_check n (uncertainty file.now))
        (gap_check n (correction file.now) (uncertainty file.now)) }
{
    check_limits(file, n)?;
    check_gaps(file, n)
}

// All checks of a file.
#[tactic(auto, unfolding(crate::specs::FileChecks::file_checks))]
pub fn check_file(file: &[u8]) -> Result<(), Refusal>
    ensures { result ≡ file_checks file.now }
{
    check_layout(file)?;
    let n = entries(file) as u32;
    if faults(file, n) == 0 {
        return Ok(());
    }
    check_entries(file, n)
}
