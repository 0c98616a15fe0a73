// What the two numbers of one entry may be: checks 8 and 16. docs/SPECIFICATION.md, Section 8.3.
#![tactic(auto)]

ghost use Rattle.std.specs.Prelude.{◌≡◌};
ghost use Rattle.entry_checks.specs.Entry.{fault_of, forbidden, gap_at, limit_at};

use checks::Refusal;

// The largest uncertainty.
const UNCERTAINTY: u16 = 32767;

// Check 8, on entry i alone.
pub fn check_limit(i: usize, uncertainty: u16) -> Result<(), Refusal>
    ensures { result ≡ limit_at i uncertainty }
{
    if UNCERTAINTY < uncertainty {
        return Err(Refusal::LargeUncertainty(i));
    }
    Ok(())
}

// Check 16, on entry i alone.
pub fn check_gap(i: usize, correction: i16, uncertainty: u16) -> Result<(), Refusal>
    ensures { result ≡ gap_at i correction uncertainty }
{
    if unit::is_gap(correction) && 0 < uncertainty {
        return Err(Refusal::UncertainGap(i));
    }
    Ok(())
}

// The bits of an entry's uncertainty that may not be set: of a gap all, else those over the limit.
fn forbidden_bits(correction: i16) -> u16
    ensures { result ≡ forbidden correction }
{
    if unit::is_gap(correction) {
        u16::MAX
    } else {
        !UNCERTAINTY
    }
}

// What is wrong with an entry: 0 only where neither 8 nor 16 speaks of it.
pub fn fault(correction: i16, uncertainty: u16) -> u16
    ensures { result ≡ fault_of correction uncertainty }
{
    forbidden_bits(correction) & uncertainty
}
