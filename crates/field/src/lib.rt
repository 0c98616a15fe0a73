// The loading of a field file into two lent slices and a unit. The whole file is checked before the
// first write. docs/SPECIFICATION.md, Section 8, has the layout and the checks.
#![tactic(auto)]

ghost use Rattle.std.specs.Prelude.{◌≡◌};
ghost use Rattle.field.specs.Load.{load_answer, load_checks, load_corrections, load_uncertainties};

use checks::Refusal;
use file::{Origin, Sizes, entries};
use file_checks::check_file;
use file_entries::{read_corrections, read_uncertainties};
use unit::Unit;

// All checks of a load, by the lengths of the two slices: those of the file, then 9.
#[tactic(auto, unfolding(crate::specs::Load::load_checks))]
fn check_load(file: &[u8], corrections: usize, uncertainties: usize) -> Result<(), Refusal>
    ensures { result ≡ load_checks file.now corrections uncertainties }
{
    check_file(file)?;
    limits::check_block_room(entries(file), corrections, uncertainties)
}

// Loads a field file: its entries go to the start of the two slices, its sizes and its origin to the unit.
#[tactic(auto, unfolding(crate::specs::Load::load_answer))]
pub fn load(
    unit: Unit,
    file: &[u8],
    corrections: &mut [i16],
    uncertainties: &mut [u16],
) -> Result<Unit, Refusal>
    ensures answer { result
        ≡ load_answer unit file.now corrections.old uncertainties.old }
    ensures corrections { corrections.new
        ≡ load_corrections file.now corrections.old uncertainties.old }
    ensures uncertainties { uncertainties.new
        ≡ load_uncertainties file.now corrections.old uncertainties.old }
{
    check_load(file, corrections.len(), uncertainties.len())?;
    let sizes = Sizes::read(file);
    let origin = Origin::read(file);
    let n = entries(file) as u32;
    read_corrections(file, n, corrections);
    read_uncertainties(file, n, uncertainties);
    Ok(unit.with_block(
        sizes.n1, sizes.n2, sizes.n3, origin.o1, origin.o2, origin.o3,
    ))
}
