// What a search of a window for gaps has found.
ghost use Rattle.std.specs.Prelude.{◌≡◌};
ghost use Rattle.checks.specs.Checks.{no_refusal, refuse_at};
ghost use Rattle.checks.specs.declared.Refusal.TheVariants.{WindowGap};
ghost use Rattle.window.specs.Window.{found_of};

use checks::Refusal;

// 13 for a gap, with its index.
pub fn check(gap: Option<usize>) -> Result<(), Refusal>
    ensures { result ≡ refuse_at WindowGap (found_of gap) no_refusal }
{
    match gap {
        Some(i) => Err(Refusal::WindowGap(i)),
        None => Ok(()),
    }
}
