//! A budget of steps: how many looks a call may take.

ghost use Rattle.std.specs.Prelude.{◌≡◌, false, true};
ghost use Rattle.goblin_pe_import.specs.Steps.{HasSteps, IsOut, spent};

// Whether a budget has run out.
#[inline(always)]
pub(crate) fn are_out(steps: &Option<usize>) -> bool
    ensures yes { result ≡ true → IsOut steps.now }
    ensures no { result ≡ false → HasSteps steps.now }
{
    match steps {
        Some(left) => *left == 0,
        None => false,
    }
}

// Takes that many steps off a budget, or all that are left.
#[inline(always)]
pub(crate) fn spend(steps: &mut Option<usize>, count: usize)
    ensures { steps.new ≡ spent steps.old count }
{
    if let Some(left) = *steps {
        *steps = Some(left.saturating_sub(count));
    }
}
