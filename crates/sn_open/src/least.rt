//! The steps of a feature with the least allowances.
ghost use Rattle.std.specs.Prelude.{◌≡◌, ◌↔◌, ◌≤◌, IsTrue, IfSome, IsNone, Contains};
ghost use Rattle.std.specs.Option.{option_copied};
ghost use Rattle.std.specs.List.{All};
ghost use Rattle.sn_outline.specs.declared.job.StepJob.{StepJob as StepContent};
ghost use Rattle.sn_open.specs.Least.{amount, IsLeast, IsNotMore};

use sn_outline::StepJob;

/// An allowance of a step.
#[derive(Clone, Copy)]
pub(crate) enum Allowance {
    Side,
    Under,
}

/// The first step of the feature whose allowance is not more than that of any other.
pub(crate) fn step_of_least(
    steps: &[StepJob],
    feature: u32,
    allowance: Allowance,
) -> Option<&StepJob>
    ensures some { IfSome (option_copied result) (IsLeast steps.now feature allowance) }
    ensures none { IsNone result → (s : StepContent) → Contains steps.now s → ¬ (s.feature ≡ feature) }
{
    for step in steps {
        if step.feature == feature && has_least(steps, step, allowance) {
            return Some(step);
        }
    }
    None
}

/// Whether no step of the same feature has less of the allowance.
fn has_least(steps: &[StepJob], step: &StepJob, allowance: Allowance) -> bool
    ensures { IsTrue result ↔ All (IsNotMore allowance step.now) steps.now }
{
    for other in steps {
        if other.feature == step.feature
            && amount_of(other, allowance) < amount_of(step, allowance)
        {
            return false;
        }
    }
    true
}

fn amount_of(step: &StepJob, allowance: Allowance) -> u32
    ensures { result ≡ amount allowance step.now }
{
    match allowance {
        Allowance::Side => step.side,
        Allowance::Under => step.under,
    }
}
