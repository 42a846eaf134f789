//! The instance numbers of a job.
ghost use Rattle.std.specs.Prelude.{◌<◌, ◌^◌};
ghost use Rattle.std.specs.List.{All};
ghost use Rattle.sn_program.specs.GoodLaws.{HasInstanceNumbers};

use sn_outline::{Job, StepJob};

/// The numbers of the workingsteps and of the tools of a job are numbers of instances.
pub fn instance_numbers(job: &Job)
    ensures { HasInstanceNumbers job.now }
{
    workingstep_numbers(job.steps());
    tool_numbers(job.tools());
}

/// The workingstep of each step has a number of 32 bits.
fn workingstep_numbers(steps: &[StepJob])
    ensures { All (λ step. step.ws < 2 ^ 32) steps.now }
{
    for step in steps {
        workingstep_number(step);
    }
}

/// The number of the workingstep of a step is one of 32 bits.
fn workingstep_number(step: &StepJob)
    ensures { step.now.ws < 2 ^ 32 }
{
    let _ws = step.ws;
}

/// The instance of each tool has a number of 32 bits.
fn tool_numbers(numbers: &[u32])
    ensures { All (λ number. number < 2 ^ 32) numbers.now }
{}
