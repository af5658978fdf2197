// How many steps a run made, and what refused the next one, if that ended it.
ghost use Rattle.std.specs.Prelude.{◌≡◌};
ghost use Rattle.cpu.specs.Account.{completed, stopped};

use refusal::refusal::Refusal;

#[derive(Clone, Copy, Debug, PartialEq, Eq)]
pub struct Ran {
    pub steps: u32,
    pub refusal: Option<Refusal>,
}

impl Ran {
    // All the steps of a budget.
    pub fn completed(steps: u32) -> Ran
        ensures { result ≡ completed steps }
    {
        Ran {
            steps,
            refusal: None,
        }
    }

    // A refusal after some steps.
    pub fn stopped(steps: u32, refusal: Refusal) -> Ran
        ensures { result ≡ stopped steps refusal }
    {
        Ran {
            steps,
            refusal: Some(refusal),
        }
    }
}
