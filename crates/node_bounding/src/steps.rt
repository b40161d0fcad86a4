ghost use Rattle.std.specs.Prelude.{◌≡◌, true, false};
ghost use Rattle.fleet_model.specs.declared.kept.Step.{Step};

use fleet_model::Step;

/// The step into the part in which the leg takes the choice.
pub fn with(leg: u32, choice: u32) -> Step
    ensures { result ≡ record { leg = leg; choice = choice; yes = true } }
{
    Step {
        leg,
        choice,
        yes: true,
    }
}

/// The step into the part in which the leg takes another choice.
pub fn without(leg: u32, choice: u32) -> Step
    ensures { result ≡ record { leg = leg; choice = choice; yes = false } }
{
    Step {
        leg,
        choice,
        yes: false,
    }
}
