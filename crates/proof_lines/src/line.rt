ghost use Rattle.std.specs.Prelude.{◌≡◌};
ghost use Rattle.proof_lines.specs.Figures.{version_word};
ghost use Rattle.proof_lines.specs.Forms.{form_of, has_form};

use crate::forms::Form;

/// A version of the text of a proof.
#[derive(Clone, Copy)]
pub enum Version {
    /// `1`: without charges.
    One,
    /// `2`: with charges.
    Two,
    /// `3`: with charges, and each pair with the shift of its leg.
    Three,
}

impl Version {
    /// The word that tells it.
    pub fn word(self) -> &'static [u8]
        ensures { result.now ≡ version_word self }
    {
        match self {
            Version::One => b"1",
            Version::Two => b"2",
            Version::Three => b"3",
        }
    }

    /// Whether a text of this version may have lines of a form. Takes no memory.
    pub fn has(self, form: Form) -> bool
        ensures { result ≡ has_form self form }
    {
        match form {
            Form::Charge => matches!(self, Version::Two | Version::Three),
            _ => true,
        }
    }
}

/// What a line of the text of a proof says.
#[derive(Clone, Copy)]
pub enum Line {
    /// `fleet proof V`: the first line, with the version of the text.
    Head(Version),
    /// `plan yes` or `plan no`: whether a plan comes with the proof.
    Plan {
        planned: bool,
    },
    /// `bare FLIGHT`: a leaf where this leg keeps no fleet.
    Bare {
        leg: u32,
    },
    /// `sole`: a leaf where each leg keeps one fleet.
    Sole,
    /// `refuted`: a leaf that the prices behind refute.
    Refuted,
    /// `priced`: a leaf that the prices behind close.
    Priced,
    /// `open nodes`: a leaf that stayed open, since no more splits were allowed.
    OpenNodes,
    /// `open pivots N`: a leaf that stayed open, since no more pivots were allowed.
    OpenPivots {
        made: u64,
    },
    /// `open grew N R C`: a leaf that stayed open, since a number outgrew its range.
    OpenGrew {
        pivots: u64,
        row: u64,
        column: u64,
    },
    /// `open lift S A`: a leaf that stayed open, since its prices outgrew their range.
    OpenLift {
        step: u64,
        at: u64,
    },
    /// `trim FLIGHT FLEET`, and where the tables have windows SHIFT behind it: a pair is set aside.
    Trim {
        leg: u32,
        choice: u32,
    },
    /// `split FLIGHT FLEET`, and SHIFT as in a trim: the subproblem is split by a pair.
    Split {
        leg: u32,
        choice: u32,
    },
    /// `scale Q`: what the prices behind are over.
    Scale {
        scale: i128,
    },
    /// `rent FLEET R`: the rent of an aircraft.
    Rent {
        fleet: u32,
        rent: i128,
    },
    /// `charge STATION DAY R`: the charge of an aircraft that stands at a station at the end of a day.
    Charge {
        station: u32,
        day: u32,
        charge: i128,
    },
    /// `at FLEET STATION MINUTE VALUE`: a step of a price.
    At {
        fleet: u32,
        station: u32,
        minute: u16,
        value: i128,
    },
    /// `mixed Q`: what the weights behind are over.
    Mixed {
        scale: i128,
    },
    /// `weight FLIGHT FLEET W`, and SHIFT before W as in a trim: the weight of a pair.
    Weight {
        leg: u32,
        choice: u32,
        weight: i128,
    },
    /// `end`: the last line.
    End,
}

impl Line {
    /// The form of a line. Takes no memory.
    pub fn form(self) -> Form
        ensures { result ≡ form_of self }
    {
        match self {
            Line::Head(_) => Form::Head,
            Line::Plan { planned: true } => Form::PlanYes,
            Line::Plan { planned: false } => Form::PlanNo,
            Line::Bare { .. } => Form::Bare,
            Line::Sole => Form::Sole,
            Line::Refuted => Form::Refuted,
            Line::Priced => Form::Priced,
            Line::OpenNodes => Form::OpenNodes,
            Line::OpenPivots { .. } => Form::OpenPivots,
            Line::OpenGrew { .. } => Form::OpenGrew,
            Line::OpenLift { .. } => Form::OpenLift,
            Line::Trim { .. } => Form::Trim,
            Line::Split { .. } => Form::Split,
            Line::Scale { .. } => Form::Scale,
            Line::Rent { .. } => Form::Rent,
            Line::Charge { .. } => Form::Charge,
            Line::At { .. } => Form::At,
            Line::Mixed { .. } => Form::Mixed,
            Line::Weight { .. } => Form::Weight,
            Line::End => Form::End,
        }
    }
}
