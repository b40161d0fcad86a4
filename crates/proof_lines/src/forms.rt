//! The forms of lines, told by the words with which they begin.
ghost use Rattle.std.specs.Prelude.{◌≡◌, ◌≤◌};
ghost use Rattle.proof_lines.specs.Forms.{all_forms, first_form, form_in, keywords, opens, pair_end, width};
ghost use Rattle.proof_lines.specs.Words.{seen, stands, word_at};

use crate::line::Version;
use crate::words::stands;

/// The form of a line: what its first words say.
#[derive(Clone, Copy)]
pub enum Form {
    Head,
    PlanYes,
    PlanNo,
    Bare,
    Sole,
    Refuted,
    Priced,
    OpenNodes,
    OpenPivots,
    OpenGrew,
    OpenLift,
    Trim,
    Split,
    Scale,
    Rent,
    Charge,
    At,
    Mixed,
    Weight,
    End,
}

impl Form {
    /// The word with which a line begins.
    pub fn first_word(self) -> &'static [u8]
        ensures { result.now ≡ word_at (keywords self) 0 }
    {
        match self {
            Form::Head => b"fleet",
            Form::PlanYes | Form::PlanNo => b"plan",
            Form::Bare => b"bare",
            Form::Sole => b"sole",
            Form::Refuted => b"refuted",
            Form::Priced => b"priced",
            Form::OpenNodes | Form::OpenPivots | Form::OpenGrew | Form::OpenLift => b"open",
            Form::Trim => b"trim",
            Form::Split => b"split",
            Form::Scale => b"scale",
            Form::Rent => b"rent",
            Form::Charge => b"charge",
            Form::At => b"at",
            Form::Mixed => b"mixed",
            Form::Weight => b"weight",
            Form::End => b"end",
        }
    }

    /// The second word, where that tells the form too, and else none.
    pub fn second_word(self) -> &'static [u8]
        ensures { result.now ≡ word_at (keywords self) 1 }
    {
        match self {
            Form::Head => b"proof",
            Form::PlanYes => b"yes",
            Form::PlanNo => b"no",
            Form::OpenNodes => b"nodes",
            Form::OpenPivots => b"pivots",
            Form::OpenGrew => b"grew",
            Form::OpenLift => b"lift",
            _ => b"",
        }
    }

    /// How many words a line has, where tables have windows or haven't.
    pub fn width(self, windows: bool) -> usize
        ensures { result ≡ width windows self }
    {
        match self {
            Form::Sole | Form::Refuted | Form::Priced | Form::End => 1,
            Form::PlanYes
            | Form::PlanNo
            | Form::Bare
            | Form::OpenNodes
            | Form::Scale
            | Form::Mixed => 2,
            Form::Head | Form::OpenPivots | Form::Rent => 3,
            Form::Trim | Form::Split => pair_end(windows),
            Form::OpenLift | Form::Charge => 4,
            Form::Weight => pair_end(windows) + 1,
            Form::OpenGrew | Form::At => 5,
        }
    }
}

/// How many words a line that tells a pair has up to and with the pair, where tables have windows or haven't.
pub fn pair_end(windows: bool) -> usize
    ensures value { result ≡ pair_end windows }
    ensures few { result ≤ 4 }
{
    if windows { 4 } else { 3 }
}

/// The form that the first words of a line say, where they begin one of this version. Takes no memory.
pub fn form_in(version: Version, words: &[&[u8]]) -> Option<Form>
    ensures { result ≡ form_in version (seen words.now) }
{
    let Some(form) = first_form(words, &all_forms()) else {
        return None;
    };
    if version.has(form) { Some(form) } else { None }
}

/// All forms. Those of which a proof has most lines stand first, since they are tried in this order.
#[tactic(auto, unfolding(crate::specs::Forms::all_forms))]
fn all_forms() -> [Form; 20]
    ensures { result ≡ all_forms }
{
    [
        Form::At,
        Form::Weight,
        Form::Rent,
        Form::Charge,
        Form::Scale,
        Form::Mixed,
        Form::Split,
        Form::Trim,
        Form::Bare,
        Form::Sole,
        Form::Refuted,
        Form::Priced,
        Form::OpenNodes,
        Form::OpenPivots,
        Form::OpenGrew,
        Form::OpenLift,
        Form::Head,
        Form::PlanYes,
        Form::PlanNo,
        Form::End,
    ]
}

/// The first of some forms as whose lines words begin.
fn first_form(words: &[&[u8]], forms: &[Form]) -> Option<Form>
    ensures { result ≡ first_form (seen words.now) forms.now }
{
    let Some((form, rest)) = forms.split_first() else {
        return None;
    };
    if opens(words, *form) {
        Some(*form)
    } else {
        first_form(words, rest)
    }
}

/// Whether words begin as those of a form.
fn opens(words: &[&[u8]], form: Form) -> bool
    ensures { result ≡ opens (seen words.now) form }
{
    stands(words, 0, form.first_word())
        && (form.second_word().is_empty() || stands(words, 1, form.second_word()))
}
