use thiserror::Error;

/// Why a field is not of its form. A field with several faults has the first of its form's order.
#[derive(Clone, Copy, Debug, PartialEq, Eq, Error)]
#[error("{}", reason(.kind))]
pub struct FieldFault {
    /// 1 empty, 2 wrong length, 3 a byte that the form forbids, 4 a number outside its range,
    /// 5 no time HH:MM, 6 neither `yes` nor `no`.
    pub kind: u8,
}

impl FieldFault {
    /// The field is empty.
    pub const EMPTY: FieldFault = FieldFault { kind: 1 };
    /// The field is too short or too long.
    pub const WRONG_LENGTH: FieldFault = FieldFault { kind: 2 };
    /// A byte of the field is none that its form has there.
    pub const FORBIDDEN_BYTE: FieldFault = FieldFault { kind: 3 };
    /// The number is below the least or above the greatest that may stand there.
    pub const OUT_OF_RANGE: FieldFault = FieldFault { kind: 4 };
    /// The field is no time HH:MM of a day.
    pub const NOT_A_TIME: FieldFault = FieldFault { kind: 5 };
    /// The field is neither `yes` nor `no`.
    pub const NOT_A_FLAG: FieldFault = FieldFault { kind: 6 };
}

fn reason(kind: &u8) -> &'static str {
    match *kind {
        1 => "the field is empty",
        2 => "the field has the wrong length",
        3 => "the field has a byte that may not stand there",
        4 => "the number is outside its range",
        5 => "the field is no time HH:MM",
        6 => "the field is neither yes nor no",
        _ => "the field is not of its form",
    }
}
