//! What went wrong, by the number of a status: texts and fields in their order.

use Part::{Field, Text};

/// A part of what went wrong.
pub enum Part {
    /// This text.
    Text(&'static [u8]),
    /// The field at this place of the status's fields, in decimal.
    Field(usize),
}

/// What the line of each status says, at the place that is the status's number. Status 0 has no line.
pub const CAUSES: [&[Part]; 14] = [
    &[],
    &[Text(b"usage rule "), Field(0)],
    &[Text(b"place fault")],
    &[Text(b"trace "), Field(0), Text(b" fault")],
    &[Text(b"trace "), Field(0), Text(b" bad at "), Field(1)],
    &[Text(b"trace "), Field(0), Text(b" too long")],
    &[Text(b"cone "), Field(0), Text(b" not fresh")],
    &[Text(b"cone "), Field(0), Text(b" disk fault")],
    &[
        Text(b"cone "),
        Field(0),
        Text(b" full at "),
        Field(1),
        Text(b" plus "),
        Field(2),
    ],
    &[
        Text(b"cone "),
        Field(0),
        Text(b" file "),
        Field(1),
        Text(b" malformed at "),
        Field(2),
    ],
    &[Text(b"cone "), Field(0), Text(b" has other settings")],
    &[Text(b"output fault")],
    &[Text(b"out of memory")],
    &[
        Text(b"cone "),
        Field(0),
        Text(b" weight full at "),
        Field(1),
        Text(b" plus "),
        Field(2),
    ],
];
