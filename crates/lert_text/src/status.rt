//! The line of a status.

ghost use Rattle.std.specs.Prelude.{◌≡◌, ◌+◌, ◌≤◌, ◌++◌, All, length, map, sum_by, take};
ghost use Rattle.std.specs.List.{flat_map};
ghost use Rattle.lert_text.specs.Parts.{part_of, rows_of, most_bytes, NamesField};
ghost use Rattle.lert_text.specs.StatusLine.{cause, causes as all_causes, part_text, status_line as status_text};

use crate::LINE;
use crate::causes::{CAUSES, Part};
use crate::pieces::{push_number, push_text};

/// The line of a status: its number, from 1 to 13, and its fields in their order, with 0 for the rest.
pub fn status_line(
    number: u8,
    a: u64,
    b: u64,
    d: u64,
    e: u64,
    f: u64,
    into: &mut [u8; LINE],
) -> usize
    requires least { 1 ≤ number }
    requires most { number ≤ 13 }
    ensures line { take result into.new ≡ status_text number a b d e f }
    ensures within { result ≤ 160 }
{
    let at = push_text(into, 0, b"lert: ");
    let at = push_cause(into, at, &CAUSES, number, &[a, b, d, e, f]);
    push_text(into, at, b"\n")
}

// Puts what a table of causes says of a status behind what the buffer holds. The table is an argument, since a proof has
// a name for an argument, and none for a constant.
fn push_cause(
    into: &mut [u8],
    at: usize,
    causes: &[&[Part]],
    number: u8,
    fields: &[u64; 5],
) -> usize
    requires table { rows_of causes.now ≡ all_causes }
    requires most { number ≤ 13 }
    requires room { at + 90 ≤ length into.old }
    ensures within { result ≤ at + 90 }
    ensures text { take result into.new ≡ take at into.old ++ cause number fields.now }
{
    push_parts(into, at, causes[usize::from(number)], fields)
}

// Puts these parts behind what the buffer holds.
fn push_parts(into: &mut [u8], at: usize, parts: &[Part], fields: &[u64; 5]) -> usize
    requires places { All (λ part. NamesField 5 (part_of part)) parts.now }
    requires room { at + sum_by (λ part. most_bytes (part_of part)) parts.now ≤ length into.old }
    ensures within { result ≤ at + sum_by (λ part. most_bytes (part_of part)) parts.now }
    ensures text { take result into.new ≡ take at into.old ++ flat_map (λ part. part_text fields.now (part_of part)) parts.now }
{
    let mut end = at;
    for part in parts {
        end = push_part(into, end, part, fields);
    }
    end
}

// Puts one part behind what the buffer holds.
fn push_part(into: &mut [u8], at: usize, part: &Part, fields: &[u64; 5]) -> usize
    requires place { NamesField 5 (part_of part.now) }
    requires room { at + most_bytes (part_of part.now) ≤ length into.old }
    ensures within { result ≤ at + most_bytes (part_of part.now) }
    ensures text { take result into.new ≡ take at into.old ++ part_text fields.now (part_of part.now) }
{
    match part {
        Part::Text(text) => push_text(into, at, text),
        Part::Field(place) => push_number(into, at, fields[*place]),
    }
}
