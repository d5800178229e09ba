//! How far a run of the two traces by one worker comes, packet by packet, and what a recovery makes of it.

use crate::plays::Cones;
use lert_trials::{crew_form, recover_form};

// Threshold 3, 3 bins, ratio 2, base 4, 2 levels, two cones, room 32 and packet 8.
const HALVES: [&str; 8] = ["3", "3", "2", "4", "2", "1", "32", "8"];

/// The words of a run of both traces by so many workers.
pub fn run_words(workers: &str) -> [&str; 22] {
    crew_form(HALVES, workers, "b")
}

/// The words of a recovery of what it left.
pub fn recover_words() -> [&'static str; 18] {
    recover_form(HALVES)
}

// The journal of cone 0: eight keys of the first trace in one packet, a rest of four, and a key of the second trace. Its records end
// at 117, 166 and 188.
const FIRST_JOURNAL: [u8; 189] =
    *b"LERTJ\x02\0\0\x03\0\0\0\x20\0\0\0\x04\0\0\0\x08\0\0\0\x03\x02\x02\x01\0\0\0\0\x01\x50\0\0\0\0\0\0\0\0\0\0\0\xff\xff\xff\xff\xff\xff\xff\xff\x01\xff\xff\xff\xff\xff\xff\xff\xff\x01\0\0\0\0\0\0\0\0\x01\0\0\0\0\0\0\0\0\x01\0\0\0\0\0\0\0\0\x01\0\0\0\0\0\0\0\0\x01\0\0\0\0\0\0\0\0\x01\0\0\0\0\0\0\0\0\x01\x01\x2c\0\0\0\0\0\0\0\0\0\0\0\0\0\0\0\0\0\0\0\x01\0\0\0\0\0\0\0\0\x01\0\0\0\0\0\0\0\0\x01\0\0\0\0\0\0\0\0\x01\x01\x11\0\0\0\0\0\0\0\x01\0\0\0\xff\xff\xff\xff\xff\xff\xff\xff\x01\0";

// The journal of cone 1: a key of the first trace, and two of the second one. Its records end at 54 and 85.
const SECOND_JOURNAL: [u8; 86] =
    *b"LERTJ\x02\0\0\x03\0\0\0\x20\0\0\0\x04\0\0\0\x08\0\0\0\x03\x02\x02\x01\x01\0\0\0\x01\x11\0\0\0\0\0\0\0\0\0\0\0\x01\0\0\0\0\0\0\0\x01\x01\x1a\0\0\0\0\0\0\0\x01\0\0\0\x01\0\0\0\0\0\0\0\x01\x01\0\0\0\0\0\0\0\x01\0";

/// What a run printed that came to its end. Key 0 is due at its third place, and key 2^64 - 1 when the cone is closed: level 0
/// holds the positions from 5 on then.
pub const WHOLE: &str =
    "cone 0 events 13 reports 2 closed\n0 5\n18446744073709551615 13\ncone 1 events 3 reports 1 closed\n1 3\ntotal events 16 reports 3\n";

/// Where the records end that both journals have after so many steps, and what a recovery prints then. The steps are the packets in
/// the order in which one worker brings them, a full ring first and the rests at the end of a trace in ascending cones, and then the
/// closing of each cone.
pub const STEPS: [(usize, usize, &str); 8] = [
    (
        32,
        32,
        "cone 0 events 0 reports 0 open\ncone 1 events 0 reports 0 open\ntotal events 0 reports 0\n",
    ),
    (
        117,
        32,
        "cone 0 events 8 reports 1 open\n0 5\ncone 1 events 0 reports 0 open\ntotal events 8 reports 1\n",
    ),
    (
        166,
        32,
        "cone 0 events 12 reports 1 open\n0 5\ncone 1 events 0 reports 0 open\ntotal events 12 reports 1\n",
    ),
    (
        166,
        54,
        "cone 0 events 12 reports 1 open\n0 5\ncone 1 events 1 reports 0 open\ntotal events 13 reports 1\n",
    ),
    (
        188,
        54,
        "cone 0 events 13 reports 1 open\n0 5\ncone 1 events 1 reports 0 open\ntotal events 14 reports 1\n",
    ),
    (
        188,
        85,
        "cone 0 events 13 reports 1 open\n0 5\ncone 1 events 3 reports 1 open\n1 3\ntotal events 16 reports 2\n",
    ),
    (
        188,
        85,
        "cone 0 events 13 reports 2 closed\n0 5\n18446744073709551615 13\ncone 1 events 3 reports 1 open\n1 3\ntotal events 16 reports 3\n",
    ),
    (188, 85, WHOLE),
];

/// Whether both journals have the packets up to these ends, and no more.
pub fn have_packets(cones: &Cones, first_end: usize, second_end: usize) -> bool {
    has_packets(cones.first.journal.as_slice(), &FIRST_JOURNAL, first_end)
        && has_packets(cones.second.journal.as_slice(), &SECOND_JOURNAL, second_end)
}

fn has_packets(journal: &[u8], text: &[u8], end: usize) -> bool {
    end <= text.len() && journal.starts_with(&text[..end]) && is_closed(journal, end)
}

fn is_closed(journal: &[u8], gate: usize) -> bool {
    journal.get(gate).copied() == Some(0)
}

/// Whether no journal has a packet.
pub fn have_no_packet(cones: &Cones) -> bool {
    is_open_nowhere(cones.first.journal.as_slice())
        && is_open_nowhere(cones.second.journal.as_slice())
}

fn is_open_nowhere(journal: &[u8]) -> bool {
    journal.get(32).copied() != Some(1)
}
