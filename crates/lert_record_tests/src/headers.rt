//! The header of one cone's journal, and bytes that begin as none.

use crate::same::assert_same;
use lert_base::{Kept, Numbers, Settings};
use lert_journal::{HEADER_LEN, header_left, read_header, write_header};

const NUMBERS: Numbers = Numbers {
    threshold: 3,
    bins: 3,
    ratio: 2,
    base: 4,
    levels: 2,
    cone_bits: 0,
    room: 32,
    packet: 8,
};

const TEXT: [u8; HEADER_LEN] =
    *b"LERTJ\x02\0\0\x03\0\0\0\x20\0\0\0\x04\0\0\0\x08\0\0\0\x03\x02\x02\0\0\0\0\0";

#[test]
fn a_header_is_written_and_read(rt: HostRuntime) {
    let settings = Settings::new(NUMBERS).expect(&rt, "settings");
    let mut bytes = [255; HEADER_LEN];
    write_header(&settings, 0, &mut bytes);
    assert_same(&rt, &bytes, &TEXT, "a header");
    assert_same(&rt, &read_of(2), &Some(kept_of(2)), "what is read of it");
}

#[test]
fn numbers_are_read_as_they_stand(rt: HostRuntime) {
    let bytes =
        *b"LERTJ\x01\0\0\x01\x02\0\0\x03\0\x04\0\x05\0\0\x06\xff\xff\xff\xff\x07\x08\x09\x0a\x0b\x0c\0\0";
    let kept = Kept {
        cone: 0x0c0b,
        version: 1,
        numbers: Numbers {
            threshold: 0x0201,
            bins: 7,
            ratio: 8,
            base: 0x0600_0005,
            levels: 9,
            cone_bits: 10,
            room: 0x0004_0003,
            packet: 0xffff_ffff,
        },
    };
    assert_same(&rt, &read_header(&bytes), &Some(kept), "numbers");
}

// What is read of the header with another version.
fn read_of(version: u8) -> Option<Kept> {
    let mut bytes = TEXT;
    bytes[5] = version;
    read_header(&bytes)
}

fn kept_of(version: u8) -> Kept {
    Kept {
        cone: 0,
        version,
        numbers: NUMBERS,
    }
}

#[test]
fn two_versions_are_read(rt: HostRuntime) {
    let want = [None, Some(kept_of(1)), Some(kept_of(2)), None];
    let found = [read_of(0), read_of(1), read_of(2), read_of(3)];
    assert_same(&rt, &found, &want, "versions 0 to 3");
}

#[test]
fn other_first_bytes_begin_no_journal(rt: HostRuntime) {
    for place in 0..8 {
        let mut bytes = TEXT;
        bytes[place] = b'L' + 1;
        let found = (place, read_header(&bytes));
        assert_same(&rt, &found, &(place, None), "no header");
    }
}

#[test]
fn a_file_leaves_the_header_at_a_place(rt: HostRuntime) {
    let broken: [(&[u8], Option<u64>); 10] = [
        (b"", Some(0)),
        (b"LER", Some(3)),
        (b"LERt", Some(3)),
        (b"LERTJ\x03\0\0\x03", Some(5)),
        (b"LERTJ\x02\0\x01\x03", Some(7)),
        (b"LERTJ\x01\0\0", Some(8)),
        (b"LERTJ\x01\0\0\x03", Some(9)),
        (b"LERTJ\x02\0\0\x03", Some(9)),
        (&TEXT[..31], Some(31)),
        (&TEXT, None),
    ];
    for (bytes, at) in broken {
        assert_same(&rt, &header_left(bytes), &at, "a place");
    }
}
