//! The words of command lines, over the directory `d` and the trace `a`.

/// Threshold 3, 3 bins, ratio 2, base 4, 2 levels, no cone bit, room 32 and packet 8: the spans are 4,
/// 8 and 16, the offsets 8, 24 and 56, and the capacity is 71.
pub const SMALL: [&str; 8] = ["3", "3", "2", "4", "2", "0", "32", "8"];

/// The words of the short form.
pub fn short_form(threshold: &str) -> [&str; 7] {
    [
        "run",
        "--threshold",
        threshold,
        "--cone-bits",
        "0",
        "d",
        "a",
    ]
}

/// The words of the long form, with its eight numbers.
pub fn long_form<'a>(numbers: [&'a str; 8]) -> [&'a str; 19] {
    let [
        threshold,
        bins,
        ratio,
        base,
        levels,
        cone_bits,
        room,
        packet,
    ] = numbers;
    [
        "run",
        "--threshold",
        threshold,
        "--bins",
        bins,
        "--ratio",
        ratio,
        "--base",
        base,
        "--levels",
        levels,
        "--cone-bits",
        cone_bits,
        "--room",
        room,
        "--packet",
        packet,
        "d",
        "a",
    ]
}

/// The words of `recover`, with its eight numbers.
pub fn recover_form<'a>(numbers: [&'a str; 8]) -> [&'a str; 18] {
    let [
        threshold,
        bins,
        ratio,
        base,
        levels,
        cone_bits,
        room,
        packet,
    ] = numbers;
    [
        "recover",
        "--threshold",
        threshold,
        "--bins",
        bins,
        "--ratio",
        ratio,
        "--base",
        base,
        "--levels",
        levels,
        "--cone-bits",
        cone_bits,
        "--room",
        room,
        "--packet",
        packet,
        "d",
    ]
}

/// The words of the long form, with its eight numbers and its number of workers, over the traces `a` and this one.
pub fn crew_form<'a>(numbers: [&'a str; 8], workers: &'a str, second: &'a str) -> [&'a str; 22] {
    let [
        threshold,
        bins,
        ratio,
        base,
        levels,
        cone_bits,
        room,
        packet,
    ] = numbers;
    [
        "run",
        "--threshold",
        threshold,
        "--bins",
        bins,
        "--ratio",
        ratio,
        "--base",
        base,
        "--levels",
        levels,
        "--cone-bits",
        cone_bits,
        "--room",
        room,
        "--packet",
        packet,
        "--workers",
        workers,
        "d",
        "a",
        second,
    ]
}
