//! What a plain sort of all pieces finds.

use std::alloc::Global;
use std::process::Abort;

/// Some tables of rows, a tail and a count each, as one list of tails, numbers of tables and counts.
#[derive(Drop)]
pub struct Plain {
    rows: Vec<(u64, usize, u64)>,
}

impl Plain {
    pub fn new(alloc: Global) -> Plain {
        Plain {
            rows: Vec::new(alloc),
        }
    }

    /// Adds the rows of a table of this number.
    pub fn add(&mut self, rt: &impl Abort, table: usize, rows: &[(u64, u64)]) {
        for &(tail, count) in rows {
            self.rows.push((tail, table, count)).expect(rt, "memory");
        }
    }

    /// All rows, each as its tail, the number of its table and its count, sorted.
    pub fn rows(&mut self, rt: &impl Abort, alloc: Global) -> Vec<u64> {
        self.rows.sort_unstable();
        let mut all = Vec::new(alloc);
        for &(tail, table, count) in &self.rows {
            all.push(tail).expect(rt, "memory");
            all.push(table as u64).expect(rt, "memory");
            all.push(count).expect(rt, "memory");
        }
        all
    }

    /// For each tail the tail, the sum of its counts, and the count in each of so many tables.
    pub fn sums(&mut self, rt: &impl Abort, alloc: Global, tables: usize) -> Vec<u64> {
        self.rows.sort_unstable();
        let mut all = Vec::new(alloc);
        let mut last = None;
        let mut sum_at = 0;
        for &(tail, table, count) in &self.rows {
            if last != Some(tail) {
                last = Some(tail);
                sum_at = add_tail(rt, &mut all, tail, tables);
            }
            raise(&mut all, sum_at, count);
            raise(
                &mut all,
                sum_at.saturating_add(1).saturating_add(table),
                count,
            );
        }
        all
    }
}

// Puts a tail behind the others, with a sum and the count of each of so many tables, all 0. Answers where its sum
// stands.
fn add_tail(rt: &impl Abort, all: &mut Vec<u64>, tail: u64, tables: usize) -> usize {
    all.push(tail).expect(rt, "memory");
    let sum_at = all.len();
    all.push(0).expect(rt, "memory");
    for _ in 0..tables {
        all.push(0).expect(rt, "memory");
    }
    sum_at
}

fn raise(numbers: &mut [u64], at: usize, by: u64) {
    if let Some(number) = numbers.get_mut(at) {
        *number = number.wrapping_add(by);
    }
}
