//! A level's row of bins.

ghost use Rattle.std.specs.Prelude.{◌≡◌, ◌-◌, ◌<◌, ◌≤◌, ◌++◌, ◌∷◌, [], IfOk, length, take, drop};
ghost use Rattle.lert_levels.specs.declared.rows.bin_at.BinAt.{BinAt};

use crate::rows::bin_at::BinAt;
use lert_io::OutOfMemory;
use std::alloc::Global;
use std::marker::Model;

/// How many bins a row has room for: as many as settings may give a level, and the one that a flush puts behind them before
/// the oldest goes.
const ROOM: usize = 17;

/// A level's bins on disk, seen as the list of them, oldest first. Only `new` takes memory.
#[derive(Drop)]
pub struct Row {
    bins: Vec<BinAt>,
}

impl Model for Row {
    ghost use Rattle.std.specs.Prelude.{◌≤◌, List, length, vec_capacity};
    ghost use Rattle.lert_levels.specs.declared.rows.bin_at.BinAt.{BinAt};

    ghost Value = { List BinAt };

    ghost view = { λ row. row.bins.items };

    ghost invariant = { λ row. (17 ≤ vec_capacity row.bins) × (length row.bins.items ≤ 17) };
}

impl Row {
    /// No bin. Its only error is want of memory.
    pub fn new(alloc: Global) -> Result<Row, OutOfMemory>
        ensures { IfOk result (λ row. row ≡ []) }
    {
        Ok(Row {
            bins: Vec::with_capacity(alloc, ROOM)?,
        })
    }

    /// The bins, oldest first.
    pub fn bins(&self) -> &[BinAt]
        ensures bins { result.now ≡ self.now }
        ensures few { length self.now ≤ 17 }
    {
        &self.bins
    }

    /// Puts a bin behind the others.
    pub fn put(&mut self, bin: BinAt)
        requires { length self.old < 17 }
        ensures { self.new ≡ self.old ++ bin ∷ [] }
    {
        let is_put = self.bins.push(bin).is_ok();
        prove!(is_put);
    }

    /// Drops the newest bin, where there is one.
    pub fn drop_newest(&mut self)
        ensures { self.new ≡ take (length self.old - 1) self.old }
    {
        let _newest = self.bins.pop();
    }

    /// Drops the oldest bin.
    pub fn drop_oldest(&mut self)
        requires { 1 ≤ length self.old }
        ensures { self.new ≡ drop 1 self.old }
    {
        self.bins.remove(0);
    }

    /// Drops all bins.
    pub fn clear(&mut self)
        ensures { self.new ≡ [] }
    {
        self.bins.clear();
    }
}
