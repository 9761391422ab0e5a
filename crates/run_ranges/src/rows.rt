//! The rows of a table, by rising values.
ghost use Rattle.std.specs.Prelude.{◌≡◌, ◌+◌, ◌^◌, ◌<◌, OnOk, sum_by};
ghost use Rattle.run_ranges.specs.Tables.{added, joined, single};

use rtr_types::Items;
use std::alloc::AllocError;
use std::cmp::Ordering;

/// How some runs of a range end: all with the same values.
pub struct Row {
    /// The values that they end with.
    pub values: Items<u32>,
    /// How many they are.
    pub count: u64,
    /// How many of them break the claim.
    pub broken: u64,
    /// The least of their numbers.
    pub least: u64,
}

impl Drop for Row {
    fn drop(self) {
        let Row {
            values: _values,
            count: _count,
            broken: _broken,
            least: _least,
        } = self;
    }
}

/// The row of one run.
pub(crate) fn single(values: Items<u32>, breaks: bool, run: u64) -> Row
    ensures { result ≡ single values breaks run }
{
    Row {
        values,
        count: 1,
        broken: if breaks { 1 } else { 0 },
        least: run,
    }
}

impl Row {
    /// Counts the runs of a later row with the same values.
    fn join(&mut self, later: &Row)
        requires count { self.old.count + later.now.count < 2 ^ 64 }
        requires broken { self.old.broken + later.now.broken < 2 ^ 64 }
        ensures { self.new ≡ joined self.old later.now }
    {
        self.count += later.count;
        self.broken += later.broken;
    }
}

/// Adds a row: it is counted in the row with its values, or stands where it keeps the order. The only refusal is want
/// of memory.
pub(crate) fn add_row(rows: &mut Vec<Row>, row: Row) -> Result<(), AllocError>
    requires counts { sum_by (λ r. r.count) rows.old.items + row.count < 2 ^ 64 }
    requires broken { sum_by (λ r. r.broken) rows.old.items + row.broken < 2 ^ 64 }
    ensures { OnOk result (rows.new.items ≡ added row rows.old.items) }
{
    for k in 0..rows.len() {
        match row.values.as_slice().cmp(rows[k].values.as_slice()) {
            Ordering::Greater => {}
            Ordering::Equal => {
                rows[k].join(&row);
                return Ok(());
            }
            Ordering::Less => {
                rows.insert(k, row)?;
                return Ok(());
            }
        }
    }
    rows.push(row)?;
    Ok(())
}
