ghost use Rattle.std.specs.Prelude.{ℕ, ◌≡◌, ◌+◌, ◌*◌, ◌/◌, ◌<◌, ◌≤◌, ◌^◌, List, length, All};
ghost use Rattle.linear_theory.specs.Tables.{rows_of};
ghost use Rattle.ag_pool.specs.Acts.{Acted};
ghost use Rattle.ag_pool.specs.Rows.{AreReady, ActedFrom};
ghost use Rattle.ag_pool.specs.Schedules.{EveryScheduleGives};

use crate::Workers;
use std::thread;
use std::thread::Threads;

/// What is done to each row of a table.
pub trait RowWork: Sync {
    // The condition on the work and the row that `act` needs.
    ghost ready: { Self → List ℕ → Type 0 };

    // The row after `act`, from the work, the row's number and the row before.
    ghost after: { Self → ℕ → List ℕ → List ℕ };

    /// Acts on the row with this number.
    fn act(&self, index: u32, row: &mut [u8])
        requires { ready self.now row.old }
        ensures { row.new ≡ after self.now index row.old };
}

// Acts on the rows of a part of the table, whose first row has the number `first`.
fn act_on_part<W: RowWork>(work: &W, first: u32, cols: usize, part: &mut [u8])
    requires some { 0 < cols }
    requires few { first + length part.old / cols ≤ 2 ^ 32 }
    requires ready { AreReady (W.ready work.now) cols part.old }
    ensures { ActedFrom (W.after work.now) first cols part.old part.new }
{
    for q in 0..part.len() / cols {
        work.act(first + q as u32, &mut part[q * cols..q * cols + cols]);
    }
}

/// Acts on each row of a table that is stored row by row in one list, as `each` acts on each slot: the rows are cut into
/// bands, one for each worker.
pub fn each_row<X: Threads + Sync, W: RowWork>(
    rt: &X,
    work: &W,
    table: &mut [u8],
    rows: u32,
    cols: u32,
    workers: Workers,
)
    requires some { 0 < cols }
    requires fits { length table.old ≡ rows * cols }
    requires ready { All (W.ready work.now) (rows_of rows cols table.old) }
    ensures acted { Acted (W.after work.now) (rows_of rows cols table.old)
        (rows_of rows cols table.new) }
    ensures schedules { EveryScheduleGives (W.after work.now)
        (rows_of rows cols table.old) (rows_of rows cols table.new) }
{
    let band = rows.div_ceil(workers.count()).max(1) as usize;
    let cols = cols as usize;
    thread::for_each_chunk_mut(
        rt,
        table,
        band * cols,
        &|start: usize, part: &mut [u8]|
            requires { (0 < cols)
                × (start / cols < 2 ^ 32)
                × (start / cols + length part.now / cols ≤ 2 ^ 32)
                × AreReady (W.ready work.now) cols part.now }
            ensures { ActedFrom (W.after work.entry.now) (start / cols) cols part.entry.now
                part.exit.now }
        { act_on_part(work, (start / cols) as u32, cols, part) },
    );
}
