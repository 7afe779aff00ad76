//! Finds ranks and dual lists, or clears columns, of square matrices of symbols of GF(64) that a fixed sequence of numbers
//! fills, and prints a sum of what it found. `bench/linear/run` times it beside a plain Rust program that does the same.
#![tactic(auto)]

ghost use Rattle.std.specs.Prelude.{◌≡◌, ◌<◌, ◌≤◌, ◌^◌, length, All, IfOk};
ghost use Rattle.gf_linear.specs.Matrix.{IsOver};

use ag_pool::Workers;
use anyhow::{Context, Result, ensure};
use gf_field::PolyField;
use gf_linear::{Matrix, dual_of, rank};
use gf_tables::TableField;
use std::alloc::{AllocError, Global};
use std::env;
use std::env::Env;
use std::thread::Threads;

// A sequence of symbols, the same in each run.
#[derive(Drop)]
struct Symbols {
    state: u64,
}

impl Symbols {
    // The next symbol, by the linear congruential generator of Knuth's MMIX.
    fn next(&mut self) -> u8
        ensures { result < 2 ^ 6 }
    {
        self.state = self
            .state
            .wrapping_mul(6364136223846793005)
            .wrapping_add(1442695040888963407);
        (self.state >> 58) as u8
    }

    fn fill(&mut self, row: &mut [u8])
        ensures width { length row.new ≡ length row.old }
        ensures symbols { All (λ a. a < 2 ^ 6) row.new }
    {
        for p in 0..row.len() {
            row[p] = self.next();
        }
    }

    fn matrix(&mut self, alloc: Global, size: u32) -> std::result::Result<Matrix, AllocError>
        requires few { size ≤ 1024 }
        ensures rows { IfOk result (λ m. length m.rows ≡ size) }
        ensures cols { IfOk result (λ m. m.cols ≡ size) }
        ensures symbols { IfOk result (λ m. IsOver 6 m) }
    {
        let mut row = vec![in alloc; 0; size as usize]?;
        let mut m = Matrix::new(alloc, size, size)?;
        for i in 0..size {
            self.fill(&mut row);
            m.set_row(i, &row);
        }
        Ok(m)
    }
}

// A sum that tells matrices apart.
fn checksum(m: &Matrix) -> u32 {
    let mut sum: u32 = 0;
    for i in 0..m.rows() {
        for symbol in m.row(i) {
            sum = sum.wrapping_mul(31).wrapping_add(u32::from(*symbol));
        }
    }
    sum
}

// Puts 1 on the diagonal, place by place, and clears its column.
fn clear_all<X: Threads + Sync>(rt: &X, f: &TableField, m: &mut Matrix, workers: Workers)
    requires square { length m.old.rows ≡ m.old.cols }
    requires bits { f.now.bits ≡ 6 }
    requires symbols { IsOver 6 m.old }
{
    for k in 0..m.rows() {
        m.cols();
        m.set(k, k, 1);
        m.clear_column(rt, f, k, k, workers);
    }
}

// What to do with each matrix; columns are cleared in so many threads.
#[derive(Drop)]
enum Task {
    Rank,
    Dual,
    Clear { workers: Workers },
}

impl Task {
    fn read(name: &str, workers: u32) -> Option<Task> {
        match name {
            "rank" => Some(Task::Rank),
            "dual" => Some(Task::Dual),
            "clear" => Some(Task::Clear {
                workers: Workers::new(workers)?,
            }),
            _ => None,
        }
    }

    // The sum of what this matrix gives.
    fn run<X: Threads + Sync>(
        &self,
        rt: &X,
        alloc: Global,
        f: &TableField,
        m: &mut Matrix,
    ) -> Result<u32, AllocError>
        requires bits { f.now.bits ≡ 6 }
        requires square { length m.old.rows ≡ m.old.cols }
        requires symbols { IsOver 6 m.old }
    {
        match self {
            Task::Rank => rank(alloc, f, m),
            Task::Dual => Ok(dual_of(alloc, f, m)?.map_or(0, |duals| checksum(&duals))),
            Task::Clear { workers } => {
                clear_all(rt, f, m, *workers);
                Ok(checksum(m))
            }
        }
    }
}

fn number(words: &[String], place: usize) -> Result<u32> {
    let word = words.get(place).context("a word is missing")?;
    word.parse::<u32>()
        .context(format_args!("reading {word:?}"))
}

fn main(rt: HostRuntime) -> Result<()> {
    let alloc = rt.alloc();
    let mut words = Vec::new(alloc);
    for word in env::args(&rt)?.skip(1) {
        words.push(word)?;
    }
    let name = words.first().context("a word is missing")?;
    let size = number(&words, 1)?;
    let times = number(&words, 2)?;
    let task = Task::read(name, number(&words, 3)?).context("no such task")?;
    ensure!(size <= 1024, "{size} rows");
    let field = PolyField::new(6, 67).context("irreducible")?;
    let tables = TableField::new(alloc, &field)?;
    let mut symbols = Symbols { state: 1 };
    let mut sum: u32 = 0;
    for _ in 0..times {
        let mut m = symbols.matrix(alloc, size)?;
        sum = sum.wrapping_add(task.run(&rt, alloc, &tables, &mut m)?);
    }
    println!(rt; "{name} {size}: {sum}")?;
    Ok(())
}
