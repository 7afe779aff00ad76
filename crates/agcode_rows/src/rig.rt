//! Runs over memory. What a run leaves is plain data, and the runs themselves are generic over their sources and sinks: so no
//! test knows what a run ensures.

use ag_io::{Filled, MemSink, MemSource, Sink, Source, fill};
use ag_pool::{Gate, OpenGate};
use agcode_top::{Status, run};
use std::alloc::{AllocError, Global};
use std::thread::Threads;

/// What a run leaves.
#[derive(Drop)]
pub struct Left {
    pub status: Status,
    pub out: Vec<u8>,
    pub report: Vec<u8>,
    /// How many bytes of the input were not taken; of more than 128 it is 128.
    pub unread: usize,
}

/// How the sources and sinks of a run behave: the most bytes that a call of a source gives, the bytes that out has room for,
/// and the numbers of the calls that fail.
#[derive(Clone, Copy)]
pub struct Ends<'a> {
    pub desc_piece: u32,
    pub desc_fails: &'a [u64],
    pub input_piece: u32,
    pub input_fails: &'a [u64],
    pub out_room: u32,
    pub out_fails: &'a [u64],
    pub report_fails: &'a [u64],
}

/// No call fails.
pub const WORKING: Ends<'static> = Ends {
    desc_piece: 4096,
    desc_fails: &[],
    input_piece: 3,
    input_fails: &[],
    out_room: 1_000_000,
    out_fails: &[],
    report_fails: &[],
};

/// A line, a descriptor and an input, how the ends of the run on them behave, and what it has to leave.
#[derive(Clone, Copy)]
pub struct Row<'a> {
    pub line: &'a str,
    pub desc: &'a [u8],
    pub input: &'a [u8],
    pub ends: Ends<'a>,
    pub status: Status,
    pub out: &'a [u8],
    pub report: &'a [u8],
}

/// A run that is done, with ends that work, writes these bytes and reports nothing.
pub fn done<'a>(line: &'a str, desc: &'a str, input: &'a [u8], out: &'a [u8]) -> Row<'a> {
    Row {
        line,
        desc: desc.as_bytes(),
        input,
        ends: WORKING,
        status: Status::Done,
        out,
        report: &[],
    }
}

/// A run that stops with this status, with ends that work, writes nothing and reports this line.
pub fn stopped<'a>(
    line: &'a str,
    desc: &'a str,
    input: &'a [u8],
    status: Status,
    report: &'a str,
) -> Row<'a> {
    Row {
        line,
        desc: desc.as_bytes(),
        input,
        ends: WORKING,
        status,
        out: &[],
        report: report.as_bytes(),
    }
}

// A source that gives pieces of so many bytes, and whose calls of these numbers fail.
fn source(alloc: Global, bytes: &[u8], piece: u32, fails: &[u64]) -> Result<MemSource, AllocError> {
    let piece = (piece as usize).max(1);
    Ok(MemSource::new(bytes.to_vec(alloc)?, fails.to_vec(alloc)?, piece))
}

// A sink with room for so many bytes, whose calls of these numbers fail.
fn sink(alloc: Global, room: u32, fails: &[u64]) -> Result<MemSink, AllocError> {
    MemSink::new(alloc, room as usize, fails.to_vec(alloc)?)
}

// The words of a line.
fn words_of(alloc: Global, line: &str) -> Result<Vec<String>, AllocError> {
    let mut words = Vec::new(alloc);
    for word in line.split_whitespace() {
        words.push(String::from_str(alloc, word)?)?;
    }
    Ok(words)
}

// The program on the words of a line.
fn run_line<X: Threads + Sync, D: Source, I: Source, O: Sink, R: Sink, G: Gate>(
    rt: &X,
    alloc: Global,
    line: &str,
    desc: &mut D,
    input: &mut I,
    out: &mut O,
    report: &mut R,
    gate: &G,
) -> Result<Status, AllocError> {
    let words = words_of(alloc, line)?;
    Ok(run(rt, alloc, &words, desc, input, out, report, gate))
}

// How many bytes a source still gives; of more than 128 it is 128. The first call, which may be one that fails, takes none.
fn count_left<I: Source>(input: &mut I) -> usize {
    let mut rest = [0u8; 128];
    let _ = input.read(&mut rest[..0]);
    match fill(input, &mut rest) {
        Filled::Whole => rest.len(),
        Filled::End { got } => got,
        Filled::Fault { got } => got,
    }
}

// What a run through a gate leaves.
fn left_through<X: Threads + Sync, G: Gate>(
    rt: &X,
    alloc: Global,
    row: &Row,
    gate: &G,
) -> Result<Left, AllocError> {
    let ends = row.ends;
    let mut desc = source(alloc, row.desc, ends.desc_piece, ends.desc_fails)?;
    let mut input = source(alloc, row.input, ends.input_piece, ends.input_fails)?;
    let mut out = sink(alloc, ends.out_room, ends.out_fails)?;
    let mut report = sink(alloc, 1_000_000, ends.report_fails)?;
    let status = run_line(
        rt,
        alloc,
        row.line,
        &mut desc,
        &mut input,
        &mut out,
        &mut report,
        gate,
    )?;
    Ok(Left {
        status,
        out: out.bytes().to_vec(alloc)?,
        report: report.bytes().to_vec(alloc)?,
        unread: count_left(&mut input),
    })
}

/// What a run with ends that work leaves.
pub fn plain<X: Threads + Sync>(
    rt: &X,
    alloc: Global,
    line: &str,
    desc: &str,
    input: &[u8],
) -> Result<Left, AllocError> {
    left_through(rt, alloc, &done(line, desc, input, &[]), &OpenGate)
}

/// Whether the run of a row, through a gate, leaves what the row says.
pub fn is_met_through<X: Threads + Sync, G: Gate>(
    rt: &X,
    alloc: Global,
    row: &Row,
    gate: &G,
) -> Result<bool, AllocError> {
    let left = left_through(rt, alloc, row, gate)?;
    Ok(is_as_said(&left, row))
}

// Whether a run left what the row says.
fn is_as_said(left: &Left, row: &Row) -> bool {
    let is_told = left.status == row.status && left.report.as_slice() == row.report;
    is_told && left.out.as_slice() == row.out
}

/// Whether the run of a row leaves what the row says, and so many bytes of the input.
pub fn is_met_with_unread<X: Threads + Sync>(
    rt: &X,
    alloc: Global,
    row: &Row,
    unread: usize,
) -> Result<bool, AllocError> {
    let left = left_through(rt, alloc, row, &OpenGate)?;
    Ok(left.unread == unread && is_as_said(&left, row))
}

/// Whether the run of a row leaves what the row says.
pub fn is_met<X: Threads + Sync>(rt: &X, alloc: Global, row: &Row) -> Result<bool, AllocError> {
    is_met_through(rt, alloc, row, &OpenGate)
}

/// The number of the first row that is not met.
pub fn missed<X: Threads + Sync>(
    rt: &X,
    alloc: Global,
    rows: &[Row],
) -> Result<Option<usize>, AllocError> {
    for (index, row) in rows.iter().enumerate() {
        if !is_met(rt, alloc, row)? {
            return Ok(Some(index));
        }
    }
    Ok(None)
}
