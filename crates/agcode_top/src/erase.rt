//! Lost symbols of a word are filled in.

ghost use Rattle.std.specs.Prelude.{◌≡◌, ℕ, ◌*◌, ◌≤◌, length};
ghost use Rattle.command_words.specs.declared.words.Words.{Words};
ghost use Rattle.command_words.specs.declared.words.Command.TheVariants.{Erase};
ghost use Rattle.code_texts.specs.Texts.{filled_text_of};
ghost use Rattle.erase_code.specs.Marks.{positions_of};
ghost use Rattle.agcode_top.specs.Calls.{source_call, sink_call};
ghost use Rattle.agcode_top.specs.Filled.{LeavesFilled, FillLeaves};
ghost use Rattle.agcode_top.specs.Leaves.{AnswerLeaves};

use crate::status::Status;
use crate::word::read_word;
use ag_io::{Sink, Source, put};
use code_texts::filled_text;
use descriptor_code::DescribedCode;
use erase_code::{FillSays, fill_lost, first_bad_mark, lost_of, positions};
use order_domain::MOST_POINTS;
use std::alloc::Global;

// Writes a word that was filled in, and tells the positions that were lost.
fn write_filled<O: Sink, R: Sink>(
    alloc: Global,
    lost: &[bool],
    word: &[u8],
    out: &mut O,
    report: &mut R,
) -> Status
    requires few { length lost.now ≤ MOST_POINTS }
    requires same { length word.now ≡ length lost.now }
    ensures leaves { LeavesFilled (sink_call O.Sink out.old out.new)
        (sink_call R.Sink report.old report.new)
        word.now (filled_text_of (positions_of lost.now) word.now) result }
    ensures out_counted { (O.view out.old).faults ≤ (O.view out.new).faults }
    ensures report_counted { (R.view report.old).faults ≤ (R.view report.new).faults }
{
    let Ok(places) = positions(alloc, lost) else {
        return Status::NoMemory;
    };
    let Ok(text) = filled_text(alloc, &places, word) else {
        return Status::NoMemory;
    };
    match put(out, word) {
        Ok(()) => {}
        Err(_) => return Status::OutFault,
    }
    match put(report, &text) {
        Ok(()) => Status::Done,
        Err(_) => Status::ReportFault,
    }
}

// Fills in the lost positions of a word that its marks follow.
fn fill_marked<O: Sink, R: Sink>(
    alloc: Global,
    described: &DescribedCode,
    got: &[u8],
    out: &mut O,
    report: &mut R,
) -> Status
    requires { length got.now ≡ 2 * length described.now.points }
    ensures leaves { FillLeaves described.now got.now (sink_call O.Sink out.old out.new)
        (sink_call R.Sink report.old report.new) result }
    ensures out_counted { (O.view out.old).faults ≤ (O.view out.new).faults }
    ensures report_counted { (R.view report.old).faults ≤ (R.view report.new).faults }
{
    let code = described.code();
    let n = code.n() as usize;
    let (word, marks) = got.split_at(n);
    if let Some(place) = first_bad_mark(marks) {
        return Status::BadMark { place };
    }
    let Ok(lost) = lost_of(alloc, marks) else {
        return Status::NoMemory;
    };
    let Ok(mut filled) = vec![in alloc; 0u8; n] else {
        return Status::NoMemory;
    };
    match fill_lost(alloc, code, word, &lost, &mut filled) {
        Ok(FillSays::Filled { .. }) => write_filled(alloc, &lost, &filled, out, report),
        Ok(FillSays::Ambiguous { place }) => Status::Ambiguous { place },
        Ok(FillSays::NoCodeword) => Status::NoCodeword,
        Err(_) => Status::NoMemory,
    }
}

/// Reads a word and the marks of its positions, and fills in the lost ones: the word goes on out, and on report a line for
/// each lost position.
pub fn erase<I: Source, O: Sink, R: Sink>(
    alloc: Global,
    described: &DescribedCode,
    input: &mut I,
    out: &mut O,
    report: &mut R,
) -> Status
    ensures leaves { (w : Words) → AnswerLeaves w Erase described.now
        (source_call I.Source input.old input.new)
        (sink_call O.Sink out.old out.new) (sink_call R.Sink report.old report.new) result }
    ensures input_counted { (I.view input.old).faults ≤ (I.view input.new).faults }
    ensures out_counted { (O.view out.old).faults ≤ (O.view out.new).faults }
    ensures report_counted { (R.view report.old).faults ≤ (R.view report.new).faults }
{
    let n = described.code().n() as usize;
    match read_word(alloc, 2 * n, input) {
        Ok(got) => fill_marked(alloc, described, &got, out, report),
        Err(status) => status,
    }
}
