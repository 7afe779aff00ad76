//! The line on report that follows a status.

ghost use Rattle.std.specs.Prelude.{◌≡◌, ℕ, ◌≤◌, ◌++◌, [], IsTrue};
ghost use Rattle.ag_io.specs.Counts.{Rose};
ghost use Rattle.agcode_top.specs.Lines.{cause_line_of, line_of};
ghost use Rattle.agcode_top.specs.Calls.{sink_call, GivesOrFails};

use crate::status::Status;
use ag_io::{Sink, put};
use ag_texts::{LineBuf, beyond_line, number_line, plain_line};
use code_descriptor::{DescCause, KeyName};

// The line of a key that is missing, of another kind, or none of a descriptor's.
fn key_line(buf: &mut LineBuf, key: KeyName)
    ensures { buf.new ≡ cause_line_of (DescCause.BadKey key) }
{
    match key {
        KeyName::Bits => plain_line(buf, "descriptor: key bits"),
        KeyName::Modulus => plain_line(buf, "descriptor: key modulus"),
        KeyName::Space => plain_line(buf, "descriptor: key space"),
        KeyName::A => plain_line(buf, "descriptor: key a"),
        KeyName::B => plain_line(buf, "descriptor: key b"),
        KeyName::Terms => plain_line(buf, "descriptor: key terms"),
        KeyName::Points => plain_line(buf, "descriptor: key points"),
        KeyName::Weight => plain_line(buf, "descriptor: key weight"),
        KeyName::Improved => plain_line(buf, "descriptor: key improved"),
        KeyName::Layout => plain_line(buf, "descriptor: key layout"),
        KeyName::Depth => plain_line(buf, "descriptor: key depth"),
        KeyName::Unknown => plain_line(buf, "descriptor: key unknown"),
    }
}

// The line of a cause that refuses a descriptor.
fn cause_line(buf: &mut LineBuf, cause: DescCause)
    ensures { buf.new ≡ cause_line_of cause }
{
    match cause {
        DescCause::TooLarge => plain_line(buf, "descriptor: too large"),
        DescCause::NotToml => plain_line(buf, "descriptor: not toml"),
        DescCause::BadKey { key } => key_line(buf, key),
        DescCause::BadField => plain_line(buf, "descriptor: field"),
        DescCause::BadSpace => plain_line(buf, "descriptor: space"),
        DescCause::BadDegrees => plain_line(buf, "descriptor: degrees"),
        DescCause::BadTerm { index } => number_line(buf, "descriptor: term", u64::from(index)),
        DescCause::MissingLead => plain_line(buf, "descriptor: lead"),
        DescCause::BadPoint { index } => number_line(buf, "descriptor: point", u64::from(index)),
        DescCause::BadWeight => plain_line(buf, "descriptor: weight"),
        DescCause::BadImproved => plain_line(buf, "descriptor: improved"),
        DescCause::BadLayout => plain_line(buf, "descriptor: layout"),
        DescCause::BadDepth => plain_line(buf, "descriptor: depth"),
        DescCause::NoPoints => plain_line(buf, "descriptor: no points"),
        DescCause::NothingFree => plain_line(buf, "descriptor: nothing free"),
    }
}

// The line of a status; nothing, where it has none.
fn status_line(buf: &mut LineBuf, status: &Status)
    ensures { buf.new ≡ line_of status.now }
{
    match *status {
        Status::Done | Status::NotCodeword | Status::Salvaged | Status::ReportFault => buf.clear(),
        Status::Beyond { group, word } => beyond_line(buf, group, word),
        Status::Ragged { extra } => number_line(buf, "ragged", u64::from(extra)),
        Status::Framing => plain_line(buf, "framing"),
        Status::TableRefused { line } => number_line(buf, "table refused at line", u64::from(line)),
        Status::TooLong { .. } => plain_line(buf, "too long"),
        Status::WordLength { .. } => plain_line(buf, "word length"),
        Status::BadMark { place } => number_line(buf, "mark", u64::from(place)),
        Status::NoCodeword => plain_line(buf, "no codeword"),
        Status::Ambiguous { place } => number_line(buf, "ambiguous", u64::from(place)),
        Status::NoDesign { most } => number_line(buf, "no design most", u64::from(most)),
        Status::Usage => plain_line(buf, "usage: agcode COMMAND [OPTIONS] DESC"),
        Status::Descriptor { cause } => cause_line(buf, cause),
        Status::DescFault => plain_line(buf, "descriptor not read"),
        Status::InputFault => plain_line(buf, "input not read"),
        Status::OutFault => plain_line(buf, "output not written"),
        Status::NoMemory => plain_line(buf, "no memory"),
    }
}

/// Writes the line of a status. A write that fails is passed over: the status is fixed already.
pub fn tell<R: Sink>(report: &mut R, status: &Status)
    ensures given { GivesOrFails (sink_call R.Sink report.old report.new) (line_of status.now) }
    ensures quiet { line_of status.now ≡ [] →
        (R.view report.new).faults ≡ (R.view report.old).faults }
    ensures counted { (R.view report.old).faults ≤ (R.view report.new).faults }
{
    let mut line = LineBuf::new();
    status_line(&mut line, status);
    let bytes = line.bytes();
    if !bytes.is_empty() {
        let _ = put(report, bytes);
    }
}
