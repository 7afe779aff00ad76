//! Texts with lost codewords.

ghost use Rattle.std.specs.Prelude.{◌≤◌};
ghost use Rattle.stream_codec.specs.Layouts.{Fits};
ghost use Rattle.stream_codec.specs.Rooms.{RoomFits};
ghost use Rattle.stream_codec.specs.declared.limits.TheConstants.{MOST_BYTES};

use crate::SmallCode;
use ag_frame::Layout;
use ag_io::{MemSink, MemSource, Sink, Source};
use ag_pool::{OpenGate, Workers};
use coded_block::BlockCode;
use std::alloc::Global;
use std::test::Fail;
use std::thread::Threads;
use stream_codec::{DecodeFault, DecodeRoom, SalvageCounts, SalvageEnd, layout_of, salvage_stream};

// A text, the calls of its source and of the two sinks that fail, and what salvage of it has to answer, to write and to report.
#[derive(Drop)]
struct Case<'a> {
    text: &'a [u8],
    limit: u32,
    source_fails: &'a [u64],
    out_fails: &'a [u64],
    report_fails: &'a [u64],
    answer: Result<SalvageCounts, DecodeFault>,
    file: &'a [u8],
    report: &'a str,
}

// Salvages, and tells no more of it than its answer.
fn salvage<X: Threads + Sync, C: BlockCode + Sync, I: Source, O: Sink, R: Sink>(
    rt: &X,
    code: &C,
    room: &mut DecodeRoom<C::Bench>,
    src: &mut I,
    out: &mut O,
    report: &mut R,
    limit: u64,
) -> Result<SalvageCounts, DecodeFault>
    requires fits { RoomFits (C.form code.now) (C.numbers code.now) room.old }
    requires limit { limit ≤ MOST_BYTES }
    ensures { RoomFits (C.form code.now) (C.numbers code.now) room.new }
{
    salvage_stream(rt, code, room, src, out, report, limit, &OpenGate)
}

// Whether salvage answers, writes and reports what a case says.
fn is_met<X: Threads + Sync, C: BlockCode + Sync>(
    rt: &X,
    alloc: Global,
    code: &C,
    room: &mut DecodeRoom<C::Bench>,
    case: &Case,
) -> Result<bool, Fail>
    requires { RoomFits (C.form code.now) (C.numbers code.now) room.old }
    ensures { RoomFits (C.form code.now) (C.numbers code.now) room.new }
{
    let fails = case.source_fails.to_vec(alloc)?;
    let mut src = MemSource::new(case.text.to_vec(alloc)?, fails, 8);
    let mut out = MemSink::new(alloc, 4096, case.out_fails.to_vec(alloc)?)?;
    let mut report = MemSink::new(alloc, 4096, case.report_fails.to_vec(alloc)?)?;
    let limit = u64::from(case.limit);
    let answer = salvage(rt, code, room, &mut src, &mut out, &mut report, limit);
    let is_told = answer == case.answer && out.bytes() == case.file;
    Ok(is_told && report.bytes() == case.report.as_bytes())
}

// Which cases are not met, one after the other in one room of groups of this layout for so many workers.
fn missed<X: Threads + Sync, C: BlockCode + Sync>(
    rt: &X,
    alloc: Global,
    code: &C,
    layout: &Layout,
    workers: u32,
    cases: &[Case],
) -> Result<Vec<usize>, Fail>
    requires { Fits layout.now (C.form code.now) }
{
    let workers = Workers::new(workers).ok_or("they are 1 to 64")?;
    let mut missed = Vec::new(alloc);
    let mut room = DecodeRoom::new(alloc, code, layout, workers)?;
    for (index, case) in cases.iter().enumerate() {
        if !is_met(rt, alloc, code, &mut room, case)? {
            missed.push(index)?;
        }
    }
    Ok(missed)
}

// A text that is answered like this, with a file and a report, where no call fails.
fn answered<'a>(
    text: &'a [u8],
    answer: Result<SalvageCounts, DecodeFault>,
    file: &'a [u8],
    report: &'a str,
) -> Case<'a> {
    Case {
        text,
        limit: 1 << 20,
        source_fails: &[],
        out_fails: &[],
        report_fails: &[],
        answer,
        file,
        report,
    }
}

// What a salvage counts.
fn counts(
    groups: u64,
    bytes: u64,
    changes: u64,
    lost: u64,
    end: SalvageEnd,
) -> Result<SalvageCounts, DecodeFault> {
    Ok(SalvageCounts {
        groups,
        bytes,
        changes,
        lost,
        end,
    })
}

const EMPTY: [u8; 8] = [2, 0, 0, 2, 3, 1, 2, 0];

const FAR: [u8; 8] = [1, 1, 1, 0, 0, 0, 0, 0];

// The image of the byte 41 with its first group far from all codewords: its low bits are kept.
const FIRST_LOST: [u8; 16] = [1, 1, 1, 0, 0, 0, 0, 0, 1, 2, 0, 3, 0, 3, 0, 3];

// Four groups of zeros, and a fifth that is lost.
fn last_lost() -> [u8; 40] {
    let mut text = [0; 40];
    text[32..].copy_from_slice(&FAR);
    text
}

#[test]
fn what_is_left_of_a_text_is_kept(rt: HostRuntime) -> Result<(), Fail> {
    let last = last_lost();
    let mut two = [0; 24];
    two[..8].copy_from_slice(&FAR);
    two[8..16].copy_from_slice(&FAR);
    two[16..].copy_from_slice(&EMPTY);
    let mut more = [7; 9];
    more[..8].copy_from_slice(&FAR);
    let cases = [
        answered(
            &FIRST_LOST,
            counts(2, 1, 0, 1, SalvageEnd::File),
            &[0x55],
            "lost 0 0\nsalvaged bytes 1 groups 2 changed 0 lost 1\n",
        ),
        answered(
            &last,
            counts(5, 3, 0, 1, SalvageEnd::Framing),
            &[0, 0, 0],
            "lost 4 0\nframing\nsalvaged bytes 3 groups 5 changed 0 lost 1\n",
        ),
        answered(
            &two,
            counts(3, 1, 0, 2, SalvageEnd::Framing),
            &[0x55],
            "lost 0 0\nlost 1 0\nframing\nsalvaged bytes 1 groups 3 changed 0 lost 2\n",
        ),
        answered(
            &more,
            counts(1, 0, 0, 1, SalvageEnd::Ragged { extra: 1 }),
            &[],
            "lost 0 0\nragged 1\nsalvaged bytes 0 groups 1 changed 0 lost 1\n",
        ),
    ];
    let layout = layout_of(&SmallCode, 1, false);
    for workers in [1, 8] {
        let missed = missed(&rt, rt.alloc(), &SmallCode, &layout, workers, &cases)?;
        assert!(rt; missed.is_empty(), "{missed:?} with {workers} workers");
    }
    Ok(())
}

#[test]
fn where_none_is_lost_a_text_is_decoded(rt: HostRuntime) -> Result<(), Fail> {
    let mut more = [7; 9];
    more[..8].copy_from_slice(&EMPTY);
    let cases = [
        answered(
            &[2, 0, 1, 0, 3, 1, 2, 0],
            counts(1, 0, 2, 0, SalvageEnd::File),
            &[],
            "changed 0 0 2 01 00\nchanged 0 0 3 00 02\ndone bytes 0 groups 1 changed 2\n",
        ),
        answered(&more, Err(DecodeFault::Ragged { extra: 1 }), &[], ""),
        answered(&[0; 8], Err(DecodeFault::Framing), &[], ""),
        answered(&[], Err(DecodeFault::Ragged { extra: 0 }), &[], ""),
    ];
    let layout = layout_of(&SmallCode, 1, false);
    for workers in [1, 8] {
        let missed = missed(&rt, rt.alloc(), &SmallCode, &layout, workers, &cases)?;
        assert!(rt; missed.is_empty(), "{missed:?} with {workers} workers");
    }
    Ok(())
}

#[test]
fn lost_codewords_are_told_in_their_place(rt: HostRuntime) -> Result<(), Fail> {
    let cases = [
        answered(
            &[1, 1, 1, 0, 1, 0, 0, 0, 0, 0, 0, 0, 0, 0, 0, 0],
            counts(1, 0, 1, 1, SalvageEnd::Framing),
            &[],
            "lost 0 0\nchanged 0 1 0 01 00\nframing\nsalvaged bytes 0 groups 1 changed 1 lost 1\n",
        ),
        answered(
            &[1, 1, 0, 1, 0, 1, 0, 0, 0, 0, 0, 0, 0, 0, 0, 0],
            counts(1, 0, 1, 1, SalvageEnd::Framing),
            &[],
            "changed 0 0 0 01 00\nlost 0 1\nframing\nsalvaged bytes 0 groups 1 changed 1 lost 1\n",
        ),
    ];
    let layout = layout_of(&SmallCode, 2, false);
    for workers in [1, 8] {
        let missed = missed(&rt, rt.alloc(), &SmallCode, &layout, workers, &cases)?;
        assert!(rt; missed.is_empty(), "{missed:?} with {workers} workers");
    }
    Ok(())
}

#[test]
fn a_call_that_fails_ends_a_salvage(rt: HostRuntime) -> Result<(), Fail> {
    let mut first = [0; 32];
    first[..8].copy_from_slice(&FAR);
    let last = last_lost();
    let input = Err(DecodeFault::InputFault);
    let report = Err(DecodeFault::ReportFault);
    let cases = [
        Case {
            source_fails: &[0],
            ..answered(&first, input, &[], "")
        },
        // after four whole groups three are given
        Case {
            source_fails: &[4],
            ..answered(
                &first,
                Err(DecodeFault::InputFault),
                &[0x54, 0],
                "lost 0 0\n",
            )
        },
        Case {
            limit: 8,
            ..answered(
                &FIRST_LOST,
                Err(DecodeFault::TooLong { taken: 16 }),
                &[],
                "lost 0 0\n",
            )
        },
        Case {
            out_fails: &[0],
            ..answered(&FIRST_LOST, Err(DecodeFault::OutFault), &[], "lost 0 0\n")
        },
        Case {
            report_fails: &[0],
            ..answered(&FIRST_LOST, report, &[], "")
        },
        Case {
            report_fails: &[1],
            ..answered(
                &FIRST_LOST,
                Err(DecodeFault::ReportFault),
                &[0x55],
                "lost 0 0\n",
            )
        },
        Case {
            report_fails: &[1],
            ..answered(
                &last,
                Err(DecodeFault::ReportFault),
                &[0, 0, 0],
                "lost 4 0\n",
            )
        },
        Case {
            report_fails: &[2],
            ..answered(
                &last,
                Err(DecodeFault::ReportFault),
                &[0, 0, 0],
                "lost 4 0\nframing\n",
            )
        },
    ];
    let layout = layout_of(&SmallCode, 1, false);
    for workers in [1, 8] {
        let missed = missed(&rt, rt.alloc(), &SmallCode, &layout, workers, &cases)?;
        assert!(rt; missed.is_empty(), "{missed:?} with {workers} workers");
    }
    Ok(())
}

// The same with two bits for each symbol.
#[test]
fn packed_texts_are_salvaged(rt: HostRuntime) -> Result<(), Fail> {
    let cases = [answered(
        &[0x54, 0x00, 0x63, 0x33],
        counts(2, 1, 0, 1, SalvageEnd::File),
        &[0x55],
        "lost 0 0\nsalvaged bytes 1 groups 2 changed 0 lost 1\n",
    )];
    let layout = layout_of(&SmallCode, 1, true);
    for workers in [1, 8] {
        let missed = missed(&rt, rt.alloc(), &SmallCode, &layout, workers, &cases)?;
        assert!(rt; missed.is_empty(), "{missed:?} with {workers} workers");
    }
    Ok(())
}
