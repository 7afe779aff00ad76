//! Texts that are decoded.

ghost use Rattle.std.specs.Prelude.{◌≤◌};
ghost use Rattle.stream_codec.specs.Layouts.{Fits};
ghost use Rattle.stream_codec.specs.Rooms.{RoomFits};
ghost use Rattle.stream_codec.specs.declared.limits.TheConstants.{MOST_BYTES};

use crate::SmallCode;
use ag_frame::Layout;
use ag_io::{MemSink, MemSource, Sink, Source};
use ag_pool::{OpenGate, Workers};
use coded_block::BlockCode;
use std::alloc::Global;
use std::test::Fail;
use std::thread::Threads;
use stream_codec::{DecodeCounts, DecodeFault, DecodeRoom, decode_stream, layout_of};

// A text, the calls of its source and of the two sinks that fail, and what decoding it has to answer, to write and to report.
#[derive(Drop)]
struct Case<'a> {
    text: &'a [u8],
    limit: u32,
    source_fails: &'a [u64],
    out_fails: &'a [u64],
    report_fails: &'a [u64],
    answer: Result<DecodeCounts, DecodeFault>,
    file: &'a [u8],
    report: &'a str,
}

/// Decodes, and tells no more of it than its answer.
pub fn decode<X: Threads + Sync, C: BlockCode + Sync, I: Source, O: Sink, R: Sink>(
    rt: &X,
    code: &C,
    room: &mut DecodeRoom<C::Bench>,
    src: &mut I,
    out: &mut O,
    report: &mut R,
    limit: u64,
) -> Result<DecodeCounts, DecodeFault>
    requires fits { RoomFits (C.form code.now) (C.numbers code.now) room.old }
    requires limit { limit ≤ MOST_BYTES }
    ensures { RoomFits (C.form code.now) (C.numbers code.now) room.new }
{
    decode_stream(rt, code, room, src, out, report, limit, &OpenGate)
}

// Whether decoding answers, writes and reports what a case says.
fn is_met<X: Threads + Sync, C: BlockCode + Sync>(
    rt: &X,
    alloc: Global,
    code: &C,
    room: &mut DecodeRoom<C::Bench>,
    case: &Case,
) -> Result<bool, Fail>
    requires { RoomFits (C.form code.now) (C.numbers code.now) room.old }
    ensures { RoomFits (C.form code.now) (C.numbers code.now) room.new }
{
    let fails = case.source_fails.to_vec(alloc)?;
    let mut src = MemSource::new(case.text.to_vec(alloc)?, fails, 8);
    let mut out = MemSink::new(alloc, 4096, case.out_fails.to_vec(alloc)?)?;
    let mut report = MemSink::new(alloc, 4096, case.report_fails.to_vec(alloc)?)?;
    let limit = u64::from(case.limit);
    let answer = decode(rt, code, room, &mut src, &mut out, &mut report, limit);
    let is_told = answer == case.answer && out.bytes() == case.file;
    Ok(is_told && report.bytes() == case.report.as_bytes())
}

// Which cases are not met, one after the other in one room of groups of this layout for so many workers.
fn missed<X: Threads + Sync, C: BlockCode + Sync>(
    rt: &X,
    alloc: Global,
    code: &C,
    layout: &Layout,
    workers: u32,
    cases: &[Case],
) -> Result<Vec<usize>, Fail>
    requires { Fits layout.now (C.form code.now) }
{
    let workers = Workers::new(workers).ok_or("they are 1 to 64")?;
    let mut missed = Vec::new(alloc);
    let mut room = DecodeRoom::new(alloc, code, layout, workers)?;
    for (index, case) in cases.iter().enumerate() {
        if !is_met(rt, alloc, code, &mut room, case)? {
            missed.push(index)?;
        }
    }
    Ok(missed)
}

// A text that is answered like this, with a file and a report, where no call fails.
fn answered<'a>(
    text: &'a [u8],
    answer: Result<DecodeCounts, DecodeFault>,
    file: &'a [u8],
    report: &'a str,
) -> Case<'a> {
    Case {
        text,
        limit: 1 << 20,
        source_fails: &[],
        out_fails: &[],
        report_fails: &[],
        answer,
        file,
        report,
    }
}

// What reading a file counts.
fn counts(groups: u64, bytes: u64, changes: u64) -> Result<DecodeCounts, DecodeFault> {
    Ok(DecodeCounts {
        groups,
        bytes,
        changes,
    })
}

const EMPTY: [u8; 8] = [2, 0, 0, 2, 3, 1, 2, 0];

const ONE: [u8; 16] = [1, 0, 0, 1, 2, 3, 1, 0, 1, 2, 0, 3, 0, 3, 0, 3];

#[test]
fn texts_are_read(rt: HostRuntime) -> Result<(), Fail> {
    let cases = [
        answered(
            &EMPTY,
            counts(1, 0, 0),
            &[],
            "done bytes 0 groups 1 changed 0\n",
        ),
        answered(
            &ONE,
            counts(2, 1, 0),
            &[0x41],
            "done bytes 1 groups 2 changed 0\n",
        ),
        answered(
            &[2, 0, 1, 0, 3, 1, 2, 0],
            counts(1, 0, 2),
            &[],
            "changed 0 0 2 01 00\nchanged 0 0 3 00 02\ndone bytes 0 groups 1 changed 2\n",
        ),
        answered(
            &[2, 0, 0, 0, 3, 1, 0xff, 0],
            counts(1, 0, 2),
            &[],
            "changed 0 0 3 00 02\nchanged 0 0 6 ff 02\ndone bytes 0 groups 1 changed 2\n",
        ),
        answered(
            &[6, 0, 0, 2, 3, 1, 2, 0],
            counts(1, 0, 1),
            &[],
            "changed 0 0 0 06 02\ndone bytes 0 groups 1 changed 1\n",
        ),
    ];
    let missed = missed(
        &rt,
        rt.alloc(),
        &SmallCode,
        &layout_of(&SmallCode, 1, false),
        3,
        &cases,
    )?;
    assert!(rt; missed.is_empty(), "{missed:?}");
    Ok(())
}

#[test]
fn other_texts_are_refused(rt: HostRuntime) -> Result<(), Fail> {
    let beyond = |group| Err(DecodeFault::Beyond { group, word: 0 });
    let ragged = |extra| Err(DecodeFault::Ragged { extra });
    let mut last_is_far = [0; 40];
    last_is_far[32..].copy_from_slice(&[1, 1, 1, 0, 0, 0, 0, 0]);
    let mut one_byte_more = [7; 17];
    one_byte_more[..16].copy_from_slice(&ONE);
    let mut early = [0; 16];
    early[..8].copy_from_slice(&EMPTY);
    let cases = [
        answered(&[6, 0, 0, 0, 3, 1, 0xff, 0], beyond(0), &[], ""),
        answered(&last_is_far, beyond(4), &[0, 0, 0], ""),
        answered(&[], ragged(0), &[], ""),
        answered(&one_byte_more, ragged(1), &[0x41], ""),
        // no marker, a marker that is not in the last group, and one bit before it
        answered(&[0; 8], Err(DecodeFault::Framing), &[], ""),
        answered(&early, Err(DecodeFault::Framing), &[], ""),
        answered(&ONE[..8], Err(DecodeFault::Framing), &[], ""),
    ];
    let missed = missed(
        &rt,
        rt.alloc(),
        &SmallCode,
        &layout_of(&SmallCode, 1, false),
        2,
        &cases,
    )?;
    assert!(rt; missed.is_empty(), "{missed:?}");
    Ok(())
}

#[test]
fn decoding_says_why_it_stops(rt: HostRuntime) -> Result<(), Fail> {
    let cases = [
        Case {
            report_fails: &[0],
            ..answered(&ONE, Err(DecodeFault::ReportFault), &[0x41], "")
        },
        Case {
            out_fails: &[0],
            ..answered(&ONE, Err(DecodeFault::OutFault), &[], "")
        },
        Case {
            source_fails: &[2],
            ..answered(&ONE, Err(DecodeFault::InputFault), &[], "")
        },
        Case {
            limit: 8,
            ..answered(&ONE, Err(DecodeFault::TooLong { taken: 16 }), &[], "")
        },
    ];
    let missed = missed(
        &rt,
        rt.alloc(),
        &SmallCode,
        &layout_of(&SmallCode, 1, false),
        1,
        &cases,
    )?;
    assert!(rt; missed.is_empty(), "{missed:?}");
    Ok(())
}

#[test]
fn any_number_of_workers_decodes_groups_of_two_alike(rt: HostRuntime) -> Result<(), Fail> {
    let cases = [answered(
        &[1, 1, 0, 0, 0, 0, 0, 0, 3, 0, 1, 0, 2, 0, 0, 3],
        counts(1, 0, 4),
        &[],
        "changed 0 0 0 01 02\nchanged 0 0 3 00 02\nchanged 0 1 0 01 00\nchanged 0 1 7 03 00\ndone bytes 0 groups 1 changed 4\n",
    )];
    for workers in 1..=4 {
        let missed = missed(
            &rt,
            rt.alloc(),
            &SmallCode,
            &layout_of(&SmallCode, 2, false),
            workers,
            &cases,
        )?;
        assert!(rt; missed.is_empty(), "{missed:?} with {workers} workers");
    }
    Ok(())
}

#[test]
fn texts_of_more_than_one_window_are_decoded_in_order(rt: HostRuntime) -> Result<(), Fail> {
    let mut whole = [0; 808];
    whole[800..].copy_from_slice(&EMPTY);
    whole[43] = 1;
    whole[563] = 3;
    let mut far = whole;
    far[640..648].copy_from_slice(&[1, 1, 1, 0, 0, 0, 0, 0]);
    far[720..728].copy_from_slice(&[1, 1, 1, 0, 0, 0, 0, 0]);
    let cases = [
        answered(
            &whole,
            counts(101, 75, 2),
            &[0; 75],
            "changed 5 0 3 01 00\nchanged 70 0 3 03 00\ndone bytes 75 groups 101 changed 2\n",
        ),
        answered(
            &far,
            Err(DecodeFault::Beyond { group: 80, word: 0 }),
            &[0; 60],
            "changed 5 0 3 01 00\nchanged 70 0 3 03 00\n",
        ),
    ];
    for workers in [1, 3] {
        let missed = missed(
            &rt,
            rt.alloc(),
            &SmallCode,
            &layout_of(&SmallCode, 1, false),
            workers,
            &cases,
        )?;
        assert!(rt; missed.is_empty(), "{missed:?} with {workers} workers");
    }
    Ok(())
}

// The same texts with two bits for each symbol, and what none of bytes can be.
#[test]
fn packed_texts_are_read(rt: HostRuntime) -> Result<(), Fail> {
    let cases = [
        answered(
            &[0x82, 0xd8],
            counts(1, 0, 0),
            &[],
            "done bytes 0 groups 1 changed 0\n",
        ),
        answered(
            &[0x41, 0xb4, 0x63, 0x33],
            counts(2, 1, 0),
            &[0x41],
            "done bytes 1 groups 2 changed 0\n",
        ),
        answered(
            &[0x84, 0xd8],
            counts(1, 0, 2),
            &[],
            "changed 0 0 2 01 00\nchanged 0 0 3 00 02\ndone bytes 0 groups 1 changed 2\n",
        ),
        answered(
            &[0x54, 0x00],
            Err(DecodeFault::Beyond { group: 0, word: 0 }),
            &[],
            "",
        ),
        answered(&[0x82], Err(DecodeFault::Ragged { extra: 1 }), &[], ""),
    ];
    let layout = layout_of(&SmallCode, 1, true);
    for workers in [1, 8] {
        let missed = missed(&rt, rt.alloc(), &SmallCode, &layout, workers, &cases)?;
        assert!(rt; missed.is_empty(), "{missed:?} with {workers} workers");
    }
    Ok(())
}

#[test]
fn packed_groups_of_two_are_read(rt: HostRuntime) -> Result<(), Fail> {
    let cases = [answered(
        &[0x50, 0x00, 0xc4, 0x83],
        counts(1, 0, 4),
        &[],
        "changed 0 0 0 01 02\nchanged 0 0 3 00 02\nchanged 0 1 0 01 00\nchanged 0 1 7 03 00\ndone bytes 0 groups 1 changed 4\n",
    )];
    let layout = layout_of(&SmallCode, 2, true);
    for workers in [1, 8] {
        let missed = missed(&rt, rt.alloc(), &SmallCode, &layout, workers, &cases)?;
        assert!(rt; missed.is_empty(), "{missed:?} with {workers} workers");
    }
    Ok(())
}
