//! Files that are encoded.

ghost use Rattle.std.specs.Prelude.{◌≤◌};
ghost use Rattle.stream_codec.specs.Layouts.{Fits};
ghost use Rattle.stream_codec.specs.declared.limits.TheConstants.{MOST_BYTES};

use crate::SmallCode;
use ag_frame::Layout;
use ag_io::{MemSink, MemSource, Sink, Source};
use coded_block::BlockCode;
use std::alloc::Global;
use std::test::Fail;
use stream_codec::{EncodeCounts, EncodeFault, EncodeRoom, encode_stream, layout_of};

// A file, the calls of its source and of the sink that fail, and what encoding it has to answer and to write.
#[derive(Drop)]
struct Case<'a> {
    file: &'a [u8],
    limit: u32,
    source_fails: &'a [u64],
    out_fails: &'a [u64],
    answer: Result<EncodeCounts, EncodeFault>,
    image: &'a [u8],
}

/// Encodes, and tells no more of it than its answer.
pub fn encode<C: BlockCode, I: Source, O: Sink>(
    code: &C,
    room: &mut EncodeRoom,
    src: &mut I,
    out: &mut O,
    limit: u64,
) -> Result<EncodeCounts, EncodeFault>
    requires fits { Fits room.old (C.form code.now) }
    requires limit { limit ≤ MOST_BYTES }
    ensures { Fits room.new (C.form code.now) }
{
    encode_stream(code, room, src, out, limit)
}

// Whether encoding answers and writes what a case says.
fn is_met<C: BlockCode>(
    alloc: Global,
    code: &C,
    room: &mut EncodeRoom,
    case: &Case,
) -> Result<bool, Fail>
    requires { Fits room.old (C.form code.now) }
    ensures { Fits room.new (C.form code.now) }
{
    let fails = case.source_fails.to_vec(alloc)?;
    let mut src = MemSource::new(case.file.to_vec(alloc)?, fails, 1);
    let mut out = MemSink::new(alloc, 4096, case.out_fails.to_vec(alloc)?)?;
    let answer = encode(code, room, &mut src, &mut out, u64::from(case.limit));
    Ok(answer == case.answer && out.bytes() == case.image)
}

// Which cases are not met, one after the other in one room of groups of this layout.
fn missed<C: BlockCode>(
    alloc: Global,
    code: &C,
    layout: &Layout,
    cases: &[Case],
) -> Result<Vec<usize>, Fail>
    requires { Fits layout.now (C.form code.now) }
{
    let mut missed = Vec::new(alloc);
    let mut room = EncodeRoom::new(alloc, code, layout)?;
    for (index, case) in cases.iter().enumerate() {
        if !is_met(alloc, code, &mut room, case)? {
            missed.push(index)?;
        }
    }
    Ok(missed)
}

// A file that is stored as this image.
fn stored<'a>(file: &'a [u8], groups: u64, image: &'a [u8]) -> Case<'a> {
    Case {
        file,
        limit: 1 << 20,
        source_fails: &[],
        out_fails: &[],
        answer: Ok(EncodeCounts {
            taken: file.len() as u64,
            groups,
        }),
        image,
    }
}

const EMPTY: [u8; 8] = [2, 0, 0, 2, 3, 1, 2, 0];

const ONE: [u8; 16] = [1, 0, 0, 1, 2, 3, 1, 0, 1, 2, 0, 3, 0, 3, 0, 3];

#[test]
fn files_are_stored(rt: HostRuntime) -> Result<(), Fail> {
    // an exact fit needs one more group
    let mut zeros = [0; 40];
    zeros[32..].copy_from_slice(&EMPTY);
    let cases = [
        stored(&[], 1, &EMPTY),
        stored(&[0x41], 2, &ONE),
        stored(&[0, 0, 0], 5, &zeros),
    ];
    let missed = missed(
        rt.alloc(),
        &SmallCode,
        &layout_of(&SmallCode, 1, false),
        &cases,
    )?;
    assert!(rt; missed.is_empty(), "{missed:?}");
    Ok(())
}

#[test]
fn encoding_says_why_it_stops(rt: HostRuntime) -> Result<(), Fail> {
    let cases = [
        // the second write, a file over the limit, and the third read
        Case {
            out_fails: &[1],
            answer: Err(EncodeFault::OutFault),
            ..stored(&[0x41], 0, &ONE[..8])
        },
        Case {
            limit: 1,
            answer: Err(EncodeFault::TooLong { taken: 2 }),
            ..stored(&[1, 2], 0, &[])
        },
        Case {
            source_fails: &[2],
            answer: Err(EncodeFault::InputFault),
            ..stored(&[0, 0, 0], 0, &[0; 16])
        },
        stored(&[], 1, &EMPTY),
    ];
    let missed = missed(
        rt.alloc(),
        &SmallCode,
        &layout_of(&SmallCode, 1, false),
        &cases,
    )?;
    assert!(rt; missed.is_empty(), "{missed:?}");
    Ok(())
}

#[test]
fn a_group_of_two_is_stored(rt: HostRuntime) -> Result<(), Fail> {
    let cases = [stored(&[], 1, &[2, 0, 0, 0, 0, 0, 2, 0, 3, 0, 1, 0, 2, 0, 0, 0])];
    let missed = missed(
        rt.alloc(),
        &SmallCode,
        &layout_of(&SmallCode, 2, false),
        &cases,
    )?;
    assert!(rt; missed.is_empty(), "{missed:?}");
    Ok(())
}

// Two bits for each symbol of the images above.
#[test]
fn files_are_stored_packed(rt: HostRuntime) -> Result<(), Fail> {
    let cases = [
        stored(&[], 1, &[0x82, 0xd8]),
        stored(&[0x41], 2, &[0x41, 0xb4, 0x63, 0x33]),
    ];
    let layout = layout_of(&SmallCode, 1, true);
    let missed = missed(rt.alloc(), &SmallCode, &layout, &cases)?;
    assert!(rt; missed.is_empty(), "{missed:?}");
    Ok(())
}
