//! Every file of at most two bytes, there and back.

ghost use Rattle.stream_codec.specs.Layouts.{Fits};
ghost use Rattle.stream_codec.specs.Rooms.{RoomFits};

use crate::SmallCode;
use crate::tests::decoding::decode;
use crate::tests::encoding::encode;
use ag_frame::Layout;
use ag_io::{MemSink, MemSource};
use ag_pool::Workers;
use coded_block::BlockCode;
use std::alloc::{AllocError, Global};
use std::test::Fail;
use std::thread::Threads;
use stream_codec::{DecodeRoom, EncodeRoom, layout_of};

const LIMIT: u64 = 1 << 20;

// The image of a file, where encoding ends well.
fn image_of<C: BlockCode>(
    alloc: Global,
    code: &C,
    room: &mut EncodeRoom,
    file: &[u8],
) -> Result<Option<Vec<u8>>, AllocError>
    requires { Fits room.old (C.form code.now) }
    ensures { Fits room.new (C.form code.now) }
{
    let mut src = MemSource::new(file.to_vec(alloc)?, Vec::new(alloc), 4096);
    let mut out = MemSink::new(alloc, 4096, Vec::new(alloc))?;
    let is_done = encode(code, room, &mut src, &mut out, LIMIT).is_ok();
    Ok(if is_done {
        Some(out.bytes().to_vec(alloc)?)
    } else {
        None
    })
}

// The file of a text, where decoding ends well.
fn file_of<X: Threads + Sync, C: BlockCode + Sync>(
    rt: &X,
    alloc: Global,
    code: &C,
    room: &mut DecodeRoom<C::Bench>,
    text: &[u8],
) -> Result<Option<Vec<u8>>, AllocError>
    requires { RoomFits (C.form code.now) (C.numbers code.now) room.old }
    ensures { RoomFits (C.form code.now) (C.numbers code.now) room.new }
{
    let mut src = MemSource::new(text.to_vec(alloc)?, Vec::new(alloc), 4096);
    let mut out = MemSink::new(alloc, 4096, Vec::new(alloc))?;
    let mut report = MemSink::new(alloc, 4096, Vec::new(alloc))?;
    let is_done = decode(rt, code, room, &mut src, &mut out, &mut report, LIMIT).is_ok();
    Ok(if is_done {
        Some(out.bytes().to_vec(alloc)?)
    } else {
        None
    })
}

// Whether a file comes back, in rooms of its own.
fn comes_back<X: Threads + Sync, C: BlockCode + Sync>(
    rt: &X,
    alloc: Global,
    code: &C,
    layout: &Layout,
    file: &[u8],
) -> Result<bool, Fail>
    requires { Fits layout.now (C.form code.now) }
{
    let workers = Workers::new(1).ok_or("one is a number of workers")?;
    let mut encoding = EncodeRoom::new(alloc, code, layout)?;
    let Some(text) = image_of(alloc, code, &mut encoding, file)? else {
        return Ok(false);
    };
    let mut decoding = DecodeRoom::new(alloc, code, layout, workers)?;
    let back = file_of(rt, alloc, code, &mut decoding, &text)?;
    Ok(back.as_deref() == Some(file))
}

// Whether all files come back that begin so and have one byte more, or none.
fn all_come_back<X: Threads + Sync, C: BlockCode + Sync>(
    rt: &X,
    alloc: Global,
    code: &C,
    layout: &Layout,
    begin: &[u8],
) -> Result<bool, Fail>
    requires { Fits layout.now (C.form code.now) }
{
    let mut all = comes_back(rt, alloc, code, layout, begin)?;
    for last in 0..=255u8 {
        let mut file = begin.to_vec(alloc)?;
        file.push(last)?;
        all &= comes_back(rt, alloc, code, layout, &file)?;
    }
    Ok(all)
}

#[test]
fn every_short_file_comes_back(rt: HostRuntime) -> Result<(), Fail> {
    for packed in [false, true] {
        let layout = layout_of(&SmallCode, 1, packed);
        assert!(rt; all_come_back(&rt, rt.alloc(), &SmallCode, &layout, &[])?);
        for first in 0..=255u8 {
            let all = all_come_back(&rt, rt.alloc(), &SmallCode, &layout, &[first])?;
            assert!(rt; all, "{first} {packed}");
        }
    }
    Ok(())
}
