//! The image of a file, in memory.

ghost use Rattle.std.specs.Prelude.{◌≡◌, ◌+◌, ◌*◌, ◌/◌, ◌≤◌, length, IfOk};
ghost use Rattle.ag_frame.specs.Layouts.{IsLayout, bits_in_group, bytes_in_group};
ghost use Rattle.stored_form.specs.Frame.{image};
ghost use Rattle.stream_codec.specs.Layouts.{Fits, in_groups};

use ag_frame::Layout;
use ag_io::{MemSink, SureSource};
use coded_block::BlockCode;
use std::alloc::{AllocError, Global};
use stream_codec::{EncodeRoom, MOST_BYTES, encode_stream};

// The bytes of the image of a file of `bytes` bytes.
fn image_len(layout: &Layout, bytes: usize) -> usize
    requires layout { IsLayout layout.now }
    requires short { bytes ≤ 65536 }
    ensures { result ≡ (bytes * 8 / bits_in_group layout.now + 1) * bytes_in_group layout.now }
{
    let groups = bytes * 8 / layout.group_bits() as usize + 1;
    groups * layout.group_bytes() as usize
}

/// The image of a file. The only error is want of memory.
pub fn image_of<C: BlockCode>(
    alloc: Global,
    code: &C,
    layout: &Layout,
    file: &[u8],
) -> Result<Vec<u8>, AllocError>
    requires fits { Fits layout.now (C.form code.now) }
    requires short { length file.now ≤ 65536 }
    ensures { IfOk result
        (λ text. text.items ≡ image (in_groups layout.now (C.form code.now)) file.now) }
{
    let mut room = EncodeRoom::new(alloc, code, layout)?;
    let mut sink = MemSink::new(alloc, image_len(layout, file.len()) + 1, Vec::new(alloc))?;
    let mut src = SureSource::new(file);
    match encode_stream(code, &mut room, &mut src, &mut sink, MOST_BYTES) {
        Ok(_) => {}
        Err(_) => unreachable!(),
    }
    let mut text = Vec::new(alloc);
    text.extend_from_slice(sink.bytes())?;
    Ok(text)
}
