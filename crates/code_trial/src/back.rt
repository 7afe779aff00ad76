//! A text decoded in memory.

ghost use Rattle.std.specs.Prelude.{◌≡◌, ◌+◌, ◌*◌, ◌/◌, ◌≤◌, length, IfOk};
ghost use Rattle.ag_frame.specs.Layouts.{IsLayout, bits_in_group, bytes_in_group};
ghost use Rattle.stream_codec.specs.Layouts.{Fits, in_groups};
ghost use Rattle.stream_codec.specs.declared.limits.TheConstants.{MOST_BYTES};
ghost use Rattle.code_trial.specs.Trials.{read_back as read_back_of};

use ag_frame::Layout;
use ag_io::{MemSink, NullSink, SureSource};
use ag_pool::{OpenGate, Workers};
use coded_block::BlockCode;
use std::alloc::{AllocError, Global};
use std::thread::Threads;
use stream_codec::{DecodeRoom, MOST_BYTES, decode_stream};

/// What decoding a text told: the changes that it reported, and whether a file came back.
#[derive(Clone, Copy)]
pub struct ReadBack {
    pub corrected: u64,
    pub equal: bool,
}

// The whole bytes that the corrected bits of the groups of a text of `bytes` bytes fill.
fn file_room(layout: &Layout, bytes: usize) -> usize
    requires layout { IsLayout layout.now }
    requires short { bytes ≤ MOST_BYTES }
    ensures { result ≡ bytes / bytes_in_group layout.now * bits_in_group layout.now / 8 }
{
    let groups = bytes / layout.group_bytes() as usize;
    groups * layout.group_bits() as usize / 8
}

/// Decodes a text, and compares what comes with a file. The only error is want of memory.
pub fn read_back<X: Threads + Sync, C: BlockCode + Sync>(
    rt: &X,
    alloc: Global,
    code: &C,
    layout: &Layout,
    text: &[u8],
    file: &[u8],
) -> Result<ReadBack, AllocError>
    requires fits { Fits layout.now (C.form code.now) }
    requires short { length text.now ≤ MOST_BYTES }
    ensures { IfOk result (λ back. back
        ≡ read_back_of (in_groups layout.now (C.form code.now)) text.now file.now) }
{
    let mut room = DecodeRoom::new(alloc, code, layout, Workers::ONE)?;
    let mut out = MemSink::new(alloc, file_room(layout, text.len()) + 1, Vec::new(alloc))?;
    let mut src = SureSource::new(text);
    let mut report = NullSink::new();
    let answer = decode_stream(
        rt,
        code,
        &mut room,
        &mut src,
        &mut out,
        &mut report,
        MOST_BYTES,
        &OpenGate,
    );
    match answer {
        Ok(counts) => Ok(ReadBack {
            corrected: counts.changes,
            equal: out.bytes() == file,
        }),
        Err(_) => Ok(ReadBack {
            corrected: 0,
            equal: false,
        }),
    }
}
