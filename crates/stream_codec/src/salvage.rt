//! Salvage: decoding that goes on past codewords without near.

ghost use Rattle.std.specs.Prelude.{◌≡◌, ◌≤◌};
ghost use Rattle.stream_codec.specs.Layouts.{in_groups};
ghost use Rattle.stream_codec.specs.declared.limits.TheConstants.{MOST_BYTES};
ghost use Rattle.stream_codec.specs.Decoding.{decode_of};
ghost use Rattle.stream_codec.specs.Salvaging.{SalvagedAs, DecodesAlike, IsSalvaged};
ghost use Rattle.stream_codec.specs.Rooms.{RoomFits};

use crate::deal::WhenLost;
use crate::decode::{DecodeFault, DecodeRoom, decode_room};
use ag_io::{Sink, Source};
use ag_pool::Gate;
use coded_block::BlockCode;
use std::thread::Threads;

/// How a text ends, each block standing for its near or, where it has none, for its low bits.
#[derive(Clone, Copy, PartialEq, Eq, Debug)]
pub enum SalvageEnd {
    /// The corrected bits are those of a file.
    File,
    /// The text is empty, or so many bytes stand after its whole groups.
    Ragged { extra: u32 },
    /// The corrected bits are those of no file.
    Framing,
}

/// What salvage counted: the groups that were read, the bytes that were written, the changed positions and the lost
/// codewords, and how the text ends.
#[derive(Clone, Copy, PartialEq, Eq, Debug)]
pub struct SalvageCounts {
    pub groups: u64,
    pub bytes: u64,
    pub changes: u64,
    pub lost: u64,
    pub end: SalvageEnd,
}

/// Reads what is left of a source as stored groups as `decode_stream` does, but goes on past codewords that have no near:
/// their low bits are kept, and each is reported as lost. Where none is lost, all is as `decode_stream` leaves it. Where some
/// are, the answer is Ok, however the text ends; the end is reported, and then what was counted. `Beyond` never comes. It
/// takes no memory, and its answer does not depend on the number of workers.
pub fn salvage_stream<X: Threads + Sync, C: BlockCode + Sync, I: Source, O: Sink, R: Sink, G: Gate>(
    rt: &X,
    code: &C,
    room: &mut DecodeRoom<C::Bench>,
    src: &mut I,
    sink: &mut O,
    report: &mut R,
    limit: u64,
    gate: &G,
) -> Result<SalvageCounts, DecodeFault>
    requires fits { RoomFits (C.form code.now) (C.numbers code.now) room.old }
    requires limit { limit ≤ MOST_BYTES }
    ensures salvaged { SalvagedAs (decode_of (in_groups room.old.layout (C.form code.now)) limit
        I.tells (I.view src.old) (I.view src.new) O.tells (O.view sink.old) (O.view sink.new)
        R.tells (R.view report.old) (R.view report.new)) result }
    ensures alike { DecodesAlike (decode_of (in_groups room.old.layout (C.form code.now)) limit
        I.tells (I.view src.old) (I.view src.new) O.tells (O.view sink.old) (O.view sink.new)
        R.tells (R.view report.old) (R.view report.new)) result }
    ensures complete { IsSalvaged (decode_of (in_groups room.old.layout (C.form code.now)) limit
        I.tells (I.view src.old) (I.view src.new) O.tells (O.view sink.old) (O.view sink.new)
        R.tells (R.view report.old) (R.view report.new)) result }
    ensures fits { RoomFits (C.form code.now) (C.numbers code.now) room.new }
    ensures layout { room.new.layout ≡ room.old.layout }
{
    decode_room(
        rt,
        code,
        room,
        WhenLost::Keep,
        src,
        sink,
        report,
        limit,
        gate,
    )
}
