//! How the groups of a code are stored.

ghost use Rattle.std.specs.Prelude.{◌≡◌, ◌≤◌};
ghost use Rattle.ag_frame.specs.declared.frame.TheConstants.{MOST_DEPTH};
ghost use Rattle.stream_codec.specs.Layouts.{Fits};

use ag_frame::Layout;
use coded_block::BlockCode;

/// The layout of groups of so many codewords of a code, whose stored symbols are packed or one a byte.
pub fn layout_of<C: BlockCode>(code: &C, depth: u32, packed: bool) -> Layout
    requires least { 1 ≤ depth }
    requires most { depth ≤ MOST_DEPTH }
    ensures fits { Fits result (C.form code.now) }
    ensures depth { result.depth ≡ depth }
    ensures packed { result.packed ≡ packed }
{
    Layout {
        n: code.n(),
        k: code.k(),
        bits: code.bits(),
        depth,
        packed,
    }
}
