//! That the pieces in which bytes come do not count.

ghost use Rattle.agcode_top.specs.Pieces.{PiecesLaw};

/// Two runs of the same words on the same bytes end with the same status, unless memory was wanting in one of them or a read
/// or write failed: a source may give one byte a call, or as many as are asked for.
pub fn pieces_do_not_count()
    ensures { PiecesLaw }
{}
