//! What holds of every stream, as contracts of functions that do nothing: a caller that cites a law calls its function.

ghost use Rattle.vx_record.specs.Ends.{EndLaw};
ghost use Rattle.vx_record.specs.Runs.{CutLaw, FeedLaw, MarkLaw, PiecesLaw};
ghost use Rattle.vx_record.specs.Spelled.{LongLaw, ShortLaw, WholeLaw};

/// A stream that comes in any pieces is the records of the whole stream: the same whole records in the same order, the
/// same count of bytes behind them, and too long at the same header.
pub fn pieces_law()
    ensures { PiecesLaw }
{}

/// A stream may be cut anywhere.
pub fn cut_law()
    ensures { CutLaw }
{}

/// A feed takes the first part of what the stream's run makes of a piece; what it leaves is run behind it.
pub fn feed_law()
    ensures { FeedLaw }
{}

/// What is written as one last fragment is read as one record, whatever stands behind it.
pub fn mark_law()
    ensures { MarkLaw }
{}

/// A buffer that a stream is fed to piece by piece stands where the whole stream's split says. Behind a feed that took all
/// of a piece the split has what its state says: no record, the one that is kept, or one that is too long; and before the
/// piece's last byte it had neither. Where a feed left bytes of a piece, the stream had one or the other before that byte.
pub fn end_law()
    ensures { EndLaw }
{}

/// What the records of a stream are, by the fragments that are spelled on it: a record in any fragments is read whole,
/// whatever stands behind it; a header that takes its record above the limit ends the stream; and where neither is there,
/// because a header isn't whole or a fragment isn't, the stream waits for more.
pub fn records_law()
    ensures whole { WholeLaw }
    ensures long { LongLaw }
    ensures short { ShortLaw }
{}
