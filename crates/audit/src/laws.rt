//! What the counts of an audit mean, each a function whose contract says it: calling it does
//! nothing.
ghost use Rattle.audit.specs.Meaning.{NothingIsExtraWhen, NothingIsMissingWhen};

/// An audit counts nothing as missing if and only if each public index and each public required
/// column has its pair of each row that the pairs encode.
///
/// The pairs encode a row if they have its `exists` pair. Its values are those that the pairs of
/// its table's public columns encode, optional and required: what isn't the code of just one value
/// of the column's type counts as none. A required column's pair holds the code of the row's own
/// value, or of the default. In an index's pair the default stands for a value that the row lacks
/// in a required column.
pub fn nothing_is_missing_when()
    ensures { NothingIsMissingWhen }
{}

/// An audit counts nothing as extra if and only if each pair is an `exists` pair, or one of a live
/// column of its own table beside its row's `exists` pair, or the one that a live index has of a
/// row that the pairs encode.
///
/// The pairs are strings of bytes, as those of every store are.
pub fn nothing_is_extra_when()
    ensures { NothingIsExtraWhen }
{}
