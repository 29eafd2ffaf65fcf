//! What pieces come to, in the words in which elements keep their laws: each is a call without a
//! body, so that a contract names it. Whoever keeps a store consistent has from these that a piece
//! is one of the fills and clears that `element_state` speaks of.
ghost use Rattle.reorganise.specs.Laws.{PiecesJoin, PiecesEnd, BeginsFresh, CursorStands, CursorMoves, JoinStays, FillRange, ClearRangeIs, ClearIsOfKind, BeginsAtBounds, BoundsStay, ComesToBound, BoundsServe, ColumnsAgree, FillLays, ClearLays, ItemsEmpty, AllLeft};

/// Pieces that join one another are such in the words of `element_state`, and have all ended
/// exactly when `finished` says so.
pub fn pieces_share()
    ensures join { PiecesJoin }
    ensures end { PiecesEnd }
{}

/// At the begin nothing is passed; a piece has passed what stands before its cursor, to move which
/// is to pass more, and leaves the pieces joined.
pub fn cursors_pass()
    ensures fresh { BeginsFresh }
    ensures stand { CursorStands }
    ensures moves { CursorMoves }
    ensures joined { JoinStays }
{}

/// A fill goes through the range of its table's rows, a clear through the range that its kind says
/// in every version.
pub fn ranges_are()
    ensures fill { FillRange }
    ensures clear { ClearRangeIs }
    ensures kind { ClearIsOfKind }
{}

/// Pieces begin and end where they may, at an end of the range or at the key of an item, and a
/// cursor comes to such a place again. It is one where a fill or a clear of `element_state` may end.
pub fn bounds_hold()
    ensures begin { BeginsAtBounds }
    ensures stay { BoundsStay }
    ensures comes { ComesToBound }
    ensures serve { BoundsServe }
{}

/// In a store that agrees with a version, the items of a fill or a clear are the pairs of its range
/// whose value is empty.
pub fn items_are_empty()
    ensures { ItemsEmpty }
{}

/// At the begin of a reorganisation all items of its scan range are left.
pub fn begins_whole()
    ensures { AllLeft }
{}

/// In a store that agrees with a sound version, what a fill of an element of it reads of a row is
/// right: the columns of an index have the rows' values or their defaults, and a required column
/// has no value but its default, if no row has a cell of it yet.
pub fn columns_agree()
    ensures { ColumnsAgree }
{}

/// What a prepared piece of a fill writes, laid over pairs of which its expectation holds, is what
/// `fill_of` gives for each row between its cursors under the version, if the pairs are those of
/// the rows.
pub fn fill_lays()
    ensures { FillLays }
{}

/// What a prepared piece of a clear writes, laid over pairs of which its expectation holds, is the
/// removal of each item between its cursors, if the pairs are those of the rows.
pub fn clear_lays()
    ensures { ClearLays }
{}
