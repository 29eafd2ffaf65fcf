//! What is known of acts that are due, stated for the proofs above.
ghost use Rattle.rollout.specs.Advance.{AreAccepted, AdvancesLower};
ghost use Rattle.rollout.specs.Complete.{CallsGoOn};
ghost use Rattle.rollout.specs.Course.{CoursesGrow, AdvancesStay};
ghost use Rattle.rollout.specs.Few.{AreFewLeft};
ghost use Rattle.rollout.specs.Left.{PiecesTakeItems};
ghost use Rattle.rollout.specs.Pieces.{AdvancesTakeItems, ItemsAreRows};

/// The world refuses no act that is due, except when out of memory or of versions.
pub fn due_is_accepted()
    ensures { AreAccepted }
{}

/// Each advance lowers what is left: a step lowers the edges of all elements, a begin the
/// reorganisations that have not begun, a piece the rest of one piece. A begin and a publication
/// lower the acts that are left too, of which each element under way has at most three. As long as
/// edges are left, an advance does not report that all is finished.
pub fn advances_lower()
    ensures { AdvancesLower }
{}

/// At most three begins and publications are left for each element that is under way.
pub fn few_acts_are_left()
    ensures { AreFewLeft }
{}

/// A call of `complete` that is refused and a later one that is not, together, complete all changes
/// that were under way at first.
pub fn calls_go_on()
    ensures { CallsGoOn }
{}

/// On a course of advances the opening stays, entries are added to the log and none is changed, and
/// no moment goes back. All that `complete` does is such a course.
pub fn courses_grow()
    ensures { CoursesGrow }
{}

/// An advance leaves each element where it was or further on its way, with the rows as before; so
/// do any number of them, and once one reports that all is finished, every change is completed.
pub fn advances_stay()
    ensures { AdvancesStay }
{}

/// A read takes exactly `limit` of the items that are left of a piece, or reaches the piece's end:
/// so items measure how far it is.
pub fn pieces_take_items()
    ensures { PiecesTakeItems }
{}

/// No advance adds to the pieces of an element in the log and what is ahead of it, where an entry
/// counts for `limit` items: a piece takes as many from what is ahead, or is the last of its piece.
pub fn advances_take_items()
    ensures { AdvancesTakeItems }
{}

/// No more items are ahead of an element than its table has rows: so the pieces that `complete`
/// takes are bounded by the rows too.
pub fn items_are_rows()
    ensures { ItemsAreRows }
{}
