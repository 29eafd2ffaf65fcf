//! What is known of acts that are due: each is a call without a body, so that a contract names it.
ghost use Rattle.layer_due.specs.Applies.{DueApplies};
ghost use Rattle.layer_due.specs.Course.{CoursesComplete};
ghost use Rattle.layer_due.specs.GoesOn.{DuesGoOn};
ghost use Rattle.layer_due.specs.Lowers.{DuesLower};

/// As long as the store has the records that were found, it applies the draft of the act that is
/// due: all of a close, a begin and a step, and of a piece what it compares of the control records,
/// beside the pairs that its range was read with.
pub fn due_applies()
    ensures { DueApplies }
{}

/// The act that is due lowers what is left: a begin the begins that are left in this version, a
/// close the versions that are open, a piece the rest of one piece by the range that was read; and
/// each leaves the rest of the records as it was found. A step is one fewer of the plan.
pub fn dues_lower()
    ensures { DuesLower }
{}

/// Something can be done as long as something is left. After any list of drafts that a store
/// applied, made by whatever servers, `due` is not refused if the records are those that the store
/// has and the first of the steps is allowed under its newest version.
pub fn dues_go_on()
    ensures { DuesGoOn }
{}

/// A change that is driven completes. In a store that was opened, and has applied any drafts, a course
/// is a list of drafts that the store applied in turn: each of a call of the act that is due by the
/// records that the store then has, or of a transaction, of which any server may make any number. A
/// begin may be divided at any keys, and a piece be read as far as it is, as long as each read comes to
/// its piece's end or passes one of some given keys.
///
/// No course has more acts than are left at its beginning, by a number that each act lowers. As long as
/// version numbers last, a course goes on until nothing is due: some act is due, and the store applies a
/// draft of it. Where nothing is due, the newest version is the one that the steps lead to, and each fill
/// and clear that an element wants has begun and ended.
pub fn courses_complete()
    ensures { CoursesComplete }
{}
