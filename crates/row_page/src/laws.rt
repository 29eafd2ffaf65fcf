//! Laws of pages, each a function whose contract says it: calling it does nothing.
ghost use Rattle.std.specs.Prelude.{◌≡◌, List};
ghost use Rattle.row_map.specs.Rows.{Rows};
ghost use Rattle.row_page.specs.Page.{ArePages, all_rows, rows_within};
ghost use Rattle.row_page.specs.declared.page.RowPage.{RowPage as Page};
ghost use Rattle.row_page.specs.declared.range.KeyRange.{KeyRange as Range};
ghost use Rattle.row_query.specs.Answer.{plain_answer};
ghost use Rattle.row_query.specs.declared.query.Query.{Query as Asked};

/// The rows of pages, each asked after the last key of the one before while there are more, are the
/// rows of the whole answer that are in the range.
pub fn lemma_pages_are_whole()
    ensures { (rows : Rows) (query : Asked) (range : Range) (pages : List Page) → ArePages (plain_answer rows query) range pages → all_rows pages ≡ rows_within range (plain_answer rows query) }
{}
