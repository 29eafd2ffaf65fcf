//! Laws of what is found page by page, each a function whose contract says it: calling it does
//! nothing.
ghost use Rattle.std.specs.Prelude.{◌≡◌, List};
ghost use Rattle.row_map.specs.Rows.{Bytes, Pairs};
ghost use Rattle.schema_version.specs.Version.{Version};
ghost use Rattle.row_query.specs.declared.query.Query.{Query as Asked};
ghost use Rattle.row_query.specs.inner.Bounds.{table_end};
ghost use Rattle.row_ask.specs.declared.table_page.ScanPage.{ScanPage as Page};
ghost use Rattle.row_ask.specs.Remaining.{rows_between};
ghost use Rattle.row_ask.specs.Pages.{ArePages, all_rows};

/// The rows of the pages of a scan, each as `scan_page` gives it and read from where the one before
/// says, and the last with nothing after it, are the rows from the first page on.
pub fn lemma_pages_are_whole()
    ensures { (version : Version) (store : Pairs) (query : Asked) (low : Bytes) (pages : List Page) → ArePages version store query low pages → all_rows pages ≡ rows_between version store query low (table_end query.table) }
{}
