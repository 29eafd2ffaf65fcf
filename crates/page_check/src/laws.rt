//! What pages come to, each a function whose contract says it: calling it does nothing.
ghost use Rattle.page_check.specs.Whole.{NoPageCountsMore, PagesAreTheAudit, RangesAreEnough};

/// The ranges that `row_ranges` and `given_ranges` give are all that a page needs: each row that its
/// keys name, and the key of each pair that its rows give indexes and required columns.
///
/// What was read first has the page and the ranges of the rows; `given_ranges` is asked by it. What
/// was read in the end has these too, and the ranges of the pairs.
pub fn lemma_ranges_are_enough()
    ensures { RangesAreEnough }
{}

/// Pages that follow one another from the first key to the end of a store come to the audit of the
/// store: the sums of what `check_page` counts, each page with what it needs.
///
/// What was read for a page may be of the page alone; what else it has does not matter.
pub fn lemma_pages_are_the_audit()
    ensures { PagesAreTheAudit }
{}

/// No page has more missing or extra pairs than the store that it was read of. So pages that are each
/// read at a moment of their own, with what they need, count none of a store that has none at any.
pub fn lemma_no_page_counts_more()
    ensures { NoPageCountsMore }
{}
