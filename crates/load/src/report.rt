//! What a load found, and what it prints.

use crate::pace::{Pace, nanos};
use crate::samples::seconds;
use server::locked_store::ReceiptFault;
use std::alloc::{AllocError, Global};

/// What a load found once all threads were done.
#[derive(Clone, Copy)]
pub(crate) struct Report {
    /// How many rows the store has.
    pub(crate) rows: u64,
    /// How many pairs are missing.
    pub(crate) missing: u64,
    /// How many pairs are there without a reason.
    pub(crate) extra: u64,
    /// Whether there are as many receipts as entries in the log.
    pub(crate) is_counted: bool,
    /// What is wrong with the receipts, if anything is.
    pub(crate) receipts: Option<ReceiptFault>,
    /// Whether each request was committed, each piece finished and each step published.
    pub(crate) is_done: bool,
    /// When its parts had ended.
    pub(crate) pace: Pace,
}

impl Report {
    /// Whether all is as it has to be, with so many rows.
    pub(crate) fn is_good(&self, rows: u32) -> bool {
        self.rows == u64::from(rows)
            && (self.missing, self.extra) == (0, 0)
            && self.is_counted
            && self.receipts.is_none()
            && self.is_done
    }

    /// The five lines, or in their place an object in JSON, which also has when the audit had ended.
    /// Refused only when out of memory.
    pub(crate) fn text(&self, alloc: Global, is_json: bool) -> Result<String, AllocError> {
        let counts = if self.is_counted { "equal" } else { "differ" };
        let (rows, missing, extra) = (self.rows, self.missing, self.extra);
        let receipts = name_of(&self.receipts);
        if is_json {
            let at = seconds(alloc, nanos(self.pace.begun, self.pace.audited))?;
            format!(in alloc;
                "{{\"kind\":\"audit\",\"at\":{at},\"rows\":{rows},\"missing\":{missing},\"extra\":{extra},\"counts\":\"{counts}\",\"receipts\":\"{receipts}\"}}\n"
            )
        } else {
            format!(in alloc;
                "rows {rows}\nmissing {missing}\nextra {extra}\ncounts {counts}\nreceipts {receipts}\n"
            )
        }
    }
}

// The name of what is wrong with the receipts.
fn name_of(fault: &Option<ReceiptFault>) -> &'static str {
    match fault {
        None => "ok",
        Some(ReceiptFault::NoPlace { .. }) => "NoPlace",
        Some(ReceiptFault::OtherEntry { .. }) => "OtherEntry",
        Some(ReceiptFault::Twice { .. }) => "Twice",
        Some(ReceiptFault::CutOff { .. }) => "CutOff",
        Some(ReceiptFault::Memory) => "Memory",
    }
}
