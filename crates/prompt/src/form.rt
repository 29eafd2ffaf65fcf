//! In which form lines are answered.

/// In which form lines are answered.
#[derive(Clone, Copy, PartialEq, Eq)]
pub enum Form {
    /// As text.
    Plain,
    /// As text, with a prompt before each line is read: for someone at a terminal.
    Shown,
    /// As one line of JSON for each line.
    Json,
}

impl Form {
    /// Whether someone sees the answers on a terminal.
    pub(crate) fn is_shown(self) -> bool {
        matches!(self, Form::Shown)
    }

    /// Whether the answers are JSON.
    pub(crate) fn is_json(self) -> bool {
        matches!(self, Form::Json)
    }
}
