use reg_model::{Change, Query};

/// The call that callbacks are asked of.
#[derive(Clone, Copy)]
pub enum Seen<'a> {
    Change(&'a Change),
    Query(&'a Query),
}

/// What callbacks are shown of a call.
#[derive(Clone, Copy)]
pub struct CallView<'a> {
    /// Whose call it is.
    pub session: u8,
    /// In units of 100 ns since 1601; 0 for a question, whose moment no callback is shown.
    pub moment: u64,
    /// The folded path text of the handle's key; empty for the root and for OpenRoot.
    pub path: &'a [u8],
    /// The call itself.
    pub seen: Seen<'a>,
}
