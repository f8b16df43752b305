//! The side of a tree.
ghost use Rattle.std.specs.Prelude.{◌≡◌};
ghost use Rattle.reg_diff.specs.Differences.{word};

/// Which of the two trees one is.
#[derive(Clone, Copy, Debug, PartialEq, Eq)]
pub enum Side {
    /// The old one: what it alone has is gone.
    Old,
    /// The new one: what it alone has has come.
    New,
}

impl Side {
    /// What is told of what this tree alone has.
    pub fn word(self) -> &'static str
        ensures { result.now ≡ word self }
    {
        match self {
            Side::Old => "gone",
            Side::New => "come",
        }
    }
}
