//! The side of a tree.
ghost use Rattle.std.specs.Prelude.{◌≡◌};
ghost use Rattle.reg_dotreg_writer.specs.Changes.{is_new as is_of_new};

/// Which of two trees one is.
#[derive(Clone, Copy, Debug, PartialEq, Eq)]
pub enum Side {
    /// The old one: what it alone has is gone.
    Old,
    /// The new one: what it alone has has come.
    New,
}

impl Side {
    /// Whether it is the new one.
    pub fn is_new(self) -> bool
        ensures { result ≡ is_of_new self }
    {
        match self {
            Side::Old => false,
            Side::New => true,
        }
    }
}
