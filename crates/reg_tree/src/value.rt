/// A value that was found.
#[derive(Clone, Copy, Debug, PartialEq, Eq)]
pub struct ValueFound {
    /// Its index among its key's values, counted from 0.
    pub index: u32,
    /// The type of its data.
    pub kind: u32,
    /// The size of its data in bytes.
    pub size: u32,
}
