/// What a listing tells beside names, and how its lines end.
#[derive(Clone, Copy, Debug, PartialEq, Eq)]
pub struct Columns {
    /// A value's type by its word, the form of its data and these, in place of the type's number and the size.
    pub is_long: bool,
    /// The times of keys.
    pub has_times: bool,
    /// The security descriptors of keys.
    pub has_securities: bool,
    /// A zero byte at the end of each line, in place of LF.
    pub ends_by_zero: bool,
}
