//! What isn't compared.

/// What of a key that both trees have isn't compared: where it differs, no line tells that, and it counts as no difference. Keys and values
/// that one tree alone has are told all the same.
#[derive(Clone, Copy, Debug, PartialEq, Eq)]
pub struct Ignored {
    /// When the key was last written.
    pub time: bool,
    /// Its descriptor.
    pub security: bool,
    /// In which order its values stand.
    pub order: bool,
    /// The bytes of its class.
    pub class: bool,
    /// Its marks.
    pub marks: bool,
}
