use reg_script::ScriptFault;
use reg_tree_image::LoadFault;

/// What ended a request early, with status 1.
#[derive(Clone, Copy, Debug, PartialEq, Eq)]
pub enum Stop {
    /// `error script N`.
    Script(ScriptFault),
    /// `error 1009 load N`, or `error 8` for want of memory, which the output has already.
    Load(LoadFault),
    /// `error 1013 written N`: a write failed after so many bytes.
    Write(u64),
    /// `error 8`.
    Memory,
}
