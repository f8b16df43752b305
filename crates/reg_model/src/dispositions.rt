//! What a CreateKey tells of its key (Win32 registry reference, `RegCreateKeyEx`).

/// It was made.
pub const MADE: u32 = 1;

/// It was there already.
pub const THERE: u32 = 2;
