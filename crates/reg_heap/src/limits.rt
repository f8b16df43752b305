//! Limits that several crates keep, and the number that stands for no cell.
//!
//! Where no standard is named, the limit is this project's own.

/// The offset that names no cell: of a class, a list or a parent that isn't there, and of the free cell after the last one.
///
/// Suhanov, Windows registry file format specification, section "Key node"; the end of a free list is this project's own.
pub const NONE: u32 = 0xFFFF_FFFF;

/// The most bytes that the bins of a hive have together, their headers too.
pub const BINS_LIMIT: u32 = 268_435_456;

/// The most bytes by which one call lets the bins grow, counted generously: 1.25 MiB, 320 pages of 4,096 bytes.
///
/// A call appends a bin for each of its cells at most, where those are within this bound, and else one for all of them. SetValue takes
/// most: a record of 16,408 bytes with a name of 16,383, a list of 65,544 for 16,384 values, and for data of 1,048,576 bytes a big data
/// record of 16, its list of 264, 64 segments of 16,352 and one of 2,568. With the bin's header of 32 that is 1,131,360, one bin of
/// 1,134,592. The cells of CreateKey have at most 255,280, with an index root of 60,000 lists, and the security of a descriptor of 65,535
/// bytes, by CreateKey or SetSecurity, 65,560.
pub const GROWTH_BOUND: u32 = 1_310_720;

/// The most subkeys of a key.
pub const SUBKEYS_LIMIT: u32 = 60_000;

/// The most entries of a leaf of subkeys. With one more it gives way to two.
///
/// Suhanov, Windows registry file format specification, section "Subkeys list", leaves it open.
pub const LEAF_LIMIT: u32 = 500;

/// The most keys that one call makes.
///
/// Win32 registry reference, "Registry Element Size Limits".
pub const MADE_LIMIT: u32 = 32;

/// The most values of a key.
pub const VALUES_LIMIT: u32 = 16_384;

/// The most bytes of a value's data.
///
/// Win32 registry reference, "Registry Element Size Limits": 1 MB in the standard format.
pub const DATA_LIMIT: usize = 1_048_576;

/// The most bytes of a security descriptor.
pub const DESCRIPTOR_LIMIT: usize = 65_535;
