//! Tests that no text can say: which callbacks are asked, rows of cells, copies, images of many bytes, texts of faults, and sessions on
//! threads. There is nothing here but tests, and so no contract. Tests that are texts are cases of reg_cases.
//!
//! The wanted replies come from the rules of the calls, the wanted bytes and faults from the format's tables. What a clause says of a
//! function isn't tested again. A test and each of its helpers are proved, too: so there are few, and they go over tables of rows. Calls
//! are lines of a script, which reg_script reads.
#![tactic(auto)]

#[cfg(test)]
mod asked;
#[cfg(test)]
mod cells;
#[cfg(test)]
mod copies;
#[cfg(test)]
mod faults;
#[cfg(test)]
mod large_images;
#[cfg(test)]
mod sessions;
#[cfg(test)]
mod support;
