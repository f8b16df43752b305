//! The library that C calls: a hive of the registry, in the caller's process.
//!
//! Its one contract: each function answers what a hive with 64 sessions answers ([`SeatedHive`](reg_calls::SeatedHive)), in the caller's
//! own variables and rooms. `include/zugmeled.h` says of each what it is for, its arguments, and each status and when.
//!
//! What C holds of a hive is two words, a [`ZugHive`](hive::ZugHive): all zero is no hive. The hive itself stands in a box (`held`,
//! `loose`), which each call takes out and puts back.
//!
//! One rule for all that goes out: a call that answers another status than 0 sets each number that it hands out to 0, but for the size and
//! the type that 234 and 122 tell and for the first row of several, and leaves each room as it was. A room that is longer than what is told
//! keeps the rest as it was.
//!
//! `lives` makes, loads (from an `input`) and closes a hive, `journals` counts and cuts its entries, `images` hands out its image.
//! `changes` and `questions` are the calls of the rules, which `calls` answers; `makers` copies what a change needs, `told` writes an answer
//! to the caller's rooms, but for a value's data and a subkey's name, which the hive writes there. `lists` tells keys by their paths, with no handle and no copy between, and `with_values` subkeys
//! with all their values. `notices` hands out notices, `causes` tells the refusal that a change would meet.
#![tactic(auto)]

mod calls;
mod causes;
mod changes;
mod held;
mod hive;
mod images;
mod input;
mod journals;
mod lists;
mod lives;
mod loose;
mod makers;
mod notices;
mod questions;
mod statuses;
mod told;
mod with_values;
