//! Tests of sessions on threads: what no clause of reg_sessions says. A session's answer, a notice, and a registration, are those of the
//! hive in that lock; what a full ring had no room for comes by a later call; jobs run side by side, each hive has a lock of its own, and a
//! gate is told inside it and after it; a callback refuses the calls of one kind alone; a step that is refused its memory changes nothing;
//! and many calls at random, from all sessions that there may be, leave hives that are those of their journals. The wanted replies come
//! from the rules.
//!
//! A `stage` has sessions and hives, and carries out lines. `scenes` are such lines with what is replied to each.
mod alone;
mod gate;
mod guard;
mod jobs;
mod refusals;
mod scenes;
mod soak;
mod stage;
