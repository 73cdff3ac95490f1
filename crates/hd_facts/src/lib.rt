//! Words that contracts of every layer use. It has definitions alone, and no code:
//!
//! - `Unique`: the one value of which a fact holds.
//! - `Prefixes`: a list begins with another.
//! - `Counts`: how often something outside the program failed, and when a call on it may fail.
//! - `Writes`: what was written for an input.
#![tactic(auto)]
