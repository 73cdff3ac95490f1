//! What all programs of tests have in common: the loop over the lines of a script, the words of its lines, and why a line isn't carried out.
//!
//! A program of tests carries out the lines of its input, and answers each. It keeps what they speak of in a bench:
//!
//! ```text
//! impl Play for Bench {
//!     fn carry_out(&mut self, line: &str) -> Result<String, Stop> {
//!         let (word, rest) = first_word(line);
//!         match word {
//!             "push" => self.push(number(rest)?),
//!             _ => Err(Stop::Refused),
//!         }
//!     }
//! }
//!
//! fn main(rt: HostRuntime) -> ExitCode {
//!     ht_kit::run(&rt, Bench::start(rt.alloc()))
//! }
//! ```
//!
//! A line `note TEXT` is its own answer, in each program. Where lines may be repeated, `run_repeated` stands in place of `run`.
//!
//! It promises nothing but that it ends. It doesn't know what is tested: words of a layer's types are read in its program.
#![tactic(auto)]

mod bench;
mod bytes;
mod repeat;
mod script;
mod stop;
mod words;

pub use bench::Play;
pub use bytes::{as_text, bytes_of, from_digits, shown};
pub use script::{run, run_repeated};
pub use stop::Stop;
pub use words::{count, count_of_32_bits, counts, first_word, number, numbers, switch, told};
