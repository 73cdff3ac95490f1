//! What is written for a stream of hub messages in frames (HubProtocol.md of ASP.NET Core): a line of each frame, or
//! each message in the other codec.
//!
//! [`Task::run`] reads the input piece by piece to its end, or up to the first frame that is refused, and writes what
//! belongs to the frames of a piece in one go. It does not know which command asked for it, nor what a message means.
#![tactic(auto)]

mod laws;
mod output_buffer;
mod run;
mod stream;
mod task;

pub use laws::has_one_answer;
pub use task::{Stop, Task};
