//! What crates above cite of resend buffers. No function here does anything: its contract is the law.

ghost use Rattle.hq_resend.specs.Buffers.{IsWithin};
ghost use Rattle.hq_resend.specs.Laws.{NextIsInOrder, IsNumbering};

use crate::resend::Resend;

/// What is true of each buffer: the order of its numbers, how many frames it holds, and that both limits are kept.
pub fn buffer_is_within(resend: &Resend)
    ensures { IsWithin resend.now }
{
    resend.shows_its_bounds();
}

/// The frame that is written next is the one after those written, in the order in which they were pushed.
pub fn next_is_in_order()
    ensures { NextIsInOrder }
{}

/// An [`Intake`](crate::Intake) counts messages, and finds those left out, as the definition of two ends does (`hd_delivery`).
pub fn intake_is_numbering()
    ensures { IsNumbering }
{}
