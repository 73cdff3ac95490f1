//! Copies of what is heard. Each is Ok unless out of memory.

ghost use Rattle.std.specs.Prelude.{◌≡◌, IfOk};

use crate::heard::{Event, Heard};
use std::alloc::AllocError;

fn copy_event(event: &Event) -> Result<Event, AllocError>
    ensures { IfOk result (λ e. e ≡ event.now) }
{
    match event {
        Event::Request { lane, request } => Ok(Event::Request {
            lane: *lane,
            request: request.copy()?,
        }),
        Event::Refused { lane, refusal } => Ok(Event::Refused {
            lane: *lane,
            refusal: *refusal,
        }),
        Event::Bytes { lane, bytes } => Ok(Event::Bytes {
            lane: *lane,
            bytes: bytes.copy()?,
        }),
        Event::Response { lane, status, body } => Ok(Event::Response {
            lane: *lane,
            status: *status,
            body: body.copy()?,
        }),
        Event::Upgraded { lane } => Ok(Event::Upgraded { lane: *lane }),
        Event::Lost { lane } => Ok(Event::Lost { lane: *lane }),
        Event::Drained { lane } => Ok(Event::Drained { lane: *lane }),
        Event::Quiet => Ok(Event::Quiet),
    }
}

pub fn copy_heard(heard: &Heard) -> Result<Heard, AllocError>
    ensures { IfOk result (λ h. h ≡ heard.entry.now) }
{
    Ok(Heard {
        now: heard.now,
        event: copy_event(&heard.event)?,
    })
}
