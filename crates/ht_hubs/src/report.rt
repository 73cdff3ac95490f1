//! How acts and lists are printed.

use hd_calls::{Act, Deed};
use hm_message::Ending;
use hv_value::{Items, Text, Value};
use std::alloc::AllocError;

/// As JSON has it. A number or a text is its own image.
fn push_value(out: &mut String, value: &Value) -> Result<(), AllocError> {
    let image = value.json_image()?;
    match &image {
        Value::Null => out.push_str("null"),
        Value::Int(whole) => {
            let number = whole.get();
            write!(out, "{number}")
        }
        Value::Text(text) => push_text(out, "'", text),
        _ => out.push_str("another value"),
    }
}

pub fn push_text(out: &mut String, before: &str, text: &Text) -> Result<(), AllocError> {
    out.push_str(before)?;
    out.push_str(text.as_str())
}

/// A target with its arguments.
fn push_target(out: &mut String, target: &Text, arguments: &Items) -> Result<(), AllocError> {
    push_text(out, " ", target)?;
    for value in arguments.values() {
        out.push_str(" ")?;
        push_value(out, value)?;
    }
    Ok(())
}

fn push_ending(out: &mut String, ending: &Ending) -> Result<(), AllocError> {
    match ending {
        Ending::Void => out.push_str("void"),
        Ending::Result(value) => {
            out.push_str("result ")?;
            push_value(out, value)
        }
        Ending::Error(error) => push_text(out, "error ", error),
    }
}

fn push_deed(out: &mut String, deed: &Deed) -> Result<(), AllocError> {
    match deed {
        Deed::Join(room) => push_text(out, "join '", room),
        Deed::Leave(room) => push_text(out, "leave '", room),
        Deed::Post {
            group,
            target,
            arguments,
        } => {
            push_text(out, "post '", group)?;
            push_target(out, target, arguments)
        }
        Deed::Tell {
            user,
            target,
            arguments,
        } => {
            push_text(out, "tell '", user)?;
            push_target(out, target, arguments)
        }
        Deed::Log { room, text } => {
            push_text(out, "log '", room)?;
            push_text(out, " '", text)
        }
        Deed::History { room, most } => {
            push_text(out, "history '", room)?;
            write!(out, " {most}")
        }
    }
}

pub fn push_act(out: &mut String, act: &Act) -> Result<(), AllocError> {
    match act {
        Act::More => out.push_str("more"),
        Act::Wait => out.push_str("wait"),
        Act::Item(value) => {
            out.push_str("item ")?;
            push_value(out, value)
        }
        Act::End(ending) => push_ending(out, ending),
        Act::Ask { target, arguments } => {
            out.push_str("ask")?;
            push_target(out, target, arguments)
        }
        Act::Do(deed) => push_deed(out, deed),
    }
}

/// The numbers with a comma between two, or a dash if there are none.
pub fn push_numbers(out: &mut String, numbers: &[u64]) -> Result<(), AllocError> {
    if numbers.is_empty() {
        return out.push_str("-");
    }
    for (place, number) in numbers.iter().enumerate() {
        if place > 0 {
            out.push_str(",")?;
        }
        write!(out, "{number}")?;
    }
    Ok(())
}
