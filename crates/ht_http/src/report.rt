//! Lines that say what a lane answered.

use crate::bytes::{shown, shown_front};
use hh_http::{HttpError, Response};
use hw_lanes::{Method, Refusal, ReplyField, Request, Text8};
use std::alloc::{AllocError, Global};

fn text_or_dash(alloc: Global, text: &Option<Text8>) -> Result<String, AllocError> {
    match text {
        Some(text) => {
            let text = shown(alloc, text.bytes())?;
            format!(in alloc; "[{text}]")
        }
        None => String::from_str(alloc, "-"),
    }
}

fn method_word(method: Method) -> &'static str {
    match method {
        Method::Get => "Get",
        Method::Post => "Post",
        Method::Delete => "Delete",
        Method::Other => "Other",
    }
}

fn request_line(alloc: Global, request: &Request) -> Result<String, AllocError> {
    let method = method_word(request.method);
    let path = shown(alloc, request.path.bytes())?;
    let query = shown(alloc, request.query.bytes())?;
    let bearer = text_or_dash(alloc, &request.bearer)?;
    let upgrade = text_or_dash(alloc, &request.upgrade)?;
    let shut = if request.shut { "shut" } else { "open" };
    let length = request.body.bytes().len();
    let body = shown_front(alloc, request.body.bytes())?;
    format!(in alloc;
        "request {method} [{path}] [{query}] {bearer} {upgrade} {shut} {length} [{body}]"
    )
}

fn response_line(alloc: Global, response: &Response) -> Result<String, AllocError> {
    let status = response.status;
    let accept = text_or_dash(alloc, &response.accept)?;
    let length = response.body.bytes().len();
    let body = shown_front(alloc, response.body.bytes())?;
    format!(in alloc; "response {status} {accept} {length} [{body}]")
}

fn field_text(field: ReplyField) -> &'static str {
    match field {
        ReplyField::AllowPost => "Allow: POST",
        ReplyField::AllowGetPostDelete => "Allow: GET, POST, DELETE",
        ReplyField::AuthenticateBearer => "WWW-Authenticate: Bearer",
        ReplyField::WebSocketVersion => "Sec-WebSocket-Version: 13",
    }
}

fn refusal_line(alloc: Global, refusal: Refusal) -> Result<String, AllocError> {
    let status = refusal.status;
    match refusal.field {
        Some(field) => {
            let field = field_text(field);
            format!(in alloc; "refused {status} [{field}]")
        }
        None => format!(in alloc; "refused {status}"),
    }
}

fn error_line(alloc: Global, error: HttpError) -> Result<String, AllocError> {
    match error {
        HttpError::Refused(refusal) => refusal_line(alloc, refusal),
        HttpError::NoMemory => Err(AllocError),
    }
}

/// What a lane of requests answered, if anything.
pub fn requested(
    alloc: Global,
    answer: Result<Option<Request>, HttpError>,
) -> Result<Option<String>, AllocError> {
    match answer {
        Ok(Some(request)) => Ok(Some(request_line(alloc, &request)?)),
        Ok(None) => Ok(None),
        Err(error) => Ok(Some(error_line(alloc, error)?)),
    }
}

/// What a lane of responses answered, if anything.
pub fn responded(
    alloc: Global,
    answer: Result<Option<Response>, HttpError>,
) -> Result<Option<String>, AllocError> {
    match answer {
        Ok(Some(response)) => Ok(Some(response_line(alloc, &response)?)),
        Ok(None) => Ok(None),
        Err(error) => Ok(Some(error_line(alloc, error)?)),
    }
}

/// A word and bytes.
pub fn line(alloc: Global, word: &str, bytes: &[u8]) -> Result<String, AllocError> {
    let text = shown(alloc, bytes)?;
    format!(in alloc; "{word} [{text}]")
}
