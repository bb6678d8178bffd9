// A head, read whole.
ghost use Rattle.std.specs.Prelude.{◌≡◌, ◌≤◌, ◌+◌, List, [], length, map, take, slice_range, All, Some, None};
ghost use Rattle.std.specs.List.{list_any};
ghost use Rattle.httparse.specs.Grammar.{RequestHead};
ghost use Rattle.httparse.specs.Spans.{IsHeaderWithin, IsWithin, header_bytes, span_bytes};
ghost use Rattle.rq_http.specs.Framing.{framing_of, closes_after, is_head_method, is_encoded, by_length, sized};
ghost use Rattle.http1.specs.Fields.{known_fields};
ghost use Rattle.rq_http.specs.Head.{IsReadHead};
ghost use Rattle.rq_http.specs.Request.{IsHead, fields_of};
ghost use Rattle.rq_http.specs.declared.head.Framing.TheVariants.{Bad};

use http1::fields::{ContentLength, KnownFields, TransferEncoding};
use http1::text::eq_ignore_case;
use httparse::Status;
use httparse::spans::{EMPTY_HEADER_SPAN, HeaderSpan, RequestSpans, Span, parse_request};

/// The longest body, in bytes.
pub const MAX_BODY: u64 = 1_048_576;

/// The most fields of a head.
const MAX_FIELDS: usize = 64;

/// What a head says of the body.
#[derive(Clone, Copy)]
pub enum Framing {
    /// It isn't framed, or in a way that isn't taken.
    Bad,
    /// It has so many bytes.
    Body(u64),
    /// It has so many bytes, too many.
    Long(u64),
}

/// Why a head is refused.
#[derive(Clone, Copy)]
pub enum Refusal {
    BadHead,
    /// The body has so many bytes, more than a body may have.
    LongBody(u64),
}

/// A head that was read.
#[derive(Clone, Copy)]
pub struct ReadHead {
    pub method: Span,
    pub target: Span,
    pub framing: Framing,
    /// Whether the connection ends after the request.
    pub closes: bool,
}

fn is_encoded(name: &[u8], value: &[u8]) -> bool
    ensures { result ≡ is_encoded (name.now, value.now) }
{
    eq_ignore_case(name, b"content-encoding") && !eq_ignore_case(value, b"identity")
}

fn has_encoding(bytes: &[u8], headers: &[HeaderSpan]) -> bool
    requires { All (IsHeaderWithin (length bytes.now)) headers.now }
    ensures { result ≡ list_any is_encoded (map (header_bytes bytes.now) headers.now) }
{
    for header in headers {
        if is_encoded(header.name.of(bytes), header.value.of(bytes)) {
            return true;
        }
    }
    false
}

fn sized(count: u64) -> Framing
    ensures { result ≡ sized count }
{
    if count <= MAX_BODY {
        Framing::Body(count)
    } else {
        Framing::Long(count)
    }
}

fn length_framing(known: &KnownFields) -> Framing
    ensures { result ≡ by_length known.now known.now.content_length }
{
    match known.content_length {
        ContentLength::Absent => Framing::Body(0),
        ContentLength::Value(count) if known.plain_framing && known.framing_fields == 1 => {
            sized(count)
        }
        _ => Framing::Bad,
    }
}

fn find_framing(bytes: &[u8], headers: &[HeaderSpan], known: &KnownFields) -> Framing
    requires within { All (IsHeaderWithin (length bytes.now)) headers.now }
    requires known { known.now ≡ known_fields (map (header_bytes bytes.now) headers.now) }
    ensures { result ≡ framing_of (map (header_bytes bytes.now) headers.now) }
{
    if has_encoding(bytes, headers) {
        return Framing::Bad;
    }
    match known.transfer_encoding {
        TransferEncoding::Absent => length_framing(known),
        _ => Framing::Bad,
    }
}

fn is_head_method(method: &[u8]) -> bool
    ensures { result ≡ is_head_method method.now }
{
    method == b"HEAD".as_slice()
}

fn judge(bytes: &[u8], spans: &RequestSpans, headers: &[HeaderSpan]) -> ReadHead
    requires fields { All (IsHeaderWithin (length bytes.now)) headers.now }
    requires method { IsWithin (length bytes.now) spans.now.method }
    ensures { result ≡ record { method = spans.now.method; target = spans.now.path; framing = framing_of (map (header_bytes bytes.now) headers.now); closes = closes_after (span_bytes bytes.now spans.now.method) spans.now.version (map (header_bytes bytes.now) headers.now) } }
{
    let known = KnownFields::from_spans(bytes, headers);
    ReadHead {
        method: spans.method,
        target: spans.path,
        framing: find_framing(bytes, headers, &known),
        closes: is_head_method(spans.method.of(bytes)) || spans.version == 0 || known.close,
    }
}

/// Reads bytes that are to be one head. None exactly where they are no head of at most 64 fields.
pub fn read_head(bytes: &[u8]) -> Option<ReadHead>
    ensures head { (head : ReadHead) → result ≡ Some head → IsReadHead bytes.now head }
    ensures none { result ≡ None → (h : RequestHead) → IsHead bytes.now h → ⊥ }
{
    let mut headers = [EMPTY_HEADER_SPAN; MAX_FIELDS];
    match parse_request(bytes, &mut headers) {
        Ok(Status::Complete(spans)) => {
            if spans.len == bytes.len() {
                Some(judge(bytes, &spans, &headers[..spans.headers]))
            } else {
                None
            }
        }
        _ => None,
    }
}
