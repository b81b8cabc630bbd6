// Looking up the header fields of a name.
ghost use Rattle.std.specs.Prelude.{◌≡◌, ℕ, List, [], ◌∷◌, ◌++◌, length, map, All};
ghost use Rattle.httparse.specs.Spans.{header_bytes, IsHeaderWithin, IsWithin, span_bytes};
ghost use Rattle.bulk_replies.specs.Fields.{is_same, values_of};
ghost use Rattle.bulk_replies.specs.Found.{Finds};

use httparse::spans::{HeaderSpan, Span};

/// The fields of a name.
#[derive(Clone, Copy)]
pub(crate) enum FieldMatch {
    Missing,
    /// One, whose value stands there.
    One(Span),
    Several,
}

impl FieldMatch {
    // With one value more.
    fn and(self, value: Span) -> FieldMatch
        ensures { (reply : List ℕ) (values : List (List ℕ)) → Finds reply values self
            → IsWithin (length reply) value
            → Finds reply (values ++ span_bytes reply value ∷ []) result }
    {
        match self {
            FieldMatch::Missing => FieldMatch::One(value),
            FieldMatch::One(_) | FieldMatch::Several => FieldMatch::Several,
        }
    }
}

/// The fields of a name in a head.
pub(crate) fn find(reply: &[u8], headers: &[HeaderSpan], name: &str) -> FieldMatch
    requires { All (IsHeaderWithin (length reply.now)) headers.now }
    ensures { Finds reply.now (values_of name.now (map (header_bytes reply.now) headers.now))
        result }
{
    let mut found = FieldMatch::Missing;
    for header in headers {
        if is_named(reply, header, name) {
            found = found.and(header.value);
        }
    }
    found
}

fn is_named(reply: &[u8], header: &HeaderSpan, name: &str) -> bool
    requires { IsHeaderWithin (length reply.now) header.now }
    ensures { result ≡ is_same (span_bytes reply.now header.now.name) name.now }
{
    header.name.of(reply).eq_ignore_ascii_case(name.as_bytes())
}
