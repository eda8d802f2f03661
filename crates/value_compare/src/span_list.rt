//! Lists of ranges and points.

ghost use Rattle.std.specs.Prelude.{◌≡◌, map};
ghost use Rattle.value_model.specs.Keys.{AreAscending};
ghost use Rattle.value_compare.specs.Spans.{span_of};

use crate::span::Span;
use std::marker::Model;

/// Ranges and points in the order of their keys, of which no two have a key in common.
#[derive(Drop)]
pub struct SpanList {
    spans: Vec<Span>,
}

impl Model for SpanList {
    ghost use Rattle.std.specs.Prelude.{List, map};
    ghost use Rattle.value_model.specs.Keys.{AreAscending, Span};
    ghost use Rattle.value_compare.specs.Code.{spans_code};

    ghost Value = { List Span };

    ghost coded = { spans_code };

    ghost use Rattle.value_compare.specs.Spans.{span_of};

    ghost view = { λ s. map span_of s.spans.items };

    ghost invariant = { λ s. AreAscending (map span_of s.spans.items) };
}

impl SpanList {
    /// Returns the list of these spans, each of which is before those after it.
    pub fn of(spans: Vec<Span>) -> SpanList
        requires ascending { AreAscending (map span_of spans.items) }
        ensures { result ≡ map span_of spans.items }
    {
        SpanList { spans }
    }

    /// Returns the spans, in the order of their keys.
    pub fn spans(&self) -> &[Span]
        ensures spans { map span_of result.now ≡ self.now }
        ensures ascending { AreAscending self.now }
    {
        self.spans.as_slice()
    }
}
