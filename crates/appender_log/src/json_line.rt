// Records as JSON (RFC 8259), each an object on a line of its own.
ghost use Rattle.std.specs.Prelude.{◌≡◌, ◌++◌, ◌∷◌, [], IfSome, IfOk, OnOk, map, string_bytes};
ghost use Rattle.log.specs.Kv.{value_text};
ghost use Rattle.log.specs.Record.{metadata_level, metadata_target, record_args, record_key_values, record_spans};
ghost use Rattle.appender_log.specs.Json.{
  ShowsText,
  ShowsPair,
  ShowsScope,
  AreMembers,
  AreSpans,
  IsJsonLine,
  time_tokens,
  text_tokens,
  fields_tokens,
  span_tokens,
  spans_tokens,
  record_tokens,
};
ghost use Rattle.appender_log.specs.JsonKept.{scalar_token, member_of, span_of, AddsShown, PutsTokens};

use crate::times::time_text;
use json::Writer;
use log::kv::{Source, Value, VisitSource};
use log::span::{Spans, VisitSpans};
use log::{Metadata, Record, kv};
use number::Number;
use std::alloc::{AllocError, Global};
use std::fmt::Display;

mod number;

// The value of a field.
#[derive(Drop)]
enum Scalar {
    Null,
    Bool(bool),
    Number(Number),
    Text(String),
}

#[derive(Drop)]
struct Field {
    key: String,
    value: Scalar,
}

#[derive(Drop)]
struct Span {
    name: String,
    fields: Vec<Field>,
}

// Keeps what it visits. The line is written afterwards, so its form does not depend on the source.
#[derive(Drop)]
struct Collector<T> {
    alloc: Global,
    items: Vec<T>,
}

/// What is kept of a record until its line is written.
#[derive(Drop)]
pub(super) struct KeptRecord {
    message: String,
    spans: Vec<Span>,
    fields: Vec<Field>,
}

impl KeptRecord {
    /// Formats a record. `AllocError` if there is no memory, or if the message or a value cannot be formatted.
    pub(super) fn new<D: Display, K: Source, S: Spans>(
        alloc: Global,
        record: &Record<'_, D, K, S>,
    ) -> Result<KeptRecord, AllocError>
        ensures text { IfOk result (λ kept. IfSome (D.output (record_args «record».now)) (λ t. string_bytes kept.message ≡ t)) }
        ensures spans { IfOk result (λ kept. AreSpans (S.scopes (record_spans «record».now)) (map span_of kept.spans.items)) }
        ensures fields { IfOk result (λ kept. AreMembers (K.pairs (record_key_values «record».now)) (map member_of kept.fields.items)) }
    {
        Ok(KeptRecord {
            message: String::format(alloc, record.args())?,
            spans: spans_of(alloc, record.spans())?,
            fields: fields_of(alloc, record.key_values())?,
        })
    }

    /// Returns the record as a line of JSON, with its newline.
    pub(super) fn line(
        &self,
        alloc: Global,
        nanos: Option<i128>,
        metadata: &Metadata<'_>,
    ) -> Result<Vec<u8>, AllocError>
        ensures { IfOk result (λ line. IsJsonLine (record_tokens nanos (metadata_level metadata.now)
            (metadata_target metadata.now) (string_bytes self.now.message) (map span_of self.now.spans.items)
            (map member_of self.now.fields.items)) line.items) }
    {
        let mut line = Writer::new(Vec::with_capacity(alloc, 128)?);
        put_record(&mut line, nanos, metadata, self)?;
        let mut line = line.into_inner();
        line.push(b'\n')?;
        Ok(line)
    }
}

fn fields_of<K: Source>(alloc: Global, source: &K) -> Result<Vec<Field>, AllocError>
    ensures { IfOk result (λ fields. AreMembers (K.pairs source.now) (map member_of fields.items)) }
{
    let mut fields = Collector {
        alloc,
        items: Vec::new(alloc),
    };
    match source.visit(&mut fields) {
        Ok(()) => Ok(fields.items),
        Err(_) => Err(AllocError),
    }
}

impl VisitSource for Collector<Field> {
    ghost visit_pair_gives = { λ old pair new.
        AddsShown ShowsPair (map member_of old.items.items) pair (map member_of new.items.items) };

    fn visit_pair<D: Display>(&mut self, key: &str, value: Value<'_, D>) -> Result<(), kv::Error> {
        match add_field(self.alloc, &mut self.items, key, value) {
            Ok(()) => Ok(()),
            Err(_) => Err(kv::Error::Fmt),
        }
    }
}

fn add_field<D: Display>(
    alloc: Global,
    fields: &mut Vec<Field>,
    key: &str,
    value: Value<'_, D>,
) -> Result<(), AllocError>
    ensures { OnOk result (IfSome (value_text D.output value.entry) (λ text. AddsShown ShowsPair
        (map member_of fields.old.items) (key.now, text) (map member_of fields.new.items))) }
{
    let key = String::from_str(alloc, key)?;
    let value = scalar_of(alloc, value)?;
    fields.push(Field { key, value })?;
    Ok(())
}

fn scalar_of<D: Display>(alloc: Global, value: Value<'_, D>) -> Result<Scalar, AllocError>
    ensures { IfOk result (λ s. IfSome (value_text D.output value.entry) (ShowsText (scalar_token s))) }
{
    match value {
        Value::Null => Ok(Scalar::Null),
        Value::Bool(b) => Ok(Scalar::Bool(b)),
        Value::Char(_) | Value::Str(_) | Value::Display(_) => {
            Ok(Scalar::Text(String::format(alloc, value)?))
        }
        // `{:?}` writes a point or an exponent, as in `1.0`, so that a reader finds a float.
        Value::F64(x) => Ok(number_or_text(format!(in alloc; "{x:?}")?)),
        _ => Ok(number_or_text(String::format(alloc, value)?)),
    }
}

// A string if the text is not a number. JSON has no infinity and no NaN.
fn number_or_text(text: String) -> Scalar
    ensures { ShowsText (scalar_token result) (string_bytes text) }
{
    match Number::new(text) {
        Ok(number) => Scalar::Number(number),
        Err(text) => Scalar::Text(text),
    }
}

fn spans_of<S: Spans>(alloc: Global, source: &S) -> Result<Vec<Span>, AllocError>
    ensures { IfOk result (λ spans. AreSpans (S.scopes source.now) (map span_of spans.items)) }
{
    let mut spans = Collector {
        alloc,
        items: Vec::new(alloc),
    };
    match source.visit(&mut spans) {
        Ok(()) => Ok(spans.items),
        Err(_) => Err(AllocError),
    }
}

impl VisitSpans for Collector<Span> {
    ghost visit_span_gives = { λ old scope new.
        AddsShown ShowsScope (map span_of old.items.items) scope (map span_of new.items.items) };

    fn visit_span<K: Source>(&mut self, name: &str, fields: &K) -> Result<(), kv::Error> {
        match add_span(self.alloc, &mut self.items, name, fields) {
            Ok(()) => Ok(()),
            Err(_) => Err(kv::Error::Fmt),
        }
    }
}

fn add_span<K: Source>(
    alloc: Global,
    spans: &mut Vec<Span>,
    name: &str,
    fields: &K,
) -> Result<(), AllocError>
    ensures { OnOk result (IfSome (K.pairs fields.now) (λ pairs. AddsShown ShowsScope
        (map span_of spans.old.items) (name.now, pairs) (map span_of spans.new.items))) }
{
    let name = String::from_str(alloc, name)?;
    let fields = fields_of(alloc, fields)?;
    spans.push(Span { name, fields })?;
    Ok(())
}

fn put_record(
    line: &mut Writer,
    nanos: Option<i128>,
    metadata: &Metadata<'_>,
    kept: &KeptRecord,
) -> Result<(), AllocError>
    ensures { PutsTokens result line.old line.new (record_tokens nanos (metadata_level metadata.now)
        (metadata_target metadata.now) (string_bytes kept.now.message) (map span_of kept.now.spans.items)
        (map member_of kept.now.fields.items)) }
{
    line.begin_object()?;
    put_time(line, nanos)?;
    put_text(line, "level", metadata.level().as_str())?;
    put_text(line, "target", metadata.target())?;
    put_text(line, "message", &kept.message)?;
    put_spans(line, kept.spans.as_slice())?;
    put_fields(line, kept.fields.as_slice())?;
    line.end_object()?;
    Ok(())
}

fn put_time(line: &mut Writer, nanos: Option<i128>) -> Result<(), AllocError>
    ensures { PutsTokens result line.old line.new (time_tokens nanos) }
{
    match nanos {
        Some(nanos) => put_text(line, "timestamp", time_text(nanos).as_str()),
        None => Ok(()),
    }
}

fn put_text(line: &mut Writer, name: &str, text: &str) -> Result<(), AllocError>
    ensures { PutsTokens result line.old line.new (text_tokens name.now text.now) }
{
    line.key(name)?;
    line.string(text)?;
    Ok(())
}

fn put_spans(line: &mut Writer, spans: &[Span]) -> Result<(), AllocError>
    ensures { PutsTokens result line.old line.new (spans_tokens (map span_of spans.now)) }
{
    if spans.is_empty() {
        return Ok(());
    }
    line.key("spans")?;
    line.begin_array()?;
    for span in spans {
        put_span(line, span)?;
    }
    line.end_array()?;
    Ok(())
}

fn put_span(line: &mut Writer, span: &Span) -> Result<(), AllocError>
    ensures { PutsTokens result line.old line.new (span_tokens (span_of span.now)) }
{
    line.begin_object()?;
    put_text(line, "name", &span.name)?;
    put_fields(line, &span.fields)?;
    line.end_object()?;
    Ok(())
}

fn put_fields(line: &mut Writer, fields: &[Field]) -> Result<(), AllocError>
    ensures { PutsTokens result line.old line.new (fields_tokens (map member_of fields.now)) }
{
    if fields.is_empty() {
        return Ok(());
    }
    line.key("fields")?;
    line.begin_object()?;
    for field in fields {
        line.key(&field.key)?;
        put_scalar(line, &field.value)?;
    }
    line.end_object()?;
    Ok(())
}

fn put_scalar(line: &mut Writer, value: &Scalar) -> Result<(), AllocError>
    ensures { PutsTokens result line.old line.new (scalar_token value.now ∷ []) }
{
    match value {
        Scalar::Null => line.null(),
        Scalar::Bool(b) => line.boolean(*b),
        Scalar::Number(number) => line.number(&number.text),
        Scalar::Text(text) => line.string(text),
    }
}
