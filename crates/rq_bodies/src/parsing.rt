//! Bodies of requests: JSON lists of statements.
ghost use Rattle.std.specs.Prelude.{◌≡◌, true, Some, IfOk, option_map, is_some, string_bytes};
ghost use Rattle.serde_json.specs.View.{view, items_view, members_view};
ghost use Rattle.serde_json.specs.Data.{item, no_items};
ghost use Rattle.rq_bodies.specs.Body as spec;

use crate::error::BodyError;
use rq_request::{Params, Statement};
use rq_values::{NoMemory, Seq, Text, Value};
use serde_json::{Category, Map, Value as Json};
use std::alloc::Global;

/// How many statements a body may have.
const MOST: usize = 10_000;

/// The statements that the body lists, or its first defect.
pub fn parse_list(alloc: Global, body: &[u8]) -> Result<Seq<Statement>, BodyError>
    ensures { spec.Answers (spec.parsed body.now) result }
{
    match parsed(alloc, body) {
        Ok(answer) => answer,
        Err(NoMemory) => Err(BodyError::NoMemory),
    }
}

fn parsed(alloc: Global, body: &[u8]) -> Result<Result<Seq<Statement>, BodyError>, NoMemory>
    ensures { IfOk result (λ answer. answer ≡ spec.parsed body.now) }
{
    match json_of(alloc, body)? {
        Some(json) => from_json(alloc, json),
        None => Ok(Err(BodyError::NotJson)),
    }
}

/// The JSON value that the body spells, or None exactly where it spells none.
pub fn json_of(alloc: Global, body: &[u8]) -> Result<Option<Json>, NoMemory>
    ensures { IfOk result (λ value. option_map view value ≡ spec.json_of body.now) }
{
    match Json::from_slice(alloc, body) {
        Ok(value) => Ok(Some(value)),
        Err(error) => match error.classify() {
            Category::Memory => Err(NoMemory),
            _ => Ok(None),
        },
    }
}

fn from_json(alloc: Global, json: Json) -> Result<Result<Seq<Statement>, BodyError>, NoMemory>
    ensures { IfOk result (λ answer. answer ≡ spec.listed (view json)) }
{
    match json {
        Json::Array(items) => from_items(alloc, items),
        other => {
            drop(other);
            Ok(Err(BodyError::NotAList))
        }
    }
}

#[tactic(auto, using(crate::proofs::BodyItems::count_items_view))]
fn from_items(
    alloc: Global,
    items: Vec<Json>,
) -> Result<Result<Seq<Statement>, BodyError>, NoMemory>
    ensures { IfOk result (λ answer. answer ≡ spec.statements (items_view items.items)) }
{
    let count = items.len();
    if count > MOST {
        drop(items);
        return Ok(Err(BodyError::TooMany(count as u64)));
    }
    each_statement(alloc, items)
}

fn each_statement(
    alloc: Global,
    items: Vec<Json>,
) -> Result<Result<Seq<Statement>, BodyError>, NoMemory>
    ensures { IfOk result (λ answer. answer ≡ spec.statements_from 1 (items_view items.items)) }
{
    let mut statements = Vec::with_capacity(alloc, items.len())?;
    for item in items {
        let number = statements.len() as u64 + 1;
        match statement_of(alloc, number, item)? {
            Ok(statement) => statements.push(statement)?,
            Err(error) => return Ok(Err(error)),
        }
    }
    Ok(Ok(Seq::from_vec(statements)))
}

/// The statement of this number.
fn statement_of(
    alloc: Global,
    number: u64,
    json: Json,
) -> Result<Result<Statement, BodyError>, NoMemory>
    ensures { IfOk result (λ answer. answer ≡ spec.statement_of number (view json)) }
{
    match json {
        Json::String(text) => Ok(plain(number, text)),
        Json::Array(items) => with_values(alloc, number, items),
        other => {
            drop(other);
            Ok(Err(BodyError::BadStatement(number)))
        }
    }
}

/// A statement that is a text alone.
fn plain(number: u64, text: String) -> Result<Statement, BodyError>
    ensures { result ≡ spec.plain number (string_bytes text) }
{
    match Text::from_string(text) {
        Some(text) => Ok(Statement {
            text,
            params: Params::None,
        }),
        None => Err(BodyError::BadStatement(number)),
    }
}

/// A statement that is a list: its text, and what is given for its parameters.
fn with_values(
    alloc: Global,
    number: u64,
    mut items: Vec<Json>,
) -> Result<Result<Statement, BodyError>, NoMemory>
    ensures { IfOk result (λ answer. answer ≡ spec.with_values number (items_view items.items)) }
{
    if items.is_empty() {
        drop(items);
        return Ok(Err(BodyError::BadStatement(number)));
    }
    match text_of(items.remove(0)) {
        Some(text) => {
            let params = params_of(alloc, number, items)?;
            Ok(joined(text, params))
        }
        None => {
            drop(items);
            Ok(Err(BodyError::BadStatement(number)))
        }
    }
}

fn joined(text: Text, params: Result<Params, BodyError>) -> Result<Statement, BodyError>
    ensures { result ≡ spec.joined text params }
{
    match params {
        Ok(params) => Ok(Statement { text, params }),
        Err(error) => {
            drop(text);
            Err(error)
        }
    }
}

/// The text that a JSON value is, if it is a string without NUL.
fn text_of(json: Json) -> Option<Text>
    ensures { result ≡ spec.text_of (view json) }
{
    match json {
        Json::String(text) => Text::from_string(text),
        other => {
            drop(other);
            None
        }
    }
}

#[tactic(auto, using(crate::proofs::BodyItems::not_one))]
/// What stands behind a statement's text: one object of named values, or values.
fn params_of(
    alloc: Global,
    number: u64,
    mut items: Vec<Json>,
) -> Result<Result<Params, BodyError>, NoMemory>
    ensures { IfOk result (λ answer. answer ≡ spec.params_of number (items_view items.items)) }
{
    if items.len() != 1 {
        return values(alloc, number, items);
    }
    match items.remove(0) {
        Json::Object(members) => {
            drop(items);
            named(alloc, number, members)
        }
        other => {
            drop(items);
            one_value(alloc, number, other)
        }
    }
}

fn one_value(alloc: Global, number: u64, json: Json) -> Result<Result<Params, BodyError>, NoMemory>
    ensures { IfOk result (λ answer. answer ≡ spec.listed_params number (item (view json) no_items)) }
{
    match value_of(json) {
        Some(value) => {
            let mut found = Vec::new(alloc);
            found.push(value)?;
            Ok(Ok(Params::List(Seq::from_vec(found))))
        }
        None => Ok(Err(BodyError::BadValue(number, 1))),
    }
}

fn values(
    alloc: Global,
    number: u64,
    items: Vec<Json>,
) -> Result<Result<Params, BodyError>, NoMemory>
    ensures { IfOk result (λ answer. answer ≡ spec.listed_params number (items_view items.items)) }
{
    let mut found = Vec::with_capacity(alloc, items.len())?;
    for item in items {
        match value_of(item) {
            Some(value) => found.push(value)?,
            None => return Ok(Err(BodyError::BadValue(number, found.len() as u64 + 1))),
        }
    }
    Ok(Ok(Params::List(Seq::from_vec(found))))
}

fn named(
    alloc: Global,
    number: u64,
    members: Map<String, Json>,
) -> Result<Result<Params, BodyError>, NoMemory>
    ensures { IfOk result (λ answer. answer ≡ spec.named_params number (members_view members.entries)) }
{
    let mut found = Vec::new(alloc);
    for (name, item) in members {
        match named_value(name, item) {
            Some(pair) => found.push(pair)?,
            None => return Ok(Err(BodyError::BadValue(number, found.len() as u64 + 1))),
        }
    }
    Ok(Ok(Params::Named(Seq::from_vec(found))))
}

fn named_value(name: String, item: Json) -> Option<(Text, Value)>
    ensures { result ≡ spec.named_value (string_bytes name) (view item) }
{
    let name = Text::from_string(name);
    match value_of(item) {
        Some(value) => with_name(name, value),
        None => {
            drop(name);
            None
        }
    }
}

fn with_name(name: Option<Text>, value: Value) -> Option<(Text, Value)>
    ensures { result ≡ option_map (λ k. (k, value)) name }
{
    match name {
        Some(name) => Some((name, value)),
        None => {
            drop(value);
            None
        }
    }
}

/// The value that a JSON value is, if it is one.
fn value_of(json: Json) -> Option<Value>
    ensures { result ≡ spec.value_of (view json) }
{
    match json {
        Json::Null => Some(Value::Null),
        Json::Bool(flag) => Some(Value::Int(i64::from(flag))),
        Json::Number(number) => number.as_i64().map(Value::Int),
        Json::String(text) => Text::from_string(text).map(Value::Text),
        Json::Array(items) => {
            drop(items);
            None
        }
        Json::Object(members) => {
            drop(members);
            None
        }
    }
}
