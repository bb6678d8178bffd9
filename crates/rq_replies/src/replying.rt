//! Bodies of replies.
ghost use Rattle.std.specs.Prelude.{◌≡◌, ◌++◌, ◌∷◌, [], codes, flat_map, OnOk, OnErr, IfOk, decimal, true, false};
ghost use Rattle.std.specs.Fmt.{signed_decimal};
ghost use Rattle.json.specs.Token.{key, number, string};
ghost use Rattle.base64.specs.Engines.{standard};
ghost use Rattle.base64.specs.GeneralPurpose.{encode_of};
ghost use Rattle.rq_replies.specs.Output.{Adds, prefix_in, layout_in, tokens_in, text};
ghost use Rattle.rq_request.specs.declared.say.Say.TheVariants.{Queued};
ghost use Rattle.rq_replies.specs.Reply as spec;

use crate::objects::write_objects;
use crate::output::Output;
use crate::refusing::{append, write_refusal};
use crate::servers::write_servers;
use base64::engine::general_purpose::STANDARD;
use rq_request::{Say, Shape};
use rq_statement::Res;
use rq_values::{NoMemory, Seq, Text, Value};
use std::alloc::{AllocError, Global};
use std::mem::replace;

/// Appends the body of the reply. With no memory the bytes stay as they were.
pub fn reply(alloc: Global, say: &Say, shape: Shape, into: &mut Vec<u8>) -> Result<(), NoMemory>
    ensures ok { OnOk result (into.new.items ≡ into.old.items ++ spec.body_of shape say.now) }
    ensures err { OnErr result (into.new.items ≡ into.old.items) }
{
    match say {
        Say::Ready => append(b"ready", into),
        Say::Backup(sql) => append(sql.bytes(), into),
        Say::Moved(_) => Ok(()),
        Say::Refused(refusal) => write_refusal(alloc, *refusal, into),
        Say::Results(_) | Say::Queued(_) | Say::Loaded | Say::Nodes(_) | Say::Changed => {
            write_json(alloc, say, shape, into)
        }
    }
}

/// Appends a reply in JSON. With no memory the bytes stay as they were.
fn write_json(alloc: Global, say: &Say, shape: Shape, into: &mut Vec<u8>) -> Result<(), NoMemory>
    ensures ok { OnOk result (into.new.items ≡ into.old.items ++ spec.json_reply shape say.now) }
    ensures err { OnErr result (into.new.items ≡ into.old.items) }
{
    let start = into.len();
    let mut output = Output::new(alloc, replace(into, Vec::new(alloc)), shape.pretty);
    match write_reply(alloc, say, shape.associative, &mut output) {
        Ok(()) => finish(output, into),
        Err(_) => {
            drop(replace(into, output.abandon(start)));
            Err(NoMemory)
        }
    }
}

fn finish(output: Output, into: &mut Vec<u8>) -> Result<(), NoMemory>
    ensures ok { OnOk result (into.new.items ≡ prefix_in output ++ text (layout_in output) (tokens_in output)) }
    ensures err { OnErr result (into.new.items ≡ prefix_in output) }
{
    match output.finish() {
        Ok(bytes) => {
            drop(replace(into, bytes));
            Ok(())
        }
        Err(bytes) => {
            drop(replace(into, bytes));
            Err(NoMemory)
        }
    }
}

fn write_reply(
    alloc: Global,
    say: &Say,
    associative: bool,
    output: &mut Output,
) -> Result<(), AllocError>
    ensures { Adds result output.old output.new (spec.object_of (spec.reply_members associative say.now)) }
{
    output.begin_object()?;
    write_members(alloc, say, associative, output)?;
    output.end_object()
}

fn write_members(
    alloc: Global,
    say: &Say,
    associative: bool,
    output: &mut Output,
) -> Result<(), AllocError>
    ensures { Adds result output.old output.new (spec.reply_members associative say.now) }
{
    match say {
        Say::Results(results) => write_results(alloc, results.as_slice(), associative, output),
        Say::Queued(number) => write_queued(*number, output),
        Say::Loaded => write_no_results(output),
        Say::Nodes(servers) => write_servers(servers.as_slice(), output),
        Say::Backup(_) | Say::Ready | Say::Changed | Say::Moved(_) | Say::Refused(_) => Ok(()),
    }
}

/// An empty list of results.
fn write_no_results(output: &mut Output) -> Result<(), AllocError>
    ensures { Adds result output.old output.new (key (codes "results") ∷ spec.array_of []) }
{
    output.key("results")?;
    output.begin_array()?;
    output.end_array()
}

fn write_queued(number: u64, output: &mut Output) -> Result<(), AllocError>
    ensures { Adds result output.old output.new (spec.reply_members false (Queued number)) }
{
    write_no_results(output)?;
    write_count("sequence_number", number, output)
}

fn write_results(
    alloc: Global,
    results: &[Res],
    associative: bool,
    output: &mut Output,
) -> Result<(), AllocError>
    ensures { Adds result output.old output.new (spec.results_member associative results.now) }
{
    output.key("results")?;
    output.begin_array()?;
    for res in results {
        write_result(alloc, res, associative, output)?;
    }
    output.end_array()
}

fn write_result(
    alloc: Global,
    res: &Res,
    associative: bool,
    output: &mut Output,
) -> Result<(), AllocError>
    ensures { Adds result output.old output.new (spec.result_tokens associative res.now) }
{
    output.begin_object()?;
    write_result_members(alloc, res, associative, output)?;
    output.end_object()
}

fn write_result_members(
    alloc: Global,
    res: &Res,
    associative: bool,
    output: &mut Output,
) -> Result<(), AllocError>
    ensures { Adds result output.old output.new (spec.result_members associative res.now) }
{
    match res {
        Res::Done {
            last_insert_id,
            rows_affected,
        } => write_done(*last_insert_id, *rows_affected, output),
        Res::Rows {
            columns,
            types,
            values,
        } => write_table(
            alloc,
            columns.as_slice(),
            types.as_slice(),
            values.as_slice(),
            associative,
            output,
        ),
        Res::Error(text) => write_error(text, output),
    }
}

fn write_error(text: &Text, output: &mut Output) -> Result<(), AllocError>
    ensures { Adds result output.old output.new (key (codes "error") ∷ string text.now ∷ []) }
{
    output.key("error")?;
    output.string(text.as_str())
}

fn write_done(
    last_insert_id: i64,
    rows_affected: u64,
    output: &mut Output,
) -> Result<(), AllocError>
    ensures { Adds result output.old output.new (spec.id_member last_insert_id ++ spec.affected_member rows_affected) }
{
    write_last_insert_id(last_insert_id, output)?;
    write_rows_affected(rows_affected, output)
}

fn write_last_insert_id(id: i64, output: &mut Output) -> Result<(), AllocError>
    ensures { Adds result output.old output.new (spec.id_member id) }
{
    if id == 0 {
        return Ok(());
    }
    write_int("last_insert_id", id, output)
}

fn write_int(name: &str, int: i64, output: &mut Output) -> Result<(), AllocError>
    ensures { Adds result output.old output.new (key name.now ∷ number (signed_decimal int) ∷ []) }
{
    output.key(name)?;
    output.i64(int)
}

fn write_rows_affected(rows: u64, output: &mut Output) -> Result<(), AllocError>
    ensures { Adds result output.old output.new (spec.affected_member rows) }
{
    if rows == 0 {
        return Ok(());
    }
    write_count("rows_affected", rows, output)
}

fn write_count(name: &str, count: u64, output: &mut Output) -> Result<(), AllocError>
    ensures { Adds result output.old output.new (key name.now ∷ number (decimal count) ∷ []) }
{
    output.key(name)?;
    output.u64(count)
}

fn write_table(
    alloc: Global,
    columns: &[Text],
    types: &[Text],
    rows: &[Seq<Value>],
    associative: bool,
    output: &mut Output,
) -> Result<(), AllocError>
    ensures { Adds result output.old output.new (spec.table_members associative columns.now types.now rows.now) }
{
    if associative {
        write_objects(alloc, columns, types, rows, output)
    } else {
        write_lists(alloc, columns, types, rows, output)
    }
}

fn write_lists(
    alloc: Global,
    columns: &[Text],
    types: &[Text],
    rows: &[Seq<Value>],
    output: &mut Output,
) -> Result<(), AllocError>
    ensures { Adds result output.old output.new (spec.table_members false columns.now types.now rows.now) }
{
    write_texts("columns", columns, output)?;
    write_texts("types", types, output)?;
    write_values(alloc, rows, output)
}

fn write_texts(name: &str, texts: &[Text], output: &mut Output) -> Result<(), AllocError>
    ensures { Adds result output.old output.new (spec.texts_member name.now texts.now) }
{
    output.key(name)?;
    output.begin_array()?;
    for text in texts {
        output.string(text.as_str())?;
    }
    output.end_array()
}

/// The rows; no rows at all are left output.
fn write_values(alloc: Global, rows: &[Seq<Value>], output: &mut Output) -> Result<(), AllocError>
    ensures { Adds result output.old output.new (spec.values_member rows.now) }
{
    if rows.is_empty() {
        return Ok(());
    }
    output.key("values")?;
    write_rows(alloc, rows, output)
}

fn write_rows(alloc: Global, rows: &[Seq<Value>], output: &mut Output) -> Result<(), AllocError>
    ensures { Adds result output.old output.new (spec.array_of (flat_map spec.row_tokens rows.now)) }
{
    output.begin_array()?;
    for row in rows {
        write_row(alloc, row.as_slice(), output)?;
    }
    output.end_array()
}

fn write_row(alloc: Global, row: &[Value], output: &mut Output) -> Result<(), AllocError>
    ensures { Adds result output.old output.new (spec.row_tokens row.now) }
{
    output.begin_array()?;
    for value in row {
        write_value(alloc, value, output)?;
    }
    output.end_array()
}

pub(crate) fn write_value(
    alloc: Global,
    value: &Value,
    output: &mut Output,
) -> Result<(), AllocError>
    ensures { Adds result output.old output.new (spec.value_token value.now ∷ []) }
{
    match value {
        Value::Null => output.null(),
        Value::Int(number) => output.i64(*number),
        Value::Text(text) => output.string(text.as_str()),
        Value::Blob(bytes) => write_blob(alloc, bytes.bytes(), output),
    }
}

/// A blob as base64 text.
fn write_blob(alloc: Global, bytes: &[u8], output: &mut Output) -> Result<(), AllocError>
    ensures { Adds result output.old output.new (string (encode_of standard bytes.now) ∷ []) }
{
    let text = STANDARD.encode(alloc, bytes)?;
    output.string(text.as_str())
}
