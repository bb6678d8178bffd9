//! The small pieces of canonical text: words, names, literals, operators.
ghost use Rattle.std.specs.Prelude.{◌≡◌, ◌<◌, ◌++◌, OnOk};
ghost use Rattle.rq_lexer.specs.Spelled as spelled;
ghost use Rattle.rq_print.specs.Text as spec;

use rq_grammar::{BinaryOp, ColumnKind};
use rq_values::{NoMemory, Text, Value};

pub fn print_bytes(bytes: &[u8], into: &mut Vec<u8>) -> Result<(), NoMemory>
    ensures { OnOk result (into.new.items ≡ into.old.items ++ bytes.now) }
{
    into.extend_from_slice(bytes)?;
    Ok(())
}

/// The bytes where the flag is set.
pub fn print_flag(flag: bool, bytes: &[u8], into: &mut Vec<u8>) -> Result<(), NoMemory>
    ensures { OnOk result (into.new.items ≡ into.old.items ++ spec.flag_text flag bytes.now) }
{
    if flag {
        print_bytes(bytes, into)
    } else {
        Ok(())
    }
}

/// The byte, twice where it is the quote.
fn print_doubled_byte(quote: u8, byte: u8, into: &mut Vec<u8>) -> Result<(), NoMemory>
    ensures { OnOk result (into.new.items ≡ into.old.items ++ spelled.doubled_byte quote byte) }
{
    if byte == quote {
        print_bytes(&[quote, byte], into)
    } else {
        print_bytes(&[byte], into)
    }
}

/// The bytes with each quote doubled.
fn print_doubled(quote: u8, bytes: &[u8], into: &mut Vec<u8>) -> Result<(), NoMemory>
    ensures { OnOk result (into.new.items ≡ into.old.items ++ spelled.doubled quote bytes.now) }
{
    for byte in bytes {
        print_doubled_byte(quote, *byte, into)?;
    }
    Ok(())
}

fn print_quoted(quote: u8, bytes: &[u8], into: &mut Vec<u8>) -> Result<(), NoMemory>
    ensures { OnOk result (into.new.items ≡ into.old.items ++ spelled.in_quotes quote bytes.now) }
{
    into.push(quote)?;
    print_doubled(quote, bytes, into)?;
    into.push(quote)?;
    Ok(())
}

pub fn print_name(name: &Text, into: &mut Vec<u8>) -> Result<(), NoMemory>
    ensures { OnOk result (into.new.items ≡ into.old.items ++ spec.name_text name.now) }
{
    print_quoted(b'"', name.bytes(), into)
}

pub fn print_name_behind(before: &[u8], name: &Text, into: &mut Vec<u8>) -> Result<(), NoMemory>
    ensures { OnOk result (into.new.items ≡ into.old.items ++ (before.now ++ spec.name_text name.now)) }
{
    print_bytes(before, into)?;
    print_name(name, into)
}

pub fn print_name_clause(
    before: &[u8],
    name: &Option<Text>,
    into: &mut Vec<u8>,
) -> Result<(), NoMemory>
    ensures { OnOk result (into.new.items ≡ into.old.items ++ spec.name_clause_text before.now name.now) }
{
    match name {
        None => Ok(()),
        Some(name) => print_name_behind(before, name, into),
    }
}

fn hex_digit(digit: u8) -> u8
    requires { digit < 16 }
    ensures { result ≡ spelled.hex_digit digit }
{
    if digit < 10 {
        b'0' + digit
    } else {
        b'A' + (digit - 10)
    }
}

fn print_hex(bytes: &[u8], into: &mut Vec<u8>) -> Result<(), NoMemory>
    ensures { OnOk result (into.new.items ≡ into.old.items ++ spec.hex_text bytes.now) }
{
    for byte in bytes {
        print_bytes(&[hex_digit(*byte / 16), hex_digit(*byte % 16)], into)?;
    }
    Ok(())
}

fn print_integer(number: i64, into: &mut Vec<u8>) -> Result<(), NoMemory>
    ensures { OnOk result (into.new.items ≡ into.old.items ++ spec.signed_decimal number) }
{
    let mut buffer = itoa::Buffer::new();
    into.extend_from_slice(buffer.format(number).as_bytes())?;
    Ok(())
}

pub fn print_literal(value: &Value, into: &mut Vec<u8>) -> Result<(), NoMemory>
    ensures { OnOk result (into.new.items ≡ into.old.items ++ spec.literal_text value.now) }
{
    match value {
        Value::Null => print_bytes(b"NULL", into),
        Value::Int(number) => print_integer(*number, into),
        Value::Text(text) => print_quoted(b'\'', text.bytes(), into),
        Value::Blob(bytes) => {
            print_bytes(b"X'", into)?;
            print_hex(bytes.bytes(), into)?;
            print_bytes(b"'", into)
        }
    }
}

pub fn print_parameter(name: &Option<Text>, into: &mut Vec<u8>) -> Result<(), NoMemory>
    ensures { OnOk result (into.new.items ≡ into.old.items ++ spec.parameter_text name.now) }
{
    match name {
        None => print_bytes(b"?", into),
        Some(name) => {
            print_bytes(b":", into)?;
            print_bytes(name.bytes(), into)
        }
    }
}

pub fn operator_bytes(op: BinaryOp) -> &'static [u8]
    ensures { result.now ≡ spec.operator_text op }
{
    match op {
        BinaryOp::Or => b" OR ",
        BinaryOp::And => b" AND ",
        BinaryOp::Equal => b" = ",
        BinaryOp::NotEqual => b" <> ",
        BinaryOp::Is => b" IS ",
        BinaryOp::IsNot => b" IS NOT ",
        BinaryOp::Like => b" LIKE ",
        BinaryOp::NotLike => b" NOT LIKE ",
        BinaryOp::Less => b" < ",
        BinaryOp::LessEqual => b" <= ",
        BinaryOp::Greater => b" > ",
        BinaryOp::GreaterEqual => b" >= ",
        BinaryOp::Add => b" + ",
        BinaryOp::Sub => b" - ",
        BinaryOp::Mul => b" * ",
        BinaryOp::Div => b" / ",
        BinaryOp::Rem => b" % ",
        BinaryOp::Concat => b" || ",
    }
}

pub fn in_bytes(negated: bool) -> &'static [u8]
    ensures { result.now ≡ spec.in_text negated }
{
    if negated { b" NOT IN (" } else { b" IN (" }
}

pub fn between_bytes(negated: bool) -> &'static [u8]
    ensures { result.now ≡ spec.between_text negated }
{
    if negated {
        b" NOT BETWEEN "
    } else {
        b" BETWEEN "
    }
}

pub fn print_kind(kind: ColumnKind, into: &mut Vec<u8>) -> Result<(), NoMemory>
    ensures { OnOk result (into.new.items ≡ into.old.items ++ spec.kind_text kind) }
{
    match kind {
        ColumnKind::Integer => print_bytes(b" INTEGER", into),
        ColumnKind::Text => print_bytes(b" TEXT", into),
        ColumnKind::Blob => print_bytes(b" BLOB", into),
    }
}
