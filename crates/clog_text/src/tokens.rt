//! The single tokens of a usual line: a brace, a name, a text, a number. Each reader gives what it
//! took from the tokens to come, and nothing where another token stands there.
ghost use Rattle.std.specs.Prelude.{◌≡◌, ◌<◌, ◌≤◌, ◌∷◌, ◌==◌, ℕ, List, Some, length, IfSome};
ghost use Rattle.std.specs.Prelude.{slice_index, false, option_and_then};
ghost use Rattle.json.specs.Token.{begin_object, end_object, begin_array, key as name_token};
ghost use Rattle.json.specs.Token.{string as text_token, number as number_token};
ghost use Rattle.serde_json.specs.Data.{unsigned as as_unsigned};
ghost use Rattle.serde_json.specs.Read.{number_of, number_from};
ghost use Rattle.serde_json.specs.Find.{as_i64};
ghost use Rattle.clog_spec.specs.Sizes.{longest_name, most_tables};

use clog_base::{LONGEST_NAME, MOST_TABLES, Table, Text};
use fast_float::Numeral;
use json::{Reader, Token};
use std::alloc::Global;

/// The brace that opens an object.
pub(crate) fn begin_object(reader: &mut Reader<'_>) -> Option<()>
    ensures { IfSome result (λ _. reader.old ≡ begin_object ∷ reader.new) }
{
    match reader.next() {
        Some(Token::BeginObject) => Some(()),
        _ => None,
    }
}

/// The brace that closes an object.
pub(crate) fn end_object(reader: &mut Reader<'_>) -> Option<()>
    ensures { IfSome result (λ _. reader.old ≡ end_object ∷ reader.new) }
{
    match reader.next() {
        Some(Token::EndObject) => Some(()),
        _ => None,
    }
}

/// The bracket that opens an array.
pub(crate) fn begin_array(reader: &mut Reader<'_>) -> Option<()>
    ensures { IfSome result (λ _. reader.old ≡ begin_array ∷ reader.new) }
{
    match reader.next() {
        Some(Token::BeginArray) => Some(()),
        _ => None,
    }
}

/// That name, with its colon.
pub(crate) fn name(reader: &mut Reader<'_>, wanted: &str) -> Option<()>
    ensures { IfSome result (λ _. reader.old ≡ name_token wanted.now ∷ reader.new) }
{
    match reader.next() {
        Some(Token::Key(found)) if found == wanted => Some(()),
        _ => None,
    }
}

/// A key or a column: a string of 1 to 255 bytes.
pub(crate) fn name_text(alloc: Global, reader: &mut Reader<'_>) -> Option<Text>
    ensures text { IfSome result (λ t. reader.old ≡ text_token t ∷ reader.new) }
    ensures some { IfSome result (λ t. 1 ≤ length t) }
    ensures short { IfSome result (λ t. length t ≤ longest_name) }
{
    match reader.next() {
        Some(Token::String(text)) if 1 <= text.len() && text.len() <= LONGEST_NAME => {
            Text::copy_of(alloc, text).ok()
        }
        _ => None,
    }
}

fn unsigned(numeral: &Numeral<'_>) -> Option<u64>
    ensures { IfSome result (λ n. number_from false numeral.now ≡ Some (as_unsigned n)) }
{
    numeral.to_u64()
}

fn has_minus(bytes: &[u8]) -> bool
    ensures { result ≡ (slice_index bytes.now 0 == 45) }
{
    !bytes.is_empty() && bytes[0] == b'-'
}

// A number with no sign, no point and no exponent.
fn plain_number(text: &str) -> Option<u64>
    ensures { IfSome result (λ n. number_of text.now ≡ Some (as_unsigned n)) }
{
    let bytes = text.as_bytes();
    if has_minus(bytes) {
        return None;
    }
    unsigned(&Numeral::scan(bytes))
}

/// A table's number, 0 to 15.
pub(crate) fn read_table(reader: &mut Reader<'_>) -> Option<Table>
    ensures table { IfSome result (λ t. (s : List ℕ) × (reader.old ≡ number_token s ∷ reader.new)
        × (number_of s ≡ Some (as_unsigned t.0))) }
    ensures known { IfSome result (λ t. t.0 < most_tables) }
{
    let Some(Token::Number(text)) = reader.next() else {
        return None;
    };
    match plain_number(text) {
        Some(number) if number < MOST_TABLES as u64 => Some(Table(number as u8)),
        _ => None,
    }
}

/// A timestamp that is not negative.
pub(crate) fn timestamp(reader: &mut Reader<'_>) -> Option<i64>
    ensures { IfSome result (λ ts. (s : List ℕ) × (reader.old ≡ number_token s ∷ reader.new)
        × (option_and_then as_i64 (number_of s) ≡ Some ts)) }
{
    let Some(Token::Number(text)) = reader.next() else {
        return None;
    };
    match plain_number(text) {
        Some(number) if number <= i64::MAX as u64 => Some(number as i64),
        _ => None,
    }
}
