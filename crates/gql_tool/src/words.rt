ghost use Rattle.std.specs.Prelude.{◌≡◌, ◌≤◌, is_some, IfSome, option_map};
ghost use Rattle.std.specs.Str.Parse.{digits_value};
ghost use Rattle.std.specs.Char.{is_ascii_digit};
ghost use Rattle.std.specs.List.{list_all};
ghost use Rattle.gql_tool.specs.Words.{form_of, local_form, said, is_decimal, has_no_leading_zero, is_number};

use crate::local_words::LocalWords;
use gql_tree::Text;

/// A command line that has a form.
#[derive(Clone, Copy, Debug)]
pub enum Command<'a> {
    Local(LocalWords<'a>),
    Replay { boundary: &'a str },
}

/// A single byte, or more of which the first is no `0`.
fn has_no_leading_zero(bytes: &[u8]) -> bool
    ensures { result ≡ has_no_leading_zero bytes.now }
{
    match bytes {
        [] => false,
        [_] => true,
        [first, ..] => *first != b'0',
    }
}

fn has_only_digits(bytes: &[u8]) -> bool
    ensures { result ≡ list_all is_ascii_digit bytes.now }
{
    bytes.iter().all(|byte| byte.is_ascii_digit())
}

/// Decimal digits without a leading zero, except `0` itself.
fn is_decimal(text: &str) -> bool
    ensures { result ≡ is_decimal text.now }
{
    let bytes = text.as_bytes();
    has_only_digits(bytes) && has_no_leading_zero(bytes)
}

/// A number from `low` to `high`.
fn number(text: &str, low: u64, high: u64) -> Option<u64>
    ensures form { is_some result ≡ is_number low high text.now }
    ensures value { IfSome result (λ n. n ≡ digits_value 10 text.now) }
    ensures range { IfSome result (λ n. (low ≤ n) × (n ≤ high)) }
{
    if !is_decimal(text) {
        return None;
    }
    match text.parse::<u64>() {
        Ok(value) if low <= value && value <= high => Some(value),
        _ => None,
    }
}

/// What follows the word `local`: no workers, and a cut of at least one byte.
fn local<'a>(
    schema: &'a str,
    tables: &'a str,
    document: &'a str,
    vars: &'a str,
    workers: &str,
    cut: &str,
) -> Option<Command<'a>>
    ensures { option_map said result
        ≡ local_form schema.now tables.now document.now vars.now workers.now cut.now }
{
    let workers = number(workers, 0, 0)?;
    let cut = number(cut, 1, 1_048_576)?;
    Some(Command::Local(LocalWords {
        schema,
        tables,
        document,
        vars,
        workers,
        cut: cut as usize,
    }))
}

/// The command that a list of words is.
pub fn parse<'a>(words: &'a [Text]) -> Option<Command<'a>>
    ensures { option_map said result ≡ form_of words.now }
{
    match words {
        [command, schema, tables, document, vars, workers, cut] if command.as_str() == "local" => {
            local(
                schema.as_str(),
                tables.as_str(),
                document.as_str(),
                vars.as_str(),
                workers.as_str(),
                cut.as_str(),
            )
        }
        [command, boundary] if command.as_str() == "replay" => Some(Command::Replay {
            boundary: boundary.as_str(),
        }),
        _ => None,
    }
}
