//! What block strings mean.

ghost use Rattle.std.specs.Prelude.{◌≡◌, ℕ, ◌≤◌, ◌<◌, ◌++◌, ◌∷◌, [], ◌==◌, ◌&&◌, nat_eq, IfOk, OnOk, drop, map, flat_map, reverse, length, string_bytes};
ghost use Rattle.std.specs.List.{starts_with, prefix_len};
ghost use Rattle.std.specs.Str.{encode_utf8_all};
ghost use Rattle.gql_doc.specs.StringValue.{raw_value, ends_line, lines, is_indent, is_blank_line, common_indent, unindented, after_blank_lines, before_blank_lines, joined, block_value};

use gql_tree::{Listed, NoMemory};
use std::alloc::Global;

/// What the content of a block string means.
pub(crate) fn block_value(alloc: Global, content: &[char]) -> Result<String, NoMemory>
    ensures { IfOk result (λ value. string_bytes value ≡ encode_utf8_all (block_value content.now)) }
{
    let raw = raw_value(alloc, content)?;
    let written = lines(alloc, raw.as_slice())?;
    let shown = unindented(alloc, written.as_slice())?;
    joined(
        alloc,
        before_blank_lines(after_blank_lines(shown.as_slice())),
    )
}

/// The content with `"""` for each `\"""`.
fn raw_value(alloc: Global, content: &[char]) -> Result<Listed<char>, NoMemory>
    ensures { IfOk result (λ raw. raw ≡ raw_value content.now) }
{
    let mut raw = Listed::new(alloc);
    let mut rest = content;
    while let [first, behind @ ..] = rest {
        if !escapes_mark(*first, behind) {
            raw.push(*first)?;
        }
        rest = behind;
    }
    Ok(raw)
}

/// Whether `first` is the backslash of a `\"""`.
fn escapes_mark(first: char, behind: &[char]) -> bool
    ensures { result ≡ (first == 92 && starts_with nat_eq behind.now (34 ∷ 34 ∷ 34 ∷ [])) }
{
    first == '\\' && behind.starts_with(&['"', '"', '"'])
}

/// The lines of a text, without their ends.
fn lines(alloc: Global, text: &[char]) -> Result<Listed<Listed<char>>, NoMemory>
    ensures { IfOk result (λ found. found ≡ lines text.now) }
{
    let mut done = Listed::new(alloc);
    let mut line = Listed::new(alloc);
    let mut rest = text;
    while let [first, behind @ ..] = rest {
        if ends_line(*first, behind) {
            done.push(line)?;
            line = Listed::new(alloc);
        } else if *first != '\r' {
            line.push(*first)?;
        }
        rest = behind;
    }
    done.push(line)?;
    Ok(done)
}

/// Whether a line ends with `first`.
fn ends_line(first: char, behind: &[char]) -> bool
    ensures { result ≡ ends_line first behind.now }
{
    first == '\n' || (first == '\r' && !behind.starts_with(&['\n']))
}

fn is_indent(character: char) -> bool
    ensures { result ≡ is_indent character }
{
    character == '\t' || character == ' '
}

fn is_blank_line(line: &[char]) -> bool
    ensures { result ≡ is_blank_line line.now }
{
    line.iter().all(|character| is_indent(*character))
}

/// A line that has tabs and spaces alone.
fn is_blank(line: &Listed<char>) -> bool
    ensures { result ≡ is_blank_line line.now }
{
    is_blank_line(line.as_slice())
}

/// How many tabs and spaces a line begins with.
fn indent(line: &[char]) -> usize
    ensures { result ≡ prefix_len is_indent line.now }
{
    line.iter()
        .take_while(|character| is_indent(**character))
        .count()
}

/// The least indentation of the lines that aren't blank.
fn common_indent(lines: &[Listed<char>]) -> Option<usize>
    ensures { result ≡ common_indent lines.now }
{
    let mut least: Option<usize> = None;
    for line in lines {
        let characters = line.as_slice();
        if !is_blank_line(characters) {
            let found = indent(characters);
            least = match least {
                Some(other) => Some(found.min(other)),
                None => Some(found),
            };
        }
    }
    least
}

/// The lines with their common indentation taken from those behind the first.
fn unindented(alloc: Global, lines: &[Listed<char>]) -> Result<Listed<Listed<char>>, NoMemory>
    ensures { IfOk result (λ shown. shown ≡ unindented lines.now) }
{
    let mut shown = Listed::new(alloc);
    let [first, behind @ ..] = lines else {
        return Ok(shown);
    };
    shown.push(copied(alloc, first.as_slice())?)?;
    let indent = common_indent(behind).unwrap_or(0);
    push_without(alloc, &mut shown, behind, indent)?;
    Ok(shown)
}

/// Adds the lines without their first `indent` characters.
fn push_without(
    alloc: Global,
    shown: &mut Listed<Listed<char>>,
    lines: &[Listed<char>],
    indent: usize,
) -> Result<(), NoMemory>
    ensures { OnOk result (shown.new ≡ shown.old ++ map (λ line. drop indent line) lines.now) }
{
    for line in lines {
        shown.push(copied(alloc, after(line.as_slice(), indent))?)?;
    }
    Ok(())
}

/// What stands behind the first `count` characters.
pub(crate) fn after(text: &[char], count: usize) -> &[char]
    ensures { result.now ≡ drop count text.now }
{
    if count <= text.len() {
        &text[count..]
    } else {
        &[]
    }
}

fn copied(alloc: Global, text: &[char]) -> Result<Listed<char>, NoMemory>
    ensures { IfOk result (λ copy. copy ≡ text.now) }
{
    Ok(Listed::from_vec(Vec::from_slice(alloc, text)?))
}

/// Without the blank lines at the front.
fn after_blank_lines(lines: &[Listed<char>]) -> &[Listed<char>]
    ensures { result.now ≡ after_blank_lines lines.now }
{
    &lines[blank_lines(lines)..]
}

/// How many blank lines stand at the front.
fn blank_lines(lines: &[Listed<char>]) -> usize
    ensures value { result ≡ prefix_len is_blank_line lines.now }
    ensures within { result ≤ length lines.now }
{
    lines.iter().take_while(|line| is_blank(line)).count()
}

/// Without the blank lines at the end.
fn before_blank_lines(lines: &[Listed<char>]) -> &[Listed<char>]
    ensures { result.now ≡ before_blank_lines lines.now }
{
    &lines[..lines.len() - last_blank_lines(lines)]
}

/// How many blank lines stand at the end.
fn last_blank_lines(lines: &[Listed<char>]) -> usize
    ensures value { result ≡ prefix_len is_blank_line (reverse lines.now) }
    ensures within { result ≤ length lines.now }
{
    lines.iter().rev().take_while(|line| is_blank(line)).count()
}

/// The lines with LF between them.
fn joined(alloc: Global, lines: &[Listed<char>]) -> Result<String, NoMemory>
    ensures { IfOk result (λ text. string_bytes text ≡ encode_utf8_all (joined lines.now)) }
{
    let mut text = String::new(alloc);
    let [first, behind @ ..] = lines else {
        return Ok(text);
    };
    push_all(&mut text, first.as_slice())?;
    push_lines(&mut text, behind)?;
    Ok(text)
}

/// Writes each line behind an LF.
fn push_lines(text: &mut String, lines: &[Listed<char>]) -> Result<(), NoMemory>
    ensures { OnOk result (string_bytes text.new ≡ string_bytes text.old ++ encode_utf8_all (flat_map (λ next. 10 ∷ next) lines.now)) }
{
    for line in lines {
        text.push('\n')?;
        push_all(text, line.as_slice())?;
    }
    Ok(())
}

fn push_all(text: &mut String, line: &[char]) -> Result<(), NoMemory>
    ensures { OnOk result (string_bytes text.new ≡ string_bytes text.old ++ encode_utf8_all line.now) }
{
    for character in line {
        text.push(*character)?;
    }
    Ok(())
}
