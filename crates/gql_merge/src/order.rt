//! The order of errors and of failures.

ghost use Rattle.std.specs.Prelude.{◌≡◌, IfOk};
ghost use Rattle.std.specs.Cmp.Lexicographic.{slice_cmp};
ghost use Rattle.std.specs.Option.{option_cmp};
ghost use Rattle.gql_merge.specs.Order.{paths, texts, fault_cmp, failure_cmp, Sorts};

use gql_tree::{Failure, Fault, Listed, NoMemory, Path, Text};
use std::cmp::Ordering;

/// By path, none first; then by the bytes of the message, by line, by column.
pub fn compare_faults(first: &Fault, second: &Fault) -> Ordering
    ensures { result ≡ fault_cmp first.now second.now }
{
    compare_maybe_paths(&first.path, &second.path)
        .then(first.message.as_str().cmp(second.message.as_str()))
        .then(first.line.cmp(&second.line))
        .then(first.column.cmp(&second.column))
}

/// By path; then by label, none first; then by their errors.
pub fn compare_failures(first: &Failure, second: &Failure) -> Ordering
    ensures { result ≡ failure_cmp first.now second.now }
{
    first
        .path
        .compare(&second.path)
        .then(compare_labels(&first.label, &second.label))
        .then(compare_fault_lists(first.errors.as_slice(), second.errors.as_slice()))
}

fn compare_maybe_paths(first: &Option<Path>, second: &Option<Path>) -> Ordering
    ensures { result ≡ option_cmp paths first.now second.now }
{
    match (first, second) {
        (Some(first), Some(second)) => first.compare(second),
        _ => first.is_some().cmp(&second.is_some()),
    }
}

fn compare_labels(first: &Option<Text>, second: &Option<Text>) -> Ordering
    ensures { result ≡ option_cmp texts first.now second.now }
{
    match (first, second) {
        (Some(first), Some(second)) => first.as_str().cmp(second.as_str()),
        _ => first.is_some().cmp(&second.is_some()),
    }
}

fn compare_fault_lists(first: &[Fault], second: &[Fault]) -> Ordering
    ensures { result ≡ slice_cmp fault_cmp first.now second.now }
{
    for i in 0..first.len().min(second.len()) {
        match compare_faults(&first[i], &second[i]) {
            Ordering::Equal => {}
            order => return order,
        }
    }
    first.len().cmp(&second.len())
}

pub(crate) fn sorted_faults(faults: Listed<Fault>) -> Result<Listed<Fault>, NoMemory>
    ensures { IfOk result (λ sorted. Sorts fault_cmp faults sorted) }
{
    let mut items = faults.into_vec();
    items.sort_by(|first, second| compare_faults(first, second))?;
    Ok(Listed::from_vec(items))
}

pub(crate) fn sorted_failures(failures: Listed<Failure>) -> Result<Listed<Failure>, NoMemory>
    ensures { IfOk result (λ sorted. Sorts failure_cmp failures sorted) }
{
    let mut items = failures.into_vec();
    items.sort_by(|first, second| compare_failures(first, second))?;
    Ok(Listed::from_vec(items))
}
