//! What is reached along the edges of a graph, with no recursion.

ghost use Rattle.std.specs.Prelude.{◌≡◌, ◌<◌, [], length, IfOk, OnOk};
ghost use Rattle.std.specs.List.{AllByRecursion as Each};
ghost use Rattle.gql_schema.specs.Graph.{IsGraph, AreMarked, added, all_added, is_reached};

use gql_tree::{Listed, NoMemory};
use std::alloc::Global;

/// Numbers below a bound, each once, in the order in which they are added.
#[derive(Drop)]
struct Numbers {
    listed: Vec<u32>,
    /// By number, whether it is listed.
    marks: Vec<bool>,
}

/// Whether a node is one of these or reached from them. Nodes are numbers from 0, and a graph has for each
/// the nodes that its edges lead to.
pub(crate) fn reaches(
    alloc: Global,
    graph: &[Listed<u32>],
    start: &[u32],
    goal: u32,
) -> Result<bool, NoMemory>
    requires graph { IsGraph graph.now }
    requires start { Each (λ k. k < length graph.now) start.now }
    requires goal { goal < length graph.now }
    ensures { IfOk result (λ found. found ≡ is_reached graph.now start.now goal) }
{
    if start.is_empty() {
        return Ok(false);
    }
    let mut reached = none_of(alloc, graph.len())?;
    add_all(&mut reached, start)?;
    for at in 0..graph.len() {
        if at >= reached.listed.len() {
            return Ok(reached.marks[goal as usize]);
        }
        let node = reached.listed[at] as usize;
        add_all(&mut reached, graph[node].as_slice())?;
    }
    Ok(reached.marks[goal as usize])
}

/// None of the numbers below a bound.
fn none_of(alloc: Global, bound: usize) -> Result<Numbers, NoMemory>
    ensures none { IfOk result (λ numbers. numbers.listed.items ≡ []) }
    ensures marked { IfOk result (λ numbers. AreMarked numbers.listed.items numbers.marks.items) }
    ensures bound { IfOk result (λ numbers. length numbers.marks.items ≡ bound) }
{
    Ok(Numbers {
        listed: Vec::new(alloc),
        marks: vec![in alloc; false; bound]?,
    })
}

/// Adds those that aren't listed.
fn add_all(numbers: &mut Numbers, more: &[u32]) -> Result<(), NoMemory>
    requires marked { AreMarked numbers.old.listed.items numbers.old.marks.items }
    requires within { Each (λ k. k < length numbers.old.marks.items) more.now }
    ensures marked { OnOk result (AreMarked numbers.new.listed.items numbers.new.marks.items) }
    ensures added { OnOk result (numbers.new.listed.items ≡ all_added numbers.old.listed.items more.now) }
    ensures same { OnOk result (length numbers.new.marks.items ≡ length numbers.old.marks.items) }
{
    for number in more {
        add(numbers, *number)?;
    }
    Ok(())
}

/// Adds a number where it isn't listed.
fn add(numbers: &mut Numbers, number: u32) -> Result<(), NoMemory>
    requires marked { AreMarked numbers.old.listed.items numbers.old.marks.items }
    requires within { number < length numbers.old.marks.items }
    ensures marked { OnOk result (AreMarked numbers.new.listed.items numbers.new.marks.items) }
    ensures added { OnOk result (numbers.new.listed.items ≡ added numbers.old.listed.items number) }
    ensures same { OnOk result (length numbers.new.marks.items ≡ length numbers.old.marks.items) }
{
    if !numbers.marks[number as usize] {
        numbers.listed.push(number)?;
        numbers.marks[number as usize] = true;
    }
    Ok(())
}
