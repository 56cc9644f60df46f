use crate::{Argument, TypeNo};
use gql_tree::{Listed, Member, Spot, Text};

/// An active `@defer`.
#[derive(Debug, Drop)]
pub struct DeferUse {
    pub label: Option<Text>,
}

/// An active `@stream`: how many items come with the list itself.
#[derive(Debug, Drop)]
pub struct StreamUse {
    pub label: Option<Text>,
    pub initial: u32,
}

/// A node of an operation whose spreads are expanded and whose skipped selections are gone.
#[derive(Debug, Drop)]
pub enum NodeKind {
    Field {
        /// The response key: the alias, or the name where there is none.
        key: Text,
        name: Text,
        arguments: Listed<Argument>,
        stream: Option<StreamUse>,
    },
    /// A spread or an inline fragment; the operation itself is one without condition.
    Fragment {
        condition: Option<TypeNo>,
        defer: Option<DeferUse>,
    },
}

/// Its number is its place: nodes are numbered in order of the expanded text, and node 0 is the
/// operation.
#[derive(Debug, Drop)]
pub struct Node {
    pub kind: NodeKind,
    /// Node 0's parent is node 0.
    pub parent: u32,
    pub children: Listed<u32>,
    pub spot: Spot,
}

/// The variables that have a value, in the order of their definitions.
#[derive(Debug, Drop)]
pub struct Variables {
    pub values: Listed<Member>,
}

/// An operation as it is meant.
#[derive(Debug, Drop)]
pub struct Operation {
    pub nodes: Listed<Node>,
    pub variables: Variables,
    pub root: TypeNo,
}
