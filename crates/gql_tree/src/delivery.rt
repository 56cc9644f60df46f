//! What regions of an operation give, and the payloads that are made of them.

use crate::{Listed, NoMemory, Path, Text, TryCopy, Value};

/// A place in a text: line and column, each counted from 1; a column counts characters.
#[derive(Clone, Copy, Debug, PartialEq, Eq)]
pub struct Spot {
    pub line: u32,
    pub column: u32,
}

/// An error of a response. Line 0 and column 0 mean that it has no location.
#[derive(Debug, Drop)]
pub struct Fault {
    pub message: Text,
    pub line: u32,
    pub column: u32,
    pub path: Option<Path>,
}

/// A deferred fragment by its place in the operation and the path of its object.
#[derive(Debug, Drop)]
pub struct FragId {
    pub place: u32,
    pub path: Path,
}

/// A deferred fragment with the one that it stands in, if any.
#[derive(Debug, Drop)]
pub struct Frag {
    pub id: FragId,
    pub label: Option<Text>,
    pub parent: Option<FragId>,
}

/// A field node of the operation, with the deferred fragment that it was met in, if any.
#[derive(Debug, Drop)]
pub struct Occurrence {
    pub node: u32,
    pub tag: Option<FragId>,
}

/// A response key with the field nodes that are merged under it, in order of the text.
#[derive(Debug, Drop)]
pub struct Detail {
    pub key: Text,
    pub nodes: Listed<Occurrence>,
}

/// A row of the tables: the number of its object type, and its number among that type's rows.
#[derive(Clone, Copy, Debug, PartialEq, Eq)]
pub struct Row {
    pub kind: u32,
    pub number: u32,
}

/// An execution group: fields of one object that are delivered together.
#[derive(Debug, Drop)]
pub struct Group {
    /// The deferred fragments that wait for these fields, by place.
    pub owners: Listed<FragId>,
    pub path: Path,
    pub row: Row,
    pub fields: Listed<Detail>,
}

/// A list whose items from `first` up to `length` come later.
#[derive(Debug, Drop)]
pub struct Stream {
    pub path: Path,
    /// The row that has the list's cell, and the field.
    pub row: Row,
    pub field: Detail,
    pub label: Option<Text>,
    /// The least place among the field's nodes.
    pub place: u32,
    pub first: u32,
    pub length: u32,
}

/// What stands at a region's beginning. The good value of a group is the object of its fields,
/// that of an item the item; a failed initial region is a response whose `data` is null.
#[derive(Debug, Drop)]
pub enum Outcome {
    Good(Value),
    Failed,
}

/// What running a region gives: its value, its errors, and what is deferred at objects and lists
/// that stand in its value.
#[derive(Debug, Drop)]
pub struct RegionResult {
    pub outcome: Outcome,
    pub faults: Listed<Fault>,
    pub fragments: Listed<Frag>,
    pub groups: Listed<Group>,
    pub streams: Listed<Stream>,
}

/// The work of a task: the fields of a group, or the item of this index of a stream.
#[derive(Debug, Drop)]
pub enum TaskWork {
    Fields(Group),
    Item(Stream, u32),
}

/// A region that is still to be run. Tasks are numbered from 0.
#[derive(Debug, Drop)]
pub struct Task {
    pub number: u64,
    pub work: TaskWork,
}

/// One message of an incremental answer.
#[derive(Debug, Drop)]
pub struct Payload {
    /// The `data` of the first payload: an object, or null; none in a later payload.
    pub initial: Option<Value>,
    pub errors: Listed<Fault>,
    pub pending: Listed<Pending>,
    pub incremental: Listed<Entry>,
    pub completed: Listed<Completed>,
    /// Absent where the answer is one payload.
    pub has_next: Option<bool>,
}

/// The announcement of a deferred fragment or a stream.
#[derive(Debug, Drop)]
pub struct Pending {
    pub id: Text,
    pub path: Path,
    pub label: Option<Text>,
}

/// Data of an announced id: fields or items, for the place that its pending's path and then
/// `sub_path` lead to.
#[derive(Debug, Drop)]
pub struct Entry {
    pub id: Text,
    pub sub_path: Path,
    pub content: Content,
    pub errors: Listed<Fault>,
}

/// An object of fields, or further items of a list.
#[derive(Debug, Drop)]
pub enum Content {
    Fields(Value),
    Items(Listed<Value>),
}

/// The end of an announced id; it failed where there are errors.
#[derive(Debug, Drop)]
pub struct Completed {
    pub id: Text,
    pub errors: Listed<Fault>,
}

/// What a client keeps of an id that failed.
#[derive(Debug, Drop)]
pub struct Failure {
    pub path: Path,
    pub label: Option<Text>,
    pub errors: Listed<Fault>,
}

/// A request as it was asked. The variables are null where there were none.
#[derive(Debug, Drop)]
pub struct Asked {
    pub query: Text,
    pub operation_name: Option<Text>,
    pub variables: Value,
}

impl TryCopy for Fault {
    fn copy(&self) -> Result<Self, NoMemory> {
        Ok(Fault {
            message: self.message.copy()?,
            line: self.line,
            column: self.column,
            path: self.path.copy()?,
        })
    }
}

impl TryCopy for FragId {
    fn copy(&self) -> Result<Self, NoMemory> {
        Ok(FragId {
            place: self.place,
            path: self.path.copy()?,
        })
    }
}

impl TryCopy for Frag {
    fn copy(&self) -> Result<Self, NoMemory> {
        Ok(Frag {
            id: self.id.copy()?,
            label: self.label.copy()?,
            parent: self.parent.copy()?,
        })
    }
}

impl TryCopy for Occurrence {
    fn copy(&self) -> Result<Self, NoMemory> {
        Ok(Occurrence {
            node: self.node,
            tag: self.tag.copy()?,
        })
    }
}

impl TryCopy for Detail {
    fn copy(&self) -> Result<Self, NoMemory> {
        Ok(Detail {
            key: self.key.copy()?,
            nodes: self.nodes.copy()?,
        })
    }
}

impl TryCopy for Group {
    fn copy(&self) -> Result<Self, NoMemory> {
        Ok(Group {
            owners: self.owners.copy()?,
            path: self.path.copy()?,
            row: self.row,
            fields: self.fields.copy()?,
        })
    }
}

impl TryCopy for Stream {
    fn copy(&self) -> Result<Self, NoMemory> {
        Ok(Stream {
            path: self.path.copy()?,
            row: self.row,
            field: self.field.copy()?,
            label: self.label.copy()?,
            place: self.place,
            first: self.first,
            length: self.length,
        })
    }
}

impl TryCopy for Outcome {
    fn copy(&self) -> Result<Self, NoMemory> {
        match self {
            Outcome::Good(value) => Ok(Outcome::Good(value.copy()?)),
            Outcome::Failed => Ok(Outcome::Failed),
        }
    }
}

impl TryCopy for RegionResult {
    fn copy(&self) -> Result<Self, NoMemory> {
        Ok(RegionResult {
            outcome: self.outcome.copy()?,
            faults: self.faults.copy()?,
            fragments: self.fragments.copy()?,
            groups: self.groups.copy()?,
            streams: self.streams.copy()?,
        })
    }
}

impl TryCopy for TaskWork {
    fn copy(&self) -> Result<Self, NoMemory> {
        match self {
            TaskWork::Fields(group) => Ok(TaskWork::Fields(group.copy()?)),
            TaskWork::Item(stream, index) => Ok(TaskWork::Item(stream.copy()?, *index)),
        }
    }
}

impl TryCopy for Task {
    fn copy(&self) -> Result<Self, NoMemory> {
        Ok(Task {
            number: self.number,
            work: self.work.copy()?,
        })
    }
}

impl TryCopy for Payload {
    fn copy(&self) -> Result<Self, NoMemory> {
        Ok(Payload {
            initial: self.initial.copy()?,
            errors: self.errors.copy()?,
            pending: self.pending.copy()?,
            incremental: self.incremental.copy()?,
            completed: self.completed.copy()?,
            has_next: self.has_next,
        })
    }
}

impl TryCopy for Pending {
    fn copy(&self) -> Result<Self, NoMemory> {
        Ok(Pending {
            id: self.id.copy()?,
            path: self.path.copy()?,
            label: self.label.copy()?,
        })
    }
}

impl TryCopy for Entry {
    fn copy(&self) -> Result<Self, NoMemory> {
        Ok(Entry {
            id: self.id.copy()?,
            sub_path: self.sub_path.copy()?,
            content: self.content.copy()?,
            errors: self.errors.copy()?,
        })
    }
}

impl TryCopy for Content {
    fn copy(&self) -> Result<Self, NoMemory> {
        match self {
            Content::Fields(fields) => Ok(Content::Fields(fields.copy()?)),
            Content::Items(items) => Ok(Content::Items(items.copy()?)),
        }
    }
}

impl TryCopy for Completed {
    fn copy(&self) -> Result<Self, NoMemory> {
        Ok(Completed {
            id: self.id.copy()?,
            errors: self.errors.copy()?,
        })
    }
}

impl TryCopy for Failure {
    fn copy(&self) -> Result<Self, NoMemory> {
        Ok(Failure {
            path: self.path.copy()?,
            label: self.label.copy()?,
            errors: self.errors.copy()?,
        })
    }
}

impl TryCopy for Asked {
    fn copy(&self) -> Result<Self, NoMemory> {
        Ok(Asked {
            query: self.query.copy()?,
            operation_name: self.operation_name.copy()?,
            variables: self.variables.copy()?,
        })
    }
}
