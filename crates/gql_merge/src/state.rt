ghost use Rattle.std.specs.Prelude.{◌≡◌, IfOk};

use gql_tree::{Failure, Fault, Listed, NoMemory, Pending, Text, TryCopy, Value};

/// What a client holds of an answer.
#[derive(Debug, Drop)]
pub struct State {
    /// None exactly before the first payload.
    pub value: Option<Value>,
    /// What was announced and isn't complete, in the order of its announcement.
    pub awaited: Listed<Pending>,
    /// Each id that was ever announced.
    pub ids: Listed<Text>,
    pub errors: Listed<Fault>,
    pub failures: Listed<Failure>,
    /// Whether the last payload came.
    pub ended: bool,
}

impl TryCopy for State {
    fn copy(&self) -> Result<Self, NoMemory> {
        Ok(State {
            value: self.value.copy()?,
            awaited: self.awaited.copy()?,
            ids: self.ids.copy()?,
            errors: self.errors.copy()?,
            failures: self.failures.copy()?,
            ended: self.ended,
        })
    }
}
