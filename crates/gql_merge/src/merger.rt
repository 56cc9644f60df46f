ghost use Rattle.std.specs.Prelude.{◌≡◌, Ok, Err, IfOk, OnOk, OnErr, not};
ghost use Rattle.std.specs.Option.{option_copied};
ghost use Rattle.gql_merge.specs.Apply.{OnRefusal, Apply, fresh};
ghost use Rattle.gql_merge.specs.Report.{report_of};
ghost use Rattle.gql_merge.specs.Same.{IsTypedState};

use crate::{MergeRefusal, State};
use gql_payload::encode_report;
use gql_tree::{Failure, Fault, Listed, NoMemory, Payload, Pending, Text, TryCopy, Value};
use std::alloc::Global;

/// The client's end of one answer: payloads in, one response out.
#[derive(Debug, Drop)]
pub struct Merger {
    alloc: Global,
    state: State,
}

impl Merger {
    /// A client before the first payload. Takes no memory.
    pub fn new(alloc: Global) -> Self
        ensures { result.state ≡ fresh }
    {
        Merger {
            alloc,
            state: State {
                value: None,
                awaited: Listed::new(alloc),
                ids: Listed::new(alloc),
                errors: Listed::new(alloc),
                failures: Listed::new(alloc),
                ended: false,
            },
        }
    }

    /// Takes the next payload, or refuses it by the first of these: `AfterEnd`, `BadInitial`, for each
    /// pending `IdTwice`, for each entry `UnknownId`, `NoSuchPlace`, `Clash` or `NotAList`, for each
    /// completed record `UnknownId`, and last `OpenAtEnd`. A refused payload changes nothing.
    pub fn apply(&mut self, payload: &Payload) -> Result<(), MergeRefusal>
        ensures taken { OnOk result (Apply payload.now self.old.state (Ok self.new.state)) }
        ensures refused { OnRefusal result (λ e. Apply payload.now self.old.state (Err e)) }
        ensures kept { OnErr result (self.new ≡ self.old) }
    {
        let mut next = self.state.copy()?;
        next.run(payload)?;
        self.state = next;
        Ok(())
    }

    /// Whether a further payload may come: true before the first, and then while each payload had
    /// `hasNext` true.
    pub fn has_next(&self) -> bool
        ensures { result ≡ not self.now.state.ended }
    {
        !self.state.ended
    }

    /// What was announced and isn't complete, in the order of its announcement.
    pub fn open_ids(&self) -> &[Pending]
        ensures { result.now ≡ self.now.state.awaited }
    {
        self.state.awaited.as_slice()
    }

    /// The response's data so far, and `None` exactly where no payload was taken.
    pub fn merged(&self) -> Option<&Value>
        ensures { option_copied result ≡ self.now.state.value }
    {
        self.state.value.as_ref()
    }

    /// The errors of payloads and entries, sorted by `compare_faults`.
    pub fn errors(&self) -> &[Fault]
        ensures { result.now ≡ self.now.state.errors }
    {
        self.state.errors.as_slice()
    }

    /// What was announced and failed, sorted by `compare_failures`.
    pub fn failed(&self) -> &[Failure]
        ensures { result.now ≡ self.now.state.failures }
    {
        self.state.failures.as_slice()
    }

    /// The merged data, the errors and the failures as compact JSON, and `none` where no payload was
    /// taken.
    pub fn report(&self) -> Result<Text, NoMemory>
        ensures text { IfOk result (λ text. text ≡ report_of self.now.state) }
        ensures typed { OnOk result (IsTypedState self.now.state) }
    {
        let errors = self.state.errors.as_slice();
        let failures = self.state.failures.as_slice();
        match &self.state.value {
            None => Text::copy_of(self.alloc, "none"),
            Some(value) => encode_report(self.alloc, value, errors, failures),
        }
    }
}
