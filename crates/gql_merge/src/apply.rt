//! What a payload does to a state, one thing of it at a time.
//!
//! These steps work on a copy: after a refusal the state may be half changed, and is dropped.

ghost use Rattle.std.specs.Prelude.{◌≡◌, Ok, Err, OnOk};
ghost use Rattle.gql_merge.specs.Steps.{Each};
ghost use Rattle.gql_merge.specs.Apply.{OnRefusal, Begins, Announces, Grafts, Extends, Delivers, Completes, Ends, Apply};

use crate::order::{sorted_failures, sorted_faults};
use crate::parts::{add_failed, begun, faults_of, is_known, is_last, opened, target, without};
use crate::refusal::refusal_of;
use crate::{MergeRefusal, State};
use gql_tree::{Completed, Content, Entry, Key, Listed, Payload, Pending, TryCopy, Value};
use std::mem;

impl State {
    pub(crate) fn run(&mut self, payload: &Payload) -> Result<(), MergeRefusal>
        ensures ok { OnOk result (Apply payload.now self.old (Ok self.new)) }
        ensures refused { OnRefusal result (λ e. Apply payload.now self.old (Err e)) }
    {
        self.begin(payload)?;
        self.announce_all(payload.pending.as_slice())?;
        self.deliver_all(payload.incremental.as_slice())?;
        self.complete_all(payload.completed.as_slice())?;
        self.end(payload)
    }

    fn begin(&mut self, payload: &Payload) -> Result<(), MergeRefusal>
        ensures ok { OnOk result (Begins payload.now self.old (Ok self.new)) }
        ensures refused { OnRefusal result (λ e. Begins payload.now self.old (Err e)) }
    {
        if self.ended {
            return Err(MergeRefusal::AfterEnd);
        }
        let value = begun(self.value.take(), payload)?;
        self.value = Some(value);
        Ok(())
    }

    fn announce_all(&mut self, pendings: &[Pending]) -> Result<(), MergeRefusal>
        ensures ok { OnOk result (Each Announces pendings.now self.old (Ok self.new)) }
        ensures refused { OnRefusal result (λ e. Each Announces pendings.now self.old (Err e)) }
    {
        for pending in pendings {
            self.announce(pending)?;
        }
        Ok(())
    }

    fn announce(&mut self, pending: &Pending) -> Result<(), MergeRefusal>
        ensures ok { OnOk result (Announces pending.now self.old (Ok self.new)) }
        ensures refused { OnRefusal result (λ e. Announces pending.now self.old (Err e)) }
    {
        if is_known(pending.id.as_str(), self.ids.as_slice()) {
            return Err(MergeRefusal::IdTwice);
        }
        self.ids.push(pending.id.copy()?)?;
        self.awaited.push(pending.copy()?)?;
        Ok(())
    }

    fn deliver_all(&mut self, entries: &[Entry]) -> Result<(), MergeRefusal>
        ensures ok { OnOk result (Each Delivers entries.now self.old (Ok self.new)) }
        ensures refused { OnRefusal result (λ e. Each Delivers entries.now self.old (Err e)) }
    {
        for entry in entries {
            self.deliver(entry)?;
        }
        Ok(())
    }

    fn deliver(&mut self, entry: &Entry) -> Result<(), MergeRefusal>
        ensures ok { OnOk result (Delivers entry.now self.old (Ok self.new)) }
        ensures refused { OnRefusal result (λ e. Delivers entry.now self.old (Err e)) }
    {
        let path = target(entry, self.awaited.as_slice())?;
        match &entry.content {
            Content::Fields(fields) => self.graft(path.as_slice(), fields.copy()?),
            Content::Items(items) => self.extend(path.as_slice(), items.copy()?),
        }
    }

    fn graft(&mut self, path: &[Key], fields: Value) -> Result<(), MergeRefusal>
        ensures ok { OnOk result (Grafts path.now fields self.old (Ok self.new)) }
        ensures refused { OnRefusal result (λ e. Grafts path.now fields self.old (Err e)) }
    {
        match self.value.take() {
            None => Err(MergeRefusal::NoSuchPlace),
            Some(mut value) => match value.graft(path, fields) {
                Err(refusal) => Err(refusal_of(refusal)),
                Ok(()) => {
                    self.value = Some(value);
                    Ok(())
                }
            },
        }
    }

    fn extend(&mut self, path: &[Key], items: Listed<Value>) -> Result<(), MergeRefusal>
        ensures ok { OnOk result (Extends path.now items self.old (Ok self.new)) }
        ensures refused { OnRefusal result (λ e. Extends path.now items self.old (Err e)) }
    {
        match self.value.take() {
            None => Err(MergeRefusal::NoSuchPlace),
            Some(mut value) => match value.extend(path, items) {
                Err(refusal) => Err(refusal_of(refusal)),
                Ok(()) => {
                    self.value = Some(value);
                    Ok(())
                }
            },
        }
    }

    fn complete_all(&mut self, completed: &[Completed]) -> Result<(), MergeRefusal>
        ensures ok { OnOk result (Each Completes completed.now self.old (Ok self.new)) }
        ensures refused { OnRefusal result (λ e. Each Completes completed.now self.old (Err e)) }
    {
        for done in completed {
            self.complete(done)?;
        }
        Ok(())
    }

    fn complete(&mut self, completed: &Completed) -> Result<(), MergeRefusal>
        ensures ok { OnOk result (Completes completed.now self.old (Ok self.new)) }
        ensures refused { OnRefusal result (λ e. Completes completed.now self.old (Err e)) }
    {
        match opened(completed.id.as_str(), self.awaited.as_slice()) {
            None => return Err(MergeRefusal::UnknownId),
            Some(pending) => add_failed(&mut self.failures, pending, &completed.errors)?,
        }
        let none = self.awaited.empty_like();
        let awaited = mem::replace(&mut self.awaited, none);
        self.awaited = without(completed.id.as_str(), awaited);
        Ok(())
    }

    fn end(&mut self, payload: &Payload) -> Result<(), MergeRefusal>
        ensures ok { OnOk result (Ends payload.now self.old (Ok self.new)) }
        ensures refused { OnRefusal result (λ e. Ends payload.now self.old (Err e)) }
    {
        let last = is_last(payload.has_next);
        if last && !self.awaited.is_empty() {
            return Err(MergeRefusal::OpenAtEnd);
        }
        let mut errors = self.errors.copy()?;
        errors.append(faults_of(payload)?)?;
        self.errors = sorted_faults(errors)?;
        self.failures = sorted_failures(self.failures.copy()?)?;
        self.ended = last;
        Ok(())
    }
}
