use crate::{Asked, Failure, Key, Path, Payload, RegionResult, Task, Value};

/// Nothing but the bound: a call is proved where values of the type may be moved to another thread
/// and lent to several.
fn may_be_shared<T: Send + Sync>() {}

/// The types that threads share or move; a type whose values hold another's is shared with it.
pub fn types_may_be_shared() {
    may_be_shared::<Value>();
    may_be_shared::<Key>();
    may_be_shared::<Path>();
    may_be_shared::<RegionResult>();
    may_be_shared::<Task>();
    may_be_shared::<Payload>();
    may_be_shared::<Failure>();
    may_be_shared::<Asked>();
}
