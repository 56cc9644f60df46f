use crate::Document;

/// Nothing but the bound: a call is proved where values of the type may be moved to another thread
/// and lent to several.
fn may_be_shared<T: Send + Sync>() {}

/// A document is read by several threads; whatever is in it is shared with it.
pub fn documents_may_be_shared() {
    may_be_shared::<Document>();
}
