//! The one shape of request that this build executes: a query of `hero` for leaves, of which a last piece may be deferred,
//! over the tables of one schema. All of it is to be replaced by the readers, the planner and the executor of any
//! request; until then it stands here, in this folder of src/, specs/ and proofs/ and in proofs/hero_lemmas/.
//!
//! `request` says which requests are built (`specs/hero/Built.antt`, with the regions that they have), `shape` which
//! documents (`specs/hero/Shape.antt`, `Operation.antt`), `tables` reads the tables (`specs/hero/HeroTables.antt`),
//! `region` runs leaves, `delivery` makes payloads, and `deliver` hands them out one by one. That they are the payloads of
//! the general definitions of execution is the contract of `deliver`.

pub(crate) mod deliver;
pub(crate) mod delivery;
pub(crate) mod laws;
pub(crate) mod region;
pub(crate) mod request;
pub(crate) mod shape;
pub(crate) mod tables;
