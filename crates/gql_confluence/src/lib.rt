//! Payloads of whole forests, and the client that is sent them, in whatever order the tasks end.
//!
//! The crate has laws and no code that runs. Its main law says that a client takes all payloads of a
//! well-formed forest, by any lawful schedule, and has the defined response in the end.
#![tactic(auto)]

mod laws;

pub use laws::{
    complete_orders_are_lawful, ids_are_announced, ids_are_completed, orders_of_tasks,
    payloads_are_merged, payloads_are_of_the_past, payloads_of_fragments, payloads_of_streams,
    payloads_stay, responses_without_failures_have_all, schedules_that_are_not_lawful,
    tasks_are_of_the_past, worked_forests_are_well_formed, worked_inline_payloads,
    worked_orders_are_lawful, worked_payloads_so_far,
};
