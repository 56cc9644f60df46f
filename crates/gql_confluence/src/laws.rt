//! Laws of the payloads, each the contract of a function that does nothing.

ghost use Rattle.std.specs.Prelude.{◌≡◌, [], ◌∷◌, true, false};
ghost use Rattle.gql_tree.specs.WorkedForests.{streamed};
ghost use Rattle.gql_tree.specs.Payloads.{payloads};
ghost use Rattle.gql_tree.specs.Numbering.{times, is_order, is_complete, inline_order};
ghost use Rattle.gql_tree.specs.Inline.{inline_payloads};
ghost use Rattle.gql_tree.specs.WellFormed.{IsWellFormed};
ghost use Rattle.gql_tree.specs.Lawful.{IsLawful};
ghost use Rattle.gql_confluence.specs.Everything.{each_task_is_good, FailuresAreTold, AllIsDelivered, ValuesAreSame, ErrorsAreSame};
ghost use Rattle.gql_confluence.specs.Confluence.{AreTaken, AreMerged, AreHeard, ByLawfulSchedules, IdsAreCompleted, IdsAreAnnouncedFirst, PendingsAreOfTheForest, CompleteOrdersAreLawful};
ghost use Rattle.gql_tree.specs.Causal.{ended_after, SameSoFar, PayloadsStay, TasksAreOfThePast, PayloadsAreOfThePast};
ghost use Rattle.gql_confluence.specs.WorkedDocuments.{age_that_fails, empty_fragment, empty_around_another, deferred_at_the_top, one_shared_group, inside_a_failed_one, two_that_fail, failed_item, null_item, whole_list, fragments_in_items, stream_in_a_fragment, done_at_the_start, items_backwards};
ghost use Rattle.gql_confluence.specs.WorkedPayloads.{a_so_far, a_and_then_b_failed, behind_a_failed_one_payloads, empty_fragment_payloads, empty_around_another_payloads, deferred_at_the_top_payloads, a_first, b_first, both_together, inside_a_failed_one_payloads, failed_together, failed_b_first, failed_item_payloads, null_item_payloads, from_the_last, fragments_in_items_payloads, stream_in_a_fragment_payloads};

/// The payloads of worked documents with deferred fragments, by the order in which their tasks end.
pub fn payloads_of_fragments()
    ensures empty { payloads empty_fragment (times empty_fragment []) ≡ empty_fragment_payloads }
    ensures around { payloads empty_around_another (times empty_around_another (0 ∷ [])) ≡ empty_around_another_payloads }
    ensures top { payloads deferred_at_the_top (times deferred_at_the_top (0 ∷ [])) ≡ deferred_at_the_top_payloads }
    ensures shared_0_1_2 { payloads one_shared_group (times one_shared_group (0 ∷ 1 ∷ 2 ∷ [])) ≡ a_first }
    ensures shared_1_0_2 { payloads one_shared_group (times one_shared_group (1 ∷ 0 ∷ 2 ∷ [])) ≡ a_first }
    ensures shared_1_2_0 { payloads one_shared_group (times one_shared_group (1 ∷ 2 ∷ 0 ∷ [])) ≡ b_first }
    ensures shared_2_1_0 { payloads one_shared_group (times one_shared_group (2 ∷ 1 ∷ 0 ∷ [])) ≡ b_first }
    ensures shared_0_2_1 { payloads one_shared_group (times one_shared_group (0 ∷ 2 ∷ 1 ∷ [])) ≡ both_together }
    ensures shared_2_0_1 { payloads one_shared_group (times one_shared_group (2 ∷ 0 ∷ 1 ∷ [])) ≡ both_together }
    ensures inside { payloads inside_a_failed_one (times inside_a_failed_one (0 ∷ [])) ≡ inside_a_failed_one_payloads }
    ensures failed_0_1 { payloads two_that_fail (times two_that_fail (0 ∷ 1 ∷ [])) ≡ failed_together }
    ensures failed_1_0 { payloads two_that_fail (times two_that_fail (1 ∷ 0 ∷ [])) ≡ failed_b_first }
{}

/// The payloads of worked documents with streams.
pub fn payloads_of_streams()
    ensures failed_item { payloads failed_item (times failed_item (0 ∷ 1 ∷ [])) ≡ failed_item_payloads }
    ensures behind_a_failed_one { payloads streamed (times streamed (2 ∷ 0 ∷ 1 ∷ [])) ≡ behind_a_failed_one_payloads }
    ensures null_item { payloads null_item (times null_item (0 ∷ 1 ∷ [])) ≡ null_item_payloads }
    ensures from_the_last { payloads whole_list (times whole_list (2 ∷ 1 ∷ 0 ∷ [])) ≡ from_the_last }
    ensures fragments_in_items { payloads fragments_in_items (times fragments_in_items (0 ∷ 1 ∷ 2 ∷ 3 ∷ 4 ∷ [])) ≡ fragments_in_items_payloads }
    ensures stream_in_a_fragment { payloads stream_in_a_fragment (times stream_in_a_fragment (0 ∷ 2 ∷ 1 ∷ [])) ≡ stream_in_a_fragment_payloads }
{}

/// Which orders of the worked documents are orders, and complete, and which is that of a run without workers: 0, 1, 2
/// and so on, until all that is announced is done.
pub fn orders_of_tasks()
    ensures nothing_to_run { inline_order empty_fragment ≡ [] }
    ensures inside { inline_order inside_a_failed_one ≡ 0 ∷ [] }
    ensures in_items { inline_order fragments_in_items ≡ 0 ∷ 1 ∷ 2 ∷ 3 ∷ 4 ∷ [] }
    ensures complete { is_complete one_shared_group (0 ∷ 2 ∷ 1 ∷ []) ≡ true }
    ensures complete_with_a_stream { is_complete stream_in_a_fragment (0 ∷ 2 ∷ 1 ∷ []) ≡ true }
    ensures too_short { is_complete one_shared_group (0 ∷ 2 ∷ []) ≡ false }
    ensures too_long { is_complete inside_a_failed_one (0 ∷ 1 ∷ []) ≡ false }
    ensures before_it_is_numbered { is_order stream_in_a_fragment (2 ∷ 0 ∷ 1 ∷ []) ≡ false }
    ensures twice { is_order one_shared_group (0 ∷ 0 ∷ []) ≡ false }
{}

/// The worked forests are well formed, as what execution gives is.
pub fn worked_forests_are_well_formed()
    ensures empty { IsWellFormed empty_fragment }
    ensures around { IsWellFormed empty_around_another }
    ensures top { IsWellFormed deferred_at_the_top }
    ensures shared { IsWellFormed one_shared_group }
    ensures inside { IsWellFormed inside_a_failed_one }
    ensures failed { IsWellFormed two_that_fail }
    ensures failed_item { IsWellFormed failed_item }
    ensures behind_a_failed_one { IsWellFormed streamed }
    ensures null_item { IsWellFormed null_item }
    ensures whole_list { IsWellFormed whole_list }
    ensures fragments_in_items { IsWellFormed fragments_in_items }
    ensures stream_in_a_fragment { IsWellFormed stream_in_a_fragment }
{}

/// The times of complete orders of worked forests are lawful.
pub fn worked_orders_are_lawful()
    ensures shared_0_1_2 { IsLawful one_shared_group (times one_shared_group (0 ∷ 1 ∷ 2 ∷ [])) }
    ensures shared_0_2_1 { IsLawful one_shared_group (times one_shared_group (0 ∷ 2 ∷ 1 ∷ [])) }
    ensures in_items { IsLawful fragments_in_items (times fragments_in_items (0 ∷ 1 ∷ 2 ∷ 3 ∷ 4 ∷ [])) }
    ensures stream_in_a_fragment { IsLawful stream_in_a_fragment (times stream_in_a_fragment (0 ∷ 2 ∷ 1 ∷ [])) }
{}

/// Schedules that aren't lawful: one by which a fragment is done with the first payload, and one by which an item comes
/// before the one in front of it.
pub fn schedules_that_are_not_lawful()
    ensures done_at_the_start { IsLawful one_shared_group done_at_the_start → ⊥ }
    ensures backwards { IsLawful whole_list items_backwards → ⊥ }
{}

/// A client that is sent the payloads of a well-formed forest by a lawful schedule, up to the order of members, takes
/// each of them, and has the defined response in the end, if its value can exist. Where the payloads can exist, there is
/// such a client. Ids are written in decimal, so there have to be fewer than 2 ^ 64 of them.
pub fn payloads_are_merged()
    ensures taken { ByLawfulSchedules AreTaken }
    ensures merged { ByLawfulSchedules AreMerged }
    ensures there { ByLawfulSchedules AreHeard }
{}

/// By a lawful schedule each announced id stands in one pending and in one completed record, the latter in no earlier
/// payload.
pub fn ids_are_completed()
    ensures { IdsAreCompleted }
{}

/// No failure is told of a well-formed forest exactly where each group and each item in it reached its beginning with a
/// value; and then all of it is delivered. So a response without failures is that of one piece, plain execution's say,
/// where the piece has all of the forest in it: it has the same value, and the same errors at places that stand.
pub fn responses_without_failures_have_all()
    ensures told { FailuresAreTold }
    ensures delivered { AllIsDelivered }
    ensures value { ValuesAreSame }
    ensures errors { ErrorsAreSame }
    ensures none_failed { each_task_is_good null_item ≡ true }
    ensures a_group_failed { each_task_is_good two_that_fail ≡ false }
    ensures an_item_failed { each_task_is_good failed_item ≡ false }
{}

/// No payload goes on with an id or ends one that isn't announced in it or in an earlier payload, and each announced id is
/// that of a fragment or a stream of the forest that is to be announced: what isn't has no id.
pub fn ids_are_announced()
    ensures first { IdsAreAnnouncedFirst }
    ensures of_the_forest { PendingsAreOfTheForest }
{}

/// The times of a complete order of a well-formed forest are lawful.
pub fn complete_orders_are_lawful()
    ensures { CompleteOrdersAreLawful }
{}

/// The payloads after some events of a complete order are the first ones after all of them, `hasNext` included: what was
/// sent stays, whatever ends later, and each later event adds at most one payload.
pub fn payloads_stay()
    ensures { PayloadsStay }
{}

/// What has ended after some events, the times, and the numbers of the tasks are determined by the regions that have ended:
/// they are those of each forest that is the same so far.
pub fn tasks_are_of_the_past()
    ensures { TasksAreOfThePast }
{}

/// The payloads after some events are determined by the regions that have ended: they are those of each well-formed
/// forest that is the same so far, `hasNext` included. What is published as tasks end rests on nothing that is still to come.
pub fn payloads_are_of_the_past()
    ensures { PayloadsAreOfThePast }
{}

/// What is sent of worked forests whose tasks are run one after another.
pub fn worked_inline_payloads()
    ensures top { inline_payloads deferred_at_the_top ≡ deferred_at_the_top_payloads }
    ensures inside { inline_payloads inside_a_failed_one ≡ inside_a_failed_one_payloads }
    ensures in_items { inline_payloads fragments_in_items ≡ fragments_in_items_payloads }
{}

/// Two forests that are the same as far as two of three tasks have ended: the payloads so far are the same, those behind
/// them aren't.
pub fn worked_payloads_so_far()
    ensures same { SameSoFar (ended_after one_shared_group (0 ∷ 1 ∷ [])) one_shared_group age_that_fails }
    ensures so_far { payloads one_shared_group (times one_shared_group (0 ∷ 1 ∷ [])) ≡ a_so_far }
    ensures so_far_too { payloads age_that_fails (times age_that_fails (0 ∷ 1 ∷ [])) ≡ a_so_far }
    ensures in_the_end { payloads age_that_fails (times age_that_fails (0 ∷ 1 ∷ 2 ∷ [])) ≡ a_and_then_b_failed }
{}
