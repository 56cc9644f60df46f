//! Rules of lists in which names may not stand twice.

ghost use Rattle.std.specs.Prelude.{◌≡◌, ℕ, Bool, List, [], map, IfOk};
ghost use Rattle.std.specs.List.{list_any};
ghost use Rattle.std.specs.Str.{bytes_eq};
ghost use Rattle.gql_tree.specs.declared.Spot.{Spot};
ghost use Rattle.gql_model.specs.rules.Places.{in_turn};
ghost use Rattle.gql_schema.specs.FirstPlace.{first_place};

use super::distinct_types::stands_before;
use gql_model::{ByName, HasName};
use gql_tree::{Listed, NoMemory, Spot};
use std::alloc::Global;

/// The most items whose names are compared pair by pair; those of a longer list are put in order first.
const FEW: usize = 16;

/// A rule of a list whose items have names, by whether the name of an item stands before it.
pub(crate) trait RuleInTurn<T> {
    /// The bytes of an item's name.
    ghost name_of: { T → List ℕ };

    /// The places in an item that break it, by whether an item before has its name.
    ghost places: { Self → Bool → T → List Spot };

    fn name<'n>(&self, of: &'n T) -> &'n str
        ensures { result.now ≡ name_of of.now };

    /// The first of these places.
    fn first_at(&self, again: bool, of: &T) -> Option<Spot>
        ensures { result ≡ first_place (places self.now again of.now) };
}

/// The first place in a list that breaks the rule. Where there is no memory to put the names in order,
/// it takes more time.
pub(crate) fn first_in_turn<T, R: RuleInTurn<T>>(
    alloc: Global,
    rule: &R,
    items: &[T],
) -> Option<Spot>
    ensures { result ≡ first_place (in_turn R.name_of (R.places rule.now) [] items.now) }
{
    if items.len() <= FEW {
        return first_walked(rule, items);
    }
    match turns(alloc, rule, items) {
        Ok(names) => first_by_name(rule, items, &names),
        Err(_) => first_walked(rule, items),
    }
}

/// The first place in a list that breaks the rule, by comparing names pair by pair.
pub(crate) fn first_walked<T, R: RuleInTurn<T>>(rule: &R, items: &[T]) -> Option<Spot>
    ensures { result ≡ first_place (in_turn R.name_of (R.places rule.now) [] items.now) }
{
    for i in 0..items.len() {
        let of = &items[i];
        let again = is_among(rule, rule.name(of), &items[..i]);
        if let Some(spot) = rule.first_at(again, of) {
            return Some(spot);
        }
    }
    None
}

/// Whether one of the items has the name.
fn is_among<T, R: RuleInTurn<T>>(rule: &R, name: &str, items: &[T]) -> bool
    ensures { result ≡ list_any (λ item. bytes_eq (R.name_of item) name.now) items.now }
{
    for item in items {
        if rule.name(item) == name {
            return true;
        }
    }
    false
}

/// An item's name.
#[derive(Drop)]
struct Turn<'n> {
    name: &'n str,
}

impl<'n> HasName for Turn<'n> {
    ghost name_of = { λ turn. turn.name.now };

    fn name(&self) -> &str {
        self.name
    }
}

/// The names of the items, in their order and by name.
fn turns<'n, T, R: RuleInTurn<T>>(
    alloc: Global,
    rule: &R,
    items: &'n [T],
) -> Result<ByName<Turn<'n>>, NoMemory>
    ensures { IfOk result (λ names. map (λ turn. turn.name.now) names ≡ map R.name_of items.now) }
{
    let mut listed = Listed::new(alloc);
    for of in items {
        listed.push(Turn {
            name: rule.name(of),
        })?;
    }
    ByName::new(alloc, listed)
}

/// The first place in a list that breaks the rule, by names that are in order.
fn first_by_name<T, R: RuleInTurn<T>>(
    rule: &R,
    items: &[T],
    names: &ByName<Turn<'_>>,
) -> Option<Spot>
    requires { map (λ turn. turn.name.now) names.now ≡ map R.name_of items.now }
    ensures { result ≡ first_place (in_turn R.name_of (R.places rule.now) [] items.now) }
{
    for i in 0..items.len() {
        let of = &items[i];
        let again = stands_before(names.place(rule.name(of)), i);
        if let Some(spot) = rule.first_at(again, of) {
            return Some(spot);
        }
    }
    None
}
