//! Rules that are kept or broken item by item.

ghost use Rattle.std.specs.Prelude.{◌≡◌, List, flat_map, IfOk};
ghost use Rattle.gql_tree.specs.declared.Spot.{Spot};
ghost use Rattle.gql_model.specs.rules.Places.{place_if};
ghost use Rattle.gql_schema.specs.FirstPlace.{first_place};

use gql_tree::{NoMemory, Spot};

/// A rule that is broken at places of things of a kind, as of types or of fields.
pub(crate) trait Rule<T> {
    /// The places in a thing that break it.
    ghost places: { Self → T → List Spot };

    /// The first of these places.
    fn first_in(&self, of: &T) -> Option<Spot>
        ensures { result ≡ first_place (places self.now of.now) };
}

/// The first place in a list that breaks the rule.
pub(crate) fn first_among<T, R: Rule<T>>(rule: &R, items: &[T]) -> Option<Spot>
    ensures { result ≡ first_place (flat_map (R.places rule.now) items.now) }
{
    for of in items {
        if let Some(spot) = rule.first_in(of) {
            return Some(spot);
        }
    }
    None
}

/// A rule whose check takes memory.
pub(crate) trait TryRule<T> {
    /// The places in a thing that break it.
    ghost places: { Self → T → List Spot };

    /// The first of these places.
    fn first_in(&self, of: &T) -> Result<Option<Spot>, NoMemory>
        ensures { IfOk result (λ found. found ≡ first_place (places self.now of.now)) };
}

/// The first place in a list that breaks the rule.
pub(crate) fn try_first_among<T, R: TryRule<T>>(
    rule: &R,
    items: &[T],
) -> Result<Option<Spot>, NoMemory>
    ensures { IfOk result (λ found. found ≡ first_place (flat_map (R.places rule.now) items.now)) }
{
    for of in items {
        if let Some(spot) = rule.first_in(of)? {
            return Ok(Some(spot));
        }
    }
    Ok(None)
}

/// The place, where it is at fault.
pub(crate) fn place_if(fails: bool, spot: Spot) -> Option<Spot>
    ensures { result ≡ first_place (place_if fails spot) }
{
    if fails { Some(spot) } else { None }
}
