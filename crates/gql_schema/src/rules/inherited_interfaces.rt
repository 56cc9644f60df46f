ghost use Rattle.std.specs.Prelude.{◌≡◌, not, map, flat_map, IfOk};
ghost use Rattle.std.specs.List.{list_any};
ghost use Rattle.std.specs.Str.{bytes_eq};
ghost use Rattle.gql_model.specs.rules.Places.{place_if, names_of, stands_in};
ghost use Rattle.gql_model.specs.rules.TypeParts.{interfaces_of};
ghost use Rattle.gql_model.specs.rules.types.InheritedInterfaces.{missing_interfaces, missing_interfaces_of};
ghost use Rattle.gql_schema.specs.Seen.{defined};
ghost use Rattle.gql_schema.specs.FirstPlace.{first_place};

use super::rule::{Rule, TryRule, first_among, place_if, try_first_among};
use crate::defined::{Defined, interfaces_of};
use crate::named::{Named, by_name, is_listed};
use gql_model::{ByName, NameAt};
use gql_tree::{NoMemory, Spot};
use std::alloc::Global;

/// A type implements each interface that its interfaces implement, and no interface implements itself
/// (sections 3.6 and 3.7 of the standard).
pub(crate) fn missing_interface(
    alloc: Global,
    types: &ByName<Defined<'_>>,
) -> Result<Option<Spot>, NoMemory>
    ensures { IfOk result (λ found. found ≡ first_place (missing_interfaces (map defined types.now))) }
{
    try_first_among(&InheritedInterfaces { alloc, types }, types.as_slice())
}

#[derive(Drop)]
struct InheritedInterfaces<'t, 'a> {
    alloc: Global,
    types: &'t ByName<Defined<'a>>,
}

impl<'t, 'a, 'd> TryRule<Defined<'d>> for InheritedInterfaces<'t, 'a> {
    ghost places = { λ it of. missing_interfaces_of (map defined it.types.now) (defined of) };

    fn first_in(&self, of: &Defined<'d>) -> Result<Option<Spot>, NoMemory> {
        let own = by_name(self.alloc, of.implements)?;
        let lacks = lacks_inherited(self.types, of.implements, &own);
        let itself = first_among(&Itself { name: of.name }, of.implements);
        Ok(place_if(lacks, of.name.spot).or(itself))
    }
}

/// A type isn't one of its own interfaces.
#[derive(Drop)]
struct Itself<'n> {
    name: &'n NameAt,
}

impl<'n> Rule<NameAt> for Itself<'n> {
    ghost places = { λ it i. place_if (bytes_eq i.name it.name.now.name) i.spot };

    fn first_in(&self, of: &NameAt) -> Option<Spot> {
        place_if(of.name.as_str() == self.name.name.as_str(), of.spot)
    }
}

/// Whether one of the interfaces implements what isn't listed.
fn lacks_inherited(
    types: &ByName<Defined<'_>>,
    implements: &[NameAt],
    own: &ByName<Named<'_>>,
) -> bool
    ensures { result ≡ list_any (λ name. not (stands_in name (names_of (map (λ n. n.at.now) own.now)))) (flat_map (λ i. interfaces_of (map defined types.now) i.name) implements.now) }
{
    for interface in implements {
        if lacks(own, interfaces_of(types, interface.name.as_str())) {
            return true;
        }
    }
    false
}

/// Whether one of the names isn't listed.
fn lacks(own: &ByName<Named<'_>>, names: &[NameAt]) -> bool
    ensures { result ≡ list_any (λ name. not (stands_in name (names_of (map (λ n. n.at.now) own.now)))) (names_of names.now) }
{
    for at in names {
        if !is_listed(own, at.name.as_str()) {
            return true;
        }
    }
    false
}
