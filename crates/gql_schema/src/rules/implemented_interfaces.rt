ghost use Rattle.std.specs.Prelude.{◌≡◌, [], map};
ghost use Rattle.gql_model.specs.rules.Places.{in_turn};
ghost use Rattle.gql_model.specs.rules.types.ImplementedInterfaces.{faulty_interface, faulty_interfaces};
ghost use Rattle.gql_schema.specs.Seen.{defined};
ghost use Rattle.gql_schema.specs.FirstPlace.{first_place};

use super::in_turn::{RuleInTurn, first_in_turn};
use super::rule::{Rule, first_among, place_if};
use crate::defined::{Defined, is_interface_named};
use gql_model::{ByName, NameAt};
use gql_tree::Spot;
use std::alloc::Global;

/// The names that a type implements are distinct interfaces (sections 3.6 and 3.7 of the standard).
pub(crate) fn faulty_interface(alloc: Global, types: &ByName<Defined<'_>>) -> Option<Spot>
    ensures { result ≡ first_place (faulty_interfaces (map defined types.now)) }
{
    first_among(&ImplementedInterfaces { alloc, types }, types.as_slice())
}

#[derive(Drop)]
struct ImplementedInterfaces<'t, 'a> {
    alloc: Global,
    types: &'t ByName<Defined<'a>>,
}

impl<'t, 'a, 'd> Rule<Defined<'d>> for ImplementedInterfaces<'t, 'a> {
    ghost places = { λ it of. in_turn (λ n. n.name) (faulty_interface (map defined it.types.now)) [] of.implements.now };

    fn first_in(&self, of: &Defined<'d>) -> Option<Spot> {
        first_in_turn(self.alloc, self, of.implements)
    }
}

impl<'t, 'a> RuleInTurn<NameAt> for ImplementedInterfaces<'t, 'a> {
    ghost name_of = { λ n. n.name };

    ghost places = { λ it. faulty_interface (map defined it.types.now) };

    fn name<'n>(&self, of: &'n NameAt) -> &'n str {
        of.name.as_str()
    }

    fn first_at(&self, again: bool, of: &NameAt) -> Option<Spot> {
        let fails = again || !is_interface_named(self.types, of.name.as_str());
        place_if(fails, of.spot)
    }
}
