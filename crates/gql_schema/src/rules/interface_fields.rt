//! The fields of the interfaces that a type implements.

ghost use Rattle.std.specs.Prelude.{◌≡◌, Bool, map, flat_map};
ghost use Rattle.std.specs.List.{list_any};
ghost use Rattle.gql_model.specs.rules.TypeParts.{Field, field_of, fields_of};
ghost use Rattle.gql_schema.specs.Seen.{defined};

use crate::defined::{Defined, fields_of};
use gql_model::{ByName, FieldSyntax, NameAt};

/// What fields of interfaces are tested for.
pub(crate) trait FieldTest {
    ghost test: { Self → Field → Bool };

    fn passes(&self, field: &FieldSyntax) -> bool
        ensures { result ≡ test self.now (field_of field.now) };
}

/// Whether a field of one of the interfaces passes.
pub(crate) fn any_interface_field<R: FieldTest>(
    rule: &R,
    types: &ByName<Defined<'_>>,
    implements: &[NameAt],
) -> bool
    ensures { result ≡ list_any (R.test rule.now) (flat_map (λ i. fields_of (map defined types.now) i.name) implements.now) }
{
    for interface in implements {
        if any_field(rule, fields_of(types, interface.name.as_str())) {
            return true;
        }
    }
    false
}

/// Whether one of the fields passes.
fn any_field<R: FieldTest>(rule: &R, fields: &[FieldSyntax]) -> bool
    ensures { result ≡ list_any (R.test rule.now) (map field_of fields.now) }
{
    for field in fields {
        if rule.passes(field) {
            return true;
        }
    }
    false
}
