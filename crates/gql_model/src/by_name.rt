//! A list of things that have names, in which a name is looked up.

ghost use Rattle.std.specs.Prelude.{◌≡◌, ◌<◌, ◌^◌, ℕ, List, length, map, IfOk, IfSome};
ghost use Rattle.std.specs.List.{position, find, slice_get};
ghost use Rattle.std.specs.Option.{option_copied};
ghost use Rattle.std.specs.Str.{bytes_eq};
ghost use Rattle.gql_model.specs.inner.Order.{IsOrder, OrdersMany, seats, seat_of, comes_before, is_named, if_named};

use gql_tree::{Listed, NoMemory, TryCopy};
use std::alloc::Global;
use std::marker::Model;

/// Something that has a name.
pub trait HasName: Drop {
    /// The bytes of the name.
    ghost name_of: { Self → List ℕ };

    fn name(&self) -> &str
        ensures { result.now ≡ name_of self.now };
}

/// A list of no more items has no order: it is walked.
const WALKED: usize = 8;

/// A list of things that have names. A name is looked up in the order of the names where the list is
/// long.
///
/// Contracts see the list of the items. That two of them have one name isn't excluded: the first is
/// found.
#[derive(Debug, Drop)]
pub struct ByName<T: HasName> {
    items: Listed<T>,
    /// The places of the items, from 0, in the order of their names, and of one name in their own
    /// order. Empty where the list is walked.
    order: Vec<u32>,
}

impl<T: HasName> Model for ByName<T> {
    ghost use Rattle.std.specs.Prelude.{List};
    ghost use Rattle.std.specs.Coded.{coded_list};
    ghost use Rattle.gql_model.specs.inner.Order.{OrdersMany};

    ghost Value = { List T };

    ghost coded = { coded_list T.code };

    ghost view = { λ it. it.items };

    ghost invariant = { λ it. OrdersMany T.name_of it.items it.order.items };
}

impl<T: HasName> ByName<T> {
    /// Puts the items of a list in order. A list of 2^32 items or more has none: `NoMemory`.
    pub fn new(alloc: Global, items: Listed<T>) -> Result<Self, NoMemory>
        ensures { IfOk result (λ it. it ≡ items) }
    {
        let order = order_of(alloc, items.as_slice())?;
        Ok(ByName { items, order })
    }

    pub fn as_slice(&self) -> &[T]
        ensures now { result.now ≡ self.now }
        ensures few { length self.now < 4294967296 }
    {
        self.items.as_slice()
    }

    /// The place of the first item of this name, from 0; takes no memory.
    pub fn place(&self, name: &str) -> Option<usize>
        ensures place { result ≡ position (λ item. bytes_eq (T.name_of item) name.now) self.now }
        ensures within { IfSome result (λ place. place < length self.now) }
        ensures few { IfSome result (λ place. place < 4294967296) }
    {
        if self.order.is_empty() {
            walk(self.items.as_slice(), name)
        } else {
            search(self.items.as_slice(), self.order.as_slice(), name)
        }
    }

    /// The first item of this name; takes no memory.
    pub fn get(&self, name: &str) -> Option<&T>
        ensures { option_copied result ≡ find (λ item. bytes_eq (T.name_of item) name.now) self.now }
    {
        match self.place(name) {
            Some(place) => self.items.get(place),
            None => None,
        }
    }
}

impl<T: HasName + TryCopy> TryCopy for ByName<T> {
    fn copy(&self) -> Result<Self, NoMemory> {
        ByName::new(*self.order.allocator(), self.items.copy()?)
    }
}

/// The order of many items, and none of a few.
fn order_of<T: HasName>(alloc: Global, items: &[T]) -> Result<Vec<u32>, NoMemory>
    ensures { IfOk result (λ order. OrdersMany T.name_of items.now order.items) }
{
    if items.len() > u32::MAX as usize {
        return Err(NoMemory);
    }
    if items.len() <= WALKED {
        return Ok(Vec::new(alloc));
    }
    let mut seats = seats_of(alloc, items)?;
    seats.sort_unstable();
    places_of(alloc, &seats)
}

/// The names of the items with their places.
fn seats_of<'a, T: HasName>(alloc: Global, items: &'a [T]) -> Result<Vec<(&'a str, u32)>, NoMemory>
    requires { length items.now < 4294967296 }
    ensures { IfOk result (λ made. map seat_of made.items ≡ seats T.name_of items.now) }
{
    let mut seats = Vec::with_capacity(alloc, items.len())?;
    for item in items {
        seats.push((item.name(), seats.len() as u32))?;
    }
    Ok(seats)
}

/// The places alone.
fn places_of(alloc: Global, seats: &[(&str, u32)]) -> Result<Vec<u32>, NoMemory>
    ensures { IfOk result (λ places. places.items ≡ map (λ seat. seat.1) seats.now) }
{
    let mut places = Vec::with_capacity(alloc, seats.len())?;
    for seat in seats {
        places.push(seat.1)?;
    }
    Ok(places)
}

/// The place of the first item of a name, item by item.
fn walk<T: HasName>(items: &[T], name: &str) -> Option<usize>
    ensures { result ≡ position (λ item. bytes_eq (T.name_of item) name.now) items.now }
{
    items.iter().position(|item| item.name() == name)
}

/// The place of the first item of a name, by the order of the names.
fn search<T: HasName>(items: &[T], order: &[u32], name: &str) -> Option<usize>
    requires { IsOrder T.name_of items.now order.now }
    ensures { result ≡ position (λ item. bytes_eq (T.name_of item) name.now) items.now }
{
    let at = order.partition_point(|place| comes_before(items, *place, name));
    if_named(items, place_at(order, at), name)
}

/// The place that stands in an order.
fn place_at(order: &[u32], at: usize) -> Option<u32>
    ensures { result ≡ slice_get order.now at }
{
    order.get(at).copied()
}

/// Whether the name of the item at a place comes before a name.
fn comes_before<T: HasName>(items: &[T], place: u32, name: &str) -> bool
    ensures { result ≡ comes_before T.name_of items.now name.now place }
{
    match items.get(place as usize) {
        Some(item) => item.name() < name,
        None => false,
    }
}

/// The place where there is one and the item there has the name.
fn if_named<T: HasName>(items: &[T], place: Option<u32>, name: &str) -> Option<usize>
    ensures { result ≡ if_named T.name_of items.now name.now place }
{
    match place {
        Some(place) if is_named(items, place, name) => Some(place as usize),
        _ => None,
    }
}

/// Whether the item at a place has a name.
fn is_named<T: HasName>(items: &[T], place: u32, name: &str) -> bool
    ensures { result ≡ is_named T.name_of items.now name.now place }
{
    match items.get(place as usize) {
        Some(item) => item.name() == name,
        None => false,
    }
}
