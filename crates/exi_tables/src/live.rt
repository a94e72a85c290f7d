ghost use Rattle.std.specs.Prelude.{◌≡◌, ◌<◌, ◌≤◌, ◌-◌, ◌^◌, IfSome, length, nat_lt, position, vec_capacity, vec_len};
ghost use Rattle.std.specs.Str.{bytes_eq};
ghost use Rattle.exi_tables.specs.Values.{
  has_room,
  is_added,
  is_short,
  is_value,
  least_under,
  or_less,
  place_after,
  put_at,
};

use exi_names::{NameId, Txt};

/// A live value.
#[derive(Debug, Drop)]
pub struct Live {
    pub name: NameId,
    /// The place under the name.
    pub local: u32,
    pub text: Txt,
}

/// How many places were given under a name.
#[derive(Debug, Drop)]
pub struct Given {
    pub name: NameId,
    pub count: u32,
}

/// What bounds the values.
#[derive(Clone, Copy, Debug)]
pub struct Bounds {
    /// The greatest length in characters of a value that is added.
    pub most: Option<u128>,
    /// How many values are live at most.
    pub capacity: Option<u128>,
}

impl Bounds {
    /// Whether a missed value is added.
    pub fn adds(self, text: &Txt) -> bool
        ensures { result ≡ is_added self text.now }
    {
        if !has_some(text) {
            return false;
        }
        if !self.is_short(text) {
            return false;
        }
        self.has_room()
    }

    /// Whether a value is not too long.
    fn is_short(self, text: &Txt) -> bool
        ensures { result ≡ is_short self.most (length text.now) }
    {
        match self.most {
            None => true,
            Some(most) => u128::from(text.count()) <= most,
        }
    }

    /// Whether there is room for any value.
    fn has_room(self) -> bool
        ensures { result ≡ has_room self.capacity }
    {
        match self.capacity {
            None => true,
            Some(capacity) => capacity > 0,
        }
    }

    /// The place after a place.
    pub fn after(self, place: u32) -> u32
        requires few { place < 2 ^ 32 - 1 }
        requires within { IfSome self.capacity (λ capacity. place < capacity) }
        ensures { result ≡ place_after self.capacity place }
    {
        let next = place + 1;
        match self.capacity {
            Some(capacity) if u128::from(next) == capacity => 0,
            _ => next,
        }
    }
}

/// Whether a text has a character.
fn has_some(text: &Txt) -> bool
    ensures { result ≡ nat_lt 0 (length text.now) }
{
    !text.as_str().is_empty()
}

/// Puts a value at its place, in place of what stood there, or at the end.
pub fn put(live: &mut Vec<Live>, place: usize, value: Live)
    requires place { place ≤ length live.old.items }
    requires room { vec_len live.old < vec_capacity live.old }
    ensures { live.new.items ≡ put_at place value live.old.items }
{
    if place < live.len() {
        live[place] = value;
    } else {
        live.push_reserved(value);
    }
}

/// The lesser of a place and another, where there is another.
pub fn or_less(place: u32, other: Option<u32>) -> u32
    ensures { result ≡ or_less place other }
{
    match other {
        Some(other) => place.min(other),
        None => place,
    }
}

/// The least place of a value among all.
pub fn least_value(live: &[Live], text: &Txt) -> Option<usize>
    ensures { result ≡ position (λ l. bytes_eq l.text text.now) live.now }
{
    live.iter().position(|value| value.text.same(text))
}

/// The least place under a name of a value with this text.
pub fn least_under(live: &[Live], name: NameId, text: &Txt) -> Option<u32>
    ensures { result ≡ least_under name text.now live.now }
{
    let mut least = None;
    for value in live {
        if !is_value(value, name, text) {
            continue;
        }
        least = Some(or_less(value.local, least));
    }
    least
}

/// Whether a value has this name and text.
pub fn is_value(value: &Live, name: NameId, text: &Txt) -> bool
    ensures { result ≡ is_value name text.now value.now }
{
    value.name == name && value.text.same(text)
}
