//! What look-ups find and growth keeps. Each law is a function that does nothing: what it ensures is the
//! law.

ghost use Rattle.std.specs.Prelude.{◌≡◌, ◌≢◌, ◌<◌, ◌+◌, ◌^◌, ◌++◌, ◌∷◌, [], List, None, Option, Some, ℕ, cond, false, length, slice_get, true};
ghost use Rattle.exi_names.specs.declared.names.NameId.{NameId};
ghost use Rattle.exi_names.specs.StartTables.{Names, IsStart};
ghost use Rattle.exi_tables.specs.Partitions.{
  Partitions,
  IsName,
  first_partitions,
  live_at,
  least_place,
  uris,
  locals,
  prefixes,
  with_uri,
  with_local,
  with_prefix,
  with_value,
};
ghost use Rattle.exi_names.specs.NameMaps.{same_name};
ghost use Rattle.exi_tables.specs.declared.live.Bounds.{Bounds};
ghost use Rattle.exi_tables.specs.declared.live.Live.{Live};
ghost use Rattle.exi_tables.specs.Growth.{IsLeast, IsSound, KeepsAll, NoneLonger};
ghost use Rattle.exi_tables.specs.Values.{
  ValueTable,
  given_to,
  is_added,
  no_values,
  text_under,
  texts_of,
  with_missed,
};

/// A look-up by text finds the least place that has the text, and nothing only where no place has it.
pub fn finds_the_least()
    ensures found { (texts : List (List ℕ)) (text : List ℕ) (place : ℕ) →
        least_place texts text ≡ Some place → IsLeast texts text place }
    ensures none { (texts : List (List ℕ)) (text : List ℕ) (place : ℕ) →
        least_place texts text ≡ None → live_at texts place ≢ Some text }
{}

/// A missed URI, local name or prefix stands at the end of its list; the local names and prefixes of other
/// URIs stay as they were.
pub fn adds_at_the_end()
    ensures uri { (p : Partitions) (text : List ℕ) → uris (with_uri p text) ≡ uris p ++ text ∷ [] }
    ensures local { (p : Partitions) (uri : ℕ) (text : List ℕ) → uri < length (uris p) →
        locals (with_local p uri text) uri ≡ locals p uri ++ text ∷ [] }
    ensures other_locals { (p : Partitions) (uri other : ℕ) (text : List ℕ) → other ≢ uri →
        locals (with_local p uri text) other ≡ locals p other }
    ensures prefix { (p : Partitions) (uri : ℕ) (text : List ℕ) → uri < length (uris p) →
        prefixes (with_prefix p uri text) uri ≡ prefixes p uri ++ text ∷ [] }
    ensures other_prefixes { (p : Partitions) (uri other : ℕ) (text : List ℕ) → other ≢ uri →
        prefixes (with_prefix p uri text) other ≡ prefixes p other }
{}

/// A value that the bounds refuse changes nothing. Any other has the next place among all values, in place of
/// the one that stood there, and the place behind those that were given under its name. The others keep theirs,
/// and the one that was pushed out is found no longer.
pub fn adds_values()
    ensures refused { (t : ValueTable) (name : NameId) (text : List ℕ) →
        is_added t.bounds text ≡ false → with_missed t name text ≡ t }
    ensures counted { (t : ValueTable) (name : NameId) (text : List ℕ) (other : NameId) →
        is_added t.bounds text ≡ true → given_to other (with_missed t name text).given
        ≡ given_to other t.given + cond (same_name other name) 1 0 }
    ensures global { (t : ValueTable) (name : NameId) (text : List ℕ) → IsSound t →
        is_added t.bounds text ≡ true →
        live_at (texts_of (with_missed t name text)) t.next ≡ Some text }
    ensures others { (t : ValueTable) (name : NameId) (text : List ℕ) → IsSound t →
        (place : ℕ) → place ≢ t.next →
        live_at (texts_of (with_missed t name text)) place ≡ live_at (texts_of t) place }
    ensures own { (t : ValueTable) (name : NameId) (text : List ℕ) → IsSound t →
        is_added t.bounds text ≡ true →
        text_under name (with_missed t name text).live (given_to name t.given) ≡ Some text }
    ensures pushed_out { (t : ValueTable) (name : NameId) (text : List ℕ) → IsSound t →
        (l : Live) → is_added t.bounds text ≡ true → slice_get t.live t.next ≡ Some l →
        text_under l.name (with_missed t name text).live l.local ≡ None }
    ensures start { (b : Bounds) → IsSound (no_values b) }
    ensures sound { (t : ValueTable) (name : NameId) (text : List ℕ) → IsSound t →
        IsSound (with_missed t name text) }
{}

/// Growth keeps the text of each place of the URIs, local names and prefixes, and each name.
pub fn keeps_places()
    ensures uri { (p : Partitions) (text : List ℕ) → KeepsAll p (with_uri p text) }
    ensures local { (p : Partitions) (uri : ℕ) (text : List ℕ) →
        KeepsAll p (with_local p uri text) }
    ensures prefix { (p : Partitions) (uri : ℕ) (text : List ℕ) →
        KeepsAll p (with_prefix p uri text) }
    ensures value { (p : Partitions) (name : NameId) (text : List ℕ) →
        KeepsAll p (with_value p name text) }
    ensures names { (old new : Partitions) (name : NameId) →
        KeepsAll old new → IsName old name → IsName new name }
{}

/// No partition of the first tables has more than 2^30 places, and growth makes each at most one longer.
pub fn grows_by_one()
    ensures start { (names : Names) (most capacity : Option ℕ) → IsStart names →
        NoneLonger (2 ^ 30) (first_partitions names most capacity) }
    ensures uri { (most : ℕ) (p : Partitions) (text : List ℕ) →
        NoneLonger most p → NoneLonger (most + 1) (with_uri p text) }
    ensures local { (most : ℕ) (p : Partitions) (uri : ℕ) (text : List ℕ) →
        NoneLonger most p → NoneLonger (most + 1) (with_local p uri text) }
    ensures prefix { (most : ℕ) (p : Partitions) (uri : ℕ) (text : List ℕ) →
        NoneLonger most p → NoneLonger (most + 1) (with_prefix p uri text) }
    ensures value { (most : ℕ) (p : Partitions) (name : NameId) (text : List ℕ) →
        NoneLonger most p → NoneLonger (most + 1) (with_value p name text) }
{}
