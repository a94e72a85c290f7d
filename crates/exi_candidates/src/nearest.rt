ghost use Rattle.std.specs.Prelude.{◌≡◌, ◌<◌, ◌≤◌, ◌*◌, ◌+◌, ◌^◌, [], All, IfSome, fold, get_or, length, map};
ghost use Rattle.exi_gram.specs.Tables.{coded_of, most_productions};
ghost use Rattle.exi_candidates.specs.Order.{closer, nearer, rank_in};

use exi_gram::Coded;

/// How many parts the code of a production has.
fn parts(coded: &[Coded], place: u32) -> u32
    requires there { place < length coded.now }
    ensures { result ≡ length (get_or (map (λ c. c.parts) (map coded_of coded.now)) place []) }
{
    coded[place as usize].code.parts()
}

/// The place of a production in the order in which they are tried.
pub fn rank(coded: &[Coded], place: u32) -> u64
    requires there { place < length coded.now }
    ensures { result ≡ rank_in (map coded_of coded.now) place }
{
    u64::from(parts(coded, place)) * (1u64 << 32) + u64::from(place)
}

/// The one of both that is tried first.
fn closer(coded: &[Coded], best: Option<u32>, place: u32) -> Option<u32>
    requires there { place < length coded.now }
    requires best { IfSome best (λ b. b < length coded.now) }
    ensures first { result ≡ closer (rank_in (map coded_of coded.now)) best place }
    ensures there { IfSome result (λ p. p < length coded.now) }
{
    match best {
        None => Some(place),
        Some(other) => {
            if rank(coded, place) < rank(coded, other) {
                Some(place)
            } else {
                Some(other)
            }
        }
    }
}

/// The one of both that is tried first, where this one is past the floor.
fn nearer(coded: &[Coded], floor: u64, best: Option<u32>, place: u32) -> Option<u32>
    requires there { place < length coded.now }
    requires best { IfSome best (λ b. b < length coded.now) }
    ensures first { result ≡ nearer (rank_in (map coded_of coded.now)) floor best place }
    ensures there { IfSome result (λ p. p < length coded.now) }
{
    if floor < rank(coded, place) {
        closer(coded, best, place)
    } else {
        best
    }
}

/// The first past the floor of these places and the best of others.
pub fn nearest(coded: &[Coded], floor: u64, best: Option<u32>, places: &[u32]) -> Option<u32>
    requires places { All (λ place. place < length coded.now) places.now }
    requires best { IfSome best (λ b. b < length coded.now) }
    ensures first { result ≡ fold (nearer (rank_in (map coded_of coded.now)) floor) best places.now }
    ensures there { IfSome result (λ p. p < length coded.now) }
{
    let mut found = best;
    for place in places {
        found = nearer(coded, floor, found, *place);
    }
    found
}
