ghost use Rattle.std.specs.Prelude.{◌≡◌, MatchOption, ◌≢◌};
ghost use Rattle.plancheck.specs.Names.{make_name};

// A map, lots, a map beside lots, a code over a map, a code over lots, a map beside a code over lots, and a
// code over a map beside lots.
#[derive(Clone, Copy)]
pub enum Make {
    Map,
    Lots,
    Pair,
    Coded,
    CodedLots,
    PairCoded,
    CodedPair,
}

// The make that goes by a name. It is no TryFrom, whose error type would say no more than a None does.
pub fn make_of(name: &[u8]) -> Option<Make>
    ensures { MatchOption result ((m : Make) → name.now ≢ make_name m)
        (λ m. name.now ≡ make_name m) }
{
    match name {
        b"map" => Some(Make::Map),
        b"lots" => Some(Make::Lots),
        b"pair" => Some(Make::Pair),
        b"coded" => Some(Make::Coded),
        b"coded-lots" => Some(Make::CodedLots),
        b"pair-coded" => Some(Make::PairCoded),
        b"coded-pair" => Some(Make::CodedPair),
        _ => None,
    }
}
