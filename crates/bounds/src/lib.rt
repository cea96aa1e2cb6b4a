// Bounds that may be absent: the lesser of two, and half of one. The tables of such bounds and their mathematics stand in
// specs/ and proofs/, over numbers alone. Assumes nothing.
#![tactic(auto)]

ghost use Rattle.std.specs.Prelude.{◌≡◌};
ghost use Rattle.bounds.specs.Tables.{least_of, half};

// The lesser of two bounds; the one that is there, where one is not.
pub fn lesser(a: Option<i64>, b: Option<i64>) -> Option<i64>
    ensures { result ≡ least_of a b }
{
    match (a, b) {
        (None, b) => b,
        (a, None) => a,
        (Some(x), Some(y)) => Some(x.min(y)),
    }
}

// Half of a number, rounded down.
pub fn halved(d: i64) -> i64
    ensures { result ≡ half d }
{
    d >> 1
}
