// Left sides as one literal or as the difference of two, and rows as differences over twice as many unknowns, where 2k stands
// for x(k) and 2k + 1 for −x(k). Assumes nothing. The proofs say what the greatest differences of those are for the rows.
#![tactic(auto)]

ghost use Rattle.std.specs.Prelude.{◌≡◌, ◌<◌};
ghost use Rattle.bounds.specs.Literals.{index, mirror};
ghost use Rattle.bounds.specs.Doubling.{code};
ghost use Rattle.sums.specs.Terms.{lit, literal_by, terms_of, Opposite, differ};

use theory::row::{Side, Sign};

// An unknown, or its opposite.
#[derive(Clone, Copy, PartialEq, Eq, Debug)]
pub enum Literal {
    Plus(u32),
    Minus(u32),
}

impl Literal {
    pub fn new(sign: Sign, unknown: u32) -> Literal
        ensures { result ≡ literal_by sign unknown }
    {
        match sign {
            Sign::Minus => Literal::Minus(unknown),
            Sign::Zero | Sign::Plus => Literal::Plus(unknown),
        }
    }

    pub fn mirror(self) -> Literal
        ensures { lit result ≡ mirror (lit self) }
    {
        match self {
            Literal::Plus(k) => Literal::Minus(k),
            Literal::Minus(k) => Literal::Plus(k),
        }
    }

    // The unknown below that stands for the literal.
    pub fn code(self) -> u32
        requires { index (lit self) < 64 }
        ensures { result ≡ code (lit self) }
    {
        match self {
            Literal::Plus(k) => 2 * k,
            Literal::Minus(k) => 2 * k + 1,
        }
    }

    // This literal less another, as a side below.
    pub fn minus(self, other: Literal) -> Side
        requires { (index (lit self) < 64) × (index (lit other) < 64) }
        ensures { result ≡ differ (lit self) (lit other) }
    {
        Side {
            a: Sign::Plus,
            b: Sign::Minus,
            u: self.code(),
            v: other.code(),
        }
    }
}

// s, or s − t.
#[derive(Clone, Copy, PartialEq, Eq, Debug)]
pub enum Terms {
    One(Literal),
    Two(Literal, Literal),
}

impl From<Side> for Terms {
    ghost from_gives = { λ side ts. ts ≡ terms_of side };

    fn from(side: Side) -> Terms {
        let s = Literal::new(side.a, side.u);
        match side.b {
            Sign::Zero => Terms::One(s),
            Sign::Plus => Terms::Two(s, Literal::Minus(side.v)),
            Sign::Minus => Terms::Two(s, Literal::Plus(side.v)),
        }
    }
}

impl Terms {
    // The terms of the opposite number.
    pub fn opposite(self) -> Terms
        ensures { Opposite self result }
    {
        match self {
            Terms::One(s) => Terms::One(s.mirror()),
            Terms::Two(s, t) => Terms::Two(t, s),
        }
    }
}
