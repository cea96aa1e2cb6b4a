// The towers of theories that the programs know: a bottom, and the layers over it. `over` hands what starts a tower to a
// visit, and lends the sparse bottom its memory for as long as the visit takes.
#![tactic(auto)]

ghost use Rattle.std.specs.Prelude.{Some};
ghost use Rattle.towers.specs.Text.{bottom_text, ReadsBottom};

use dense::OverDense;
use doubled::OverDoubled;
use filter::OverFilter;
use sparse::room::Room;
use std::error::Error;
use std::fmt;
use std::str::FromStr;
use theory::Start;

#[derive(Clone, Copy, PartialEq, Eq, Debug)]
pub enum Bottom {
    Dense,
    Sparse,
}

impl fmt::Display for Bottom {
    ghost output = { λ b. Some (bottom_text b) };

    fn fmt<W: fmt::Write>(&self, f: &mut fmt::Formatter<W>) -> fmt::Result {
        f.write_str(match self {
            Bottom::Dense => "dense",
            Bottom::Sparse => "sparse",
        })
    }
}

// A word that names no bottom.
#[derive(Clone, Copy, PartialEq, Eq, Debug)]
pub struct NoBottom;

impl fmt::Display for NoBottom {
    fn fmt<W: fmt::Write>(&self, f: &mut fmt::Formatter<W>) -> fmt::Result {
        write!(f, "no bottom")
    }
}

impl Error for NoBottom {}

impl FromStr for Bottom {
    type Err = NoBottom;

    ghost from_str_gives = { ReadsBottom };

    fn from_str(word: &str) -> Result<Bottom, NoBottom> {
        match word {
            "dense" => Ok(Bottom::Dense),
            "sparse" => Ok(Bottom::Sparse),
            _ => Err(NoBottom),
        }
    }
}

// The layers, the lowest first.
#[derive(Clone, Copy, PartialEq, Eq, Debug)]
pub enum Layers {
    None,
    Filter,
    Doubled,
    DoubledFilter,
    FilterDoubled,
    DoubledDoubled,
}

#[derive(Clone, Copy, PartialEq, Eq, Debug)]
pub struct Tower {
    pub bottom: Bottom,
    pub layers: Layers,
}

// Bottom first.
impl fmt::Display for Tower {
    fn fmt<W: fmt::Write>(&self, f: &mut fmt::Formatter<W>) -> fmt::Result {
        let Tower { bottom, layers } = self;
        match layers {
            Layers::None => write!(f, "{bottom}"),
            Layers::Filter => write!(f, "{bottom} filter"),
            Layers::Doubled => write!(f, "{bottom} doubled"),
            Layers::DoubledFilter => write!(f, "{bottom} doubled filter"),
            Layers::FilterDoubled => write!(f, "{bottom} filter doubled"),
            Layers::DoubledDoubled => write!(f, "{bottom} doubled doubled"),
        }
    }
}

impl Tower {
    // How often the sizes of the bottom are halved: towers of the same bottoms' sizes are alike where this is.
    pub fn halvings(self) -> u32 {
        match self.layers {
            Layers::None | Layers::Filter => 0,
            Layers::Doubled | Layers::DoubledFilter | Layers::FilterDoubled => 1,
            Layers::DoubledDoubled => 2,
        }
    }
}

// What is done with a tower, whichever it is. A trait and no closure, since what is done is generic in what starts the tower.
pub trait Visit {
    type Outcome;

    fn visit<S: Start + Drop>(self, start: S) -> Self::Outcome;
}

// What is done with two towers.
pub trait VisitBoth {
    type Outcome;

    fn visit_both<P: Start + Drop, Q: Start + Drop>(self, first: P, second: Q) -> Self::Outcome;
}

pub fn over<V: Visit>(tower: Tower, visit: V) -> V::Outcome {
    match tower.bottom {
        Bottom::Dense => layered(tower.layers, OverDense, visit),
        Bottom::Sparse => over_sparse(tower.layers, visit),
    }
}

fn over_sparse<V: Visit>(layers: Layers, visit: V) -> V::Outcome {
    let mut room = Room::new();
    layered(layers, room.lend(), visit)
}

fn layered<S: Start + Drop, V: Visit>(layers: Layers, bottom: S, visit: V) -> V::Outcome {
    match layers {
        Layers::None => visit.visit(bottom),
        Layers::Filter => visit.visit(OverFilter(bottom)),
        Layers::Doubled => visit.visit(OverDoubled(bottom)),
        Layers::DoubledFilter => visit.visit(OverFilter(OverDoubled(bottom))),
        Layers::FilterDoubled => visit.visit(OverDoubled(OverFilter(bottom))),
        Layers::DoubledDoubled => visit.visit(OverDoubled(OverDoubled(bottom))),
    }
}

// Visits the second tower from within a visit of the first.
struct First<V> {
    second: Tower,
    visit: V,
}

struct Second<P, V> {
    first: P,
    visit: V,
}

impl<V: VisitBoth> Visit for First<V> {
    type Outcome = V::Outcome;

    fn visit<S: Start + Drop>(self, start: S) -> V::Outcome {
        let First { second, visit } = self;
        over(
            second,
            Second {
                first: start,
                visit,
            },
        )
    }
}

impl<P: Start + Drop, V: VisitBoth> Visit for Second<P, V> {
    type Outcome = V::Outcome;

    fn visit<S: Start + Drop>(self, start: S) -> V::Outcome {
        let Second { first, visit } = self;
        visit.visit_both(first, start)
    }
}

pub fn over_both<V: VisitBoth>(first: Tower, second: Tower, visit: V) -> V::Outcome {
    over(first, First { second, visit })
}
