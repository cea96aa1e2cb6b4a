// Tries the bottoms: each against brute force on random calls, written to standard output, and its speed, written to
// standard error.
#![tactic(auto)]

use std::alloc::{AllocError, Global};
use std::io;
use theory::sizes::Breadth;
use towers::{Bottom, Layers, Tower};
use trying::dice::Dice;
use trying::measure::{Load, measure};
use trying::oracle;
use trying::tally::Tally;
use trying::trial::Trial;

const ENGINES: u32 = 200;

const CALLS: u32 = 60;

const BOTTOMS: [Tower; 2] = [
    Tower {
        bottom: Bottom::Dense,
        layers: Layers::None,
    },
    Tower {
        bottom: Bottom::Sparse,
        layers: Layers::None,
    },
];

// The same calls over each bottom.
fn try_bottom(alloc: Global, bottom: Tower) -> Result<Tally, AllocError> {
    let mut tally = Tally::default();
    let mut dice = Dice::new(1, oracle::UNKNOWNS);
    for _ in 0..ENGINES {
        let trial = Trial::new(
            alloc,
            Breadth::Differences,
            oracle::DIFFERENCES,
            CALLS,
            || dice.difference_call(),
        )?;
        let _ = trial.try_alone(alloc, bottom, &mut tally)?;
    }
    Ok(tally)
}

fn main(rt: HostRuntime) -> io::Result<()> {
    for bottom in &BOTTOMS {
        let tally = try_bottom(rt.alloc(), *bottom)?;
        println!(rt; "{bottom}: {tally}")?;
    }
    let load = Load::new(rt.alloc(), 64, 1000, |dice| dice.difference())?;
    for bottom in &BOTTOMS {
        measure(&rt, *bottom, &load)?;
    }
    Ok(())
}
