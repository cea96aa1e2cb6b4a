// Tries every tower: its answers to random calls against a plain reference, written to standard output, and the speed of
// each, written to standard error.
#![tactic(auto)]

use histories::Fault;
use std::alloc::Global;
use std::io;
use theory::sizes::Breadth;
use towers::{Bottom, Layers, Tower};
use trying::dice::Dice;
use trying::measure::{Load, measure};
use trying::oracle;
use trying::tally::Tally;
use trying::trial::Trial;

const TRIALS: u32 = 60;

const CALLS: u32 = 40;

// The layers that leave differences, and those that make sums of them.
const NARROW: [Layers; 2] = [Layers::None, Layers::Filter];

const WIDE: [Layers; 4] = [
    Layers::Doubled,
    Layers::DoubledFilter,
    Layers::FilterDoubled,
    Layers::DoubledDoubled,
];

// The layers over each bottom.
#[derive(Clone, Copy)]
struct Line {
    layers: Layers,
    dense: Tally,
    sparse: Tally,
}

impl Line {
    fn new(layers: Layers) -> Line {
        Line {
            layers,
            dense: Tally::default(),
            sparse: Tally::default(),
        }
    }

    fn over(&self, bottom: Bottom) -> Tower {
        Tower {
            bottom,
            layers: self.layers,
        }
    }
}

// The answers to the last call, made once more on both engines, count as a call too.
fn try_tower(alloc: Global, trial: &Trial, tower: Tower, tally: &mut Tally) -> Result<(), Fault> {
    let history = trial.try_over(alloc, tower, tally)?;
    tally.note(history.first, Some(history.second));
    Ok(())
}

// The same trials for every tower.
fn try_towers(alloc: Global, breadth: Breadth, lines: &mut [Line]) -> Result<(), Fault> {
    let mut dice = Dice::new(1, oracle::UNKNOWNS);
    for _ in 0..TRIALS {
        let trial = Trial::new(alloc, breadth, oracle::SUMS, CALLS, || dice.call())?;
        for line in lines.iter_mut() {
            try_tower(alloc, &trial, line.over(Bottom::Dense), &mut line.dense)?;
            try_tower(alloc, &trial, line.over(Bottom::Sparse), &mut line.sparse)?;
        }
    }
    Ok(())
}

fn print_trials(rt: &HostRuntime, breadth: Breadth, lines: &mut [Line]) -> io::Result<()> {
    if let Err(fault) = try_towers(rt.alloc(), breadth, lines) {
        return println!(rt; "{fault}");
    }
    for line in lines.iter() {
        println!(rt; "{}: {}", line.over(Bottom::Dense), line.dense)?;
        println!(rt; "{}: {}", line.over(Bottom::Sparse), line.sparse)?;
    }
    Ok(())
}

fn measure_towers(rt: &HostRuntime, lines: &[Line], load: &Load) -> io::Result<()> {
    for line in lines {
        measure(rt, line.over(Bottom::Dense), load)?;
        measure(rt, line.over(Bottom::Sparse), load)?;
    }
    Ok(())
}

fn main(rt: HostRuntime) -> io::Result<()> {
    let mut narrow = NARROW.map(Line::new);
    let mut wide = WIDE.map(Line::new);
    print_trials(&rt, Breadth::Differences, &mut narrow)?;
    print_trials(&rt, Breadth::Sums, &mut wide)?;
    let differences = Load::new(rt.alloc(), 64, 1000, |dice| dice.signed_difference())?;
    measure_towers(&rt, &narrow, &differences)?;
    let sums = Load::new(rt.alloc(), 32, 500, |dice| dice.side())?;
    measure_towers(&rt, &wide[0..3], &sums)?;
    let few = Load::new(rt.alloc(), 16, 200, |dice| dice.side())?;
    measure_towers(&rt, &wide[3..4], &few)
}
