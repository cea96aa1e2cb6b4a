// Replays a list of engine calls from standard input, one to a line, over the bottoms, and answers each on standard output;
// then shows that a second engine, told what stands, answers alike. docs/FORMAT.md has the lines.
#![tactic(auto)]

use std::io;
use towers::Layers;

fn main(rt: HostRuntime) -> io::Result<()> {
    script::replay(&rt, |tower| tower.layers == Layers::None)
}
