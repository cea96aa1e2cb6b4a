// Replays a list of engine calls as `replay` does, over every tower of layers on a bottom.
#![tactic(auto)]

use std::io;

fn main(rt: HostRuntime) -> io::Result<()> {
    script::replay(&rt, |_| true)
}
