// Scripts of engine calls: the lines of text that name towers of theories and calls, their run as a history over two of
// the towers, and the text of what came of it. docs/FORMAT.md has the lines. The programs differ only in the towers that
// they know.
#![tactic(auto)]

mod lines;
mod report;
mod words;

use lines::Script;
use report::{print_history, print_unreadable};
use std::io;
use std::io::Read;
use std::rt::Runtime;
use theory::Start;
use towers::{Tower, VisitBoth, over_both};

// Replays the script on standard input, over towers that are known.
pub fn replay<K: Fn(Tower) -> bool>(rt: &HostRuntime, known: K) -> io::Result<()>
    requires { K.IsAlwaysCallable known }
{
    let mut input = Vec::new(rt.alloc());
    let _ = rt.stdin().read_to_end(&mut input)?;
    let text = String::from_utf8_lossy(rt.alloc(), input.as_slice())?;
    let script = Script::read(rt.alloc(), text.as_str(), known)?;
    match script.towers {
        Some(towers) => over_both(
            towers.first,
            towers.second,
            Replaying {
                rt,
                script: &script,
            },
        ),
        None => print_unreadable(rt, &script),
    }
}

#[derive(Drop)]
struct Replaying<'a> {
    rt: &'a HostRuntime,
    script: &'a Script,
}

impl<'a> VisitBoth for Replaying<'a> {
    type Outcome = io::Result<()>;

    fn visit_both<P: Start + Drop, Q: Start + Drop>(self, first: P, second: Q) -> io::Result<()> {
        let Replaying { rt, script } = self;
        match histories::run(
            rt.alloc(),
            first,
            second,
            script.calls.as_slice(),
            script.last_call(),
        ) {
            Ok(history) => print_history(rt, script, &history),
            Err(fault) => println!(rt; "{fault}"),
        }
    }
}
