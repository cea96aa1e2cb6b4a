// Prints the answers of a history, one to a line, and what it showed in the end.
use crate::lines::Script;
use histories::History;
use histories::text::AnswerText;
use std::io;

// The answer of the call at the place, or that the line is none.
fn print_line(rt: &HostRuntime, call: Option<usize>, history: &History) -> io::Result<()> {
    match call.and_then(|place| history.answers.get(place)) {
        Some(answer) => println!(rt; "{}", AnswerText(*answer)),
        None => println!(rt; "unreadable"),
    }
}

pub fn print_history(rt: &HostRuntime, script: &Script, history: &History) -> io::Result<()> {
    for line in &script.lines {
        print_line(rt, *line, history)?;
    }
    println!(rt;
        "standing: {} rows, {} levels",
        history.rows, history.levels
    )?;
    println!(rt;
        "second engine: took {} of {} offers and {} pushes",
        history.taken, history.rows, history.levels
    )?;
    println!(rt;
        "last call again, first engine: {}",
        AnswerText(history.first)
    )?;
    println!(rt;
        "last call again, second engine: {}",
        AnswerText(history.second)
    )
}

// A script that names no tower.
pub fn print_unreadable(rt: &HostRuntime, script: &Script) -> io::Result<()> {
    for _ in &script.lines {
        println!(rt; "unreadable")?;
    }
    Ok(())
}
