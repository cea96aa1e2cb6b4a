// What one line of a script says.
use histories::Call;
use std::str::{FromStr, SplitWhitespace};
use theory::row::{Row, Side};
use towers::{Layers, Tower};

// What a line says that is neither empty nor a comment.
#[derive(Clone, Copy)]
pub enum Said {
    Over(Tower),
    Against(Tower),
    Call(Call),
}

// The next word as a value of the type that is wanted.
fn next<T: FromStr>(words: &mut SplitWhitespace) -> Option<T>
where
    T::Err: Drop,
{
    words.next()?.parse::<T>().ok()
}

// a u b v
fn next_side(words: &mut SplitWhitespace) -> Option<Side> {
    Some(Side {
        a: next(words)?,
        u: next(words)?,
        b: next(words)?,
        v: next(words)?,
    })
}

fn next_row(words: &mut SplitWhitespace) -> Option<Row> {
    Some(Row {
        side: next_side(words)?,
        c: next(words)?,
    })
}

// A bottom, and the layers that the rest of the line names: words that any spaces part, and so no text of a `Layers`.
fn next_tower(words: &mut SplitWhitespace) -> Option<Tower> {
    let bottom = next(words)?;
    let layers = match (words.next(), words.next(), words.next()) {
        (None, _, _) => Layers::None,
        (Some("filter"), None, _) => Layers::Filter,
        (Some("doubled"), None, _) => Layers::Doubled,
        (Some("doubled"), Some("filter"), None) => Layers::DoubledFilter,
        (Some("filter"), Some("doubled"), None) => Layers::FilterDoubled,
        (Some("doubled"), Some("doubled"), None) => Layers::DoubledDoubled,
        _ => return None,
    };
    Some(Tower { bottom, layers })
}

pub fn read_line(line: &str) -> Option<Said> {
    let mut words = line.split_whitespace();
    let said = match words.next()? {
        "over" => Said::Over(next_tower(&mut words)?),
        "against" => Said::Against(next_tower(&mut words)?),
        "push" => Said::Call(Call::Push),
        "pop" => Said::Call(Call::Pop),
        "offer" => Said::Call(Call::Offer(next_row(&mut words)?)),
        "tightest" => Said::Call(Call::Tightest(next_side(&mut words)?)),
        "row" => Said::Call(Call::RowAt(next(&mut words)?)),
        _ => return None,
    };
    words.next().is_none().then_some(said)
}

// Empty lines and comments are passed over.
pub fn says_nothing(line: &str) -> bool {
    line.split_whitespace()
        .next()
        .is_none_or(|word| word.starts_with("#"))
}
