// Memory as one value, just enough for a sparse theory.
use crate::checked::Checked;
use crate::graph::Edge;
use crate::memory::{EDGES, HEADS, LEVELS, MARKS, Memory, SAVED};
use crate::potentials::Potentials;

#[derive(Drop)]
pub struct Room {
    edges: [Edge; EDGES],
    levels: [u32; LEVELS],
    saved: [Potentials; SAVED],
    heads: [u32; HEADS],
    marks: [u8; MARKS],
}

impl Room {
    // What the arrays hold does not matter.
    pub fn new() -> Room {
        Room {
            edges: [Edge::blank(); EDGES],
            levels: [0; LEVELS],
            saved: [Potentials::zero(); SAVED],
            heads: [0; HEADS],
            marks: [0; MARKS],
        }
    }

    // What a sparse theory is started from, over this memory.
    pub fn lend(&mut self) -> Checked<'_> {
        let Room {
            edges,
            levels,
            saved,
            heads,
            marks,
        } = self;
        Checked::new(Memory {
            edges,
            levels,
            saved,
            heads,
            marks,
        })
    }
}

impl Default for Room {
    fn default() -> Room {
        Room::new()
    }
}
