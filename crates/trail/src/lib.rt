// A trail: entries in the order in which they came, and levels that can be closed again, newest first. Closing a level
// takes back the entries that came since it opened. The memory is lent: two slices that the maker chooses long enough.
// Contracts speak of a trail by the list of its entries and by the list of its levels, oldest first, each the number of
// entries when it opened; each change says that the room stays as it was (`Roomy`). No call allocates; each takes a fixed number of steps.
#![tactic(auto)]

ghost use Rattle.std.specs.Prelude.{◌≡◌, ℕ, ◌+◌, ◌-◌, ◌^◌, ◌<◌, ◌≤◌, [], ◌∷◌, ◌++◌, length, take, slice_index_or};
ghost use Rattle.trail.specs.Levels.{Rising};

// The counts stand beside the slices, since the memory is lent and keeps its length.
#[derive(Drop)]
pub struct Trail<'a, E> {
    entries: &'a mut [E],
    marks: &'a mut [u32],
    len: usize,
    depth: usize,
    ghost fits: { len ≤ length entries.now },
    ghost levels_fit: { depth ≤ length marks.now },
    ghost rising: { Rising (take depth marks.now) len },
}

impl<'a, E: Copy> Trail<'a, E> {
    ghost use Rattle.trail.specs.Trails.{items, levels, newest, room, level_room, Roomy};

    // Without entries and levels, whatever the slices hold.
    pub fn new(entries: &'a mut [E], marks: &'a mut [u32]) -> Trail<'a, E>
        ensures items { items result ≡ [] }
        ensures levels { levels result ≡ [] }
        ensures room { room result ≡ length entries.old }
        ensures level_room { level_room result ≡ length marks.old }
    {
        Trail {
            entries,
            marks,
            len: 0,
            depth: 0,
        }
    }

    // How many entries there are.
    pub fn len(&self) -> usize
        ensures { result ≡ length (items self.now) }
    {
        self.len
    }

    // How many levels are open.
    pub fn depth(&self) -> usize
        ensures { result ≡ length (levels self.now) }
    {
        self.depth
    }

    // The entry at place i, the oldest at 0.
    pub fn at(&self, i: usize) -> E
        requires within { i < length (items self.now) }
        ensures { result ≡ slice_index_or (items self.now) i result }
    {
        self.entries[i]
    }

    // How many entries there were when the newest level opened.
    pub fn newest_level(&self) -> usize
        requires opened { 0 < length (levels self.now) }
        ensures { result ≡ newest (levels self.now) }
    {
        self.marks[self.depth - 1] as usize
    }

    pub fn open_level(&mut self)
        requires room { length (levels self.old) < level_room self.old }
        requires few { length (items self.old) < 2 ^ 32 }
        ensures roomy { Roomy self.old self.new }
        ensures items { items self.new ≡ items self.old }
        ensures levels { levels self.new ≡ levels self.old ++ length (items self.old) ∷ [] }
    {
        self.marks[self.depth] = self.len as u32;
        self.depth += 1;
    }

    pub fn add(&mut self, entry: E)
        requires room { length (items self.old) < room self.old }
        ensures roomy { Roomy self.old self.new }
        ensures items { items self.new ≡ items self.old ++ entry ∷ [] }
        ensures levels { levels self.new ≡ levels self.old }
    {
        self.entries[self.len] = entry;
        self.len += 1;
    }

    // Takes back the newest entry, which came since the newest level opened.
    pub fn take_back(&mut self) -> E
        requires since { newest (levels self.old) < length (items self.old) }
        ensures roomy { Roomy self.old self.new }
        ensures items { items self.old ≡ items self.new ++ result ∷ [] }
        ensures levels { levels self.new ≡ levels self.old }
    {
        self.len -= 1;
        self.entries[self.len]
    }

    // Closes the newest level, and says how many entries that came since it opened are taken back.
    pub fn close_level(&mut self) -> usize
        requires opened { 0 < length (levels self.old) }
        ensures roomy { Roomy self.old self.new }
        ensures items { items self.new ≡ take (newest (levels self.old)) (items self.old) }
        ensures levels { levels self.new ≡ take (length (levels self.old) - 1) (levels self.old) }
        ensures count { length (items self.new) + result ≡ length (items self.old) }
    {
        let began = self.newest_level();
        let count = self.len - began;
        self.len = began;
        self.depth -= 1;
        count
    }
}
