// The types that the rules speak of; the rules are in specs/, many of their theorems in proofs/.
#![tactic(auto)]

// A directory entry as it stands in its page.
#[derive(Clone, Copy)]
pub struct Entry {
    // four bytes as stored, the first lowest
    pub name: u32,
    // the number in the low seven bits, the attribute in the top bit
    pub extension: u8,
    pub start: usize,
    pub pages: usize,
}

// The totals that an accepting check answers.
#[derive(Clone, Copy)]
pub struct Totals {
    pub used: usize,
    pub files: usize,
    pub directories: usize,
}

// What a listing answers for an entry.
#[derive(Clone, Copy)]
pub struct Line {
    // 0 in the root
    pub level: usize,
    pub name: u32,
    pub extension: u8,
    pub attribute: u8,
    pub start: usize,
    pub pages: usize,
    // bytes of a file, 0 for a directory
    pub length: usize,
}

// How many page writes a careful call has made, and whether any are left.
#[derive(Clone, Copy)]
pub struct WriteCount {
    pub made: usize,
    pub left: bool,
}
