// How the stripes of an image stood.

// How many stripes were clean, bad, unchecked and torn.
#[derive(Clone, Copy, Default, PartialEq, Eq)]
pub struct Tally {
    pub clean: u64,
    pub bad: u64,
    pub unchecked: u64,
    pub torn: u64,
}
