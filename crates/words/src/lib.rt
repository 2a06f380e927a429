// The types of the common words. No function.

#![tactic(auto)]

// Where a part starts, and how many bytes it has. No slice: the cases name places.
#[derive(Clone, Copy)]
pub struct Part {
    pub start: usize,
    pub count: usize,
}
