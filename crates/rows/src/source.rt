// A source, and the part of it that a line is.
#[derive(Clone, Copy)]
pub struct Source {}

impl Source {
    // How many bytes it may have.
    pub const MOST_BYTES: usize = 65536;
}
