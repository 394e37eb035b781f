/// A version from which on a key has another value. The key is told by its place in the course.
#[derive(Clone, Copy)]
pub struct Dated {
    pub version: u32,
    pub place: usize,
}
