/// A value that holds from a version on, until another does.
#[derive(Drop)]
pub struct Since<T> {
    pub version: u32,
    pub value: T,
}
