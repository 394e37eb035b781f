/// What an id knows: the place of its value, and how many hold it.
#[derive(Drop)]
pub struct Seat {
    pub place: usize,
    pub uses: u128,
}
