/// A block as it is kept.
#[derive(Drop)]
pub enum BlockOf {
    /// All its bytes are this one.
    Equal(u8),
    Whole(Box<[u8; 512]>),
}
