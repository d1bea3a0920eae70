use vx_cell::Plex;

/// The pieces of a volume: the plexes of each region, in order, and the copies of its log.
#[derive(Drop)]
pub struct VolumePieces<P> {
    pub regions: Vec<Vec<Plex<P>>>,
    pub copies: Vec<Vec<P>>,
}
