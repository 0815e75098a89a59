use script_words::Place;

/// Where the next line of a script stands, for what depends on that alone.
#[derive(Clone, Copy, Debug, PartialEq, Eq)]
pub enum Spot {
    /// Outside a block, in a script for this place.
    Outside(Place),
    /// Within a batch.
    Batch,
    /// Within a template. Where it is full, no further line has room in it.
    Template { is_full: bool },
}
