/// How the writing of lines stands: it goes on; or a call of the sink failed, or memory was wanting, and nothing
/// further is written.
#[derive(Clone, Copy, Debug, PartialEq, Eq)]
pub enum Writing {
    GoesOn,
    SinkFailed,
    OutOfMemory,
}
