use vub_model::Play;

/// What a turn of a worker came to.
#[derive(Debug, Drop)]
pub enum Turned {
    /// The worker has no step, and nothing has changed.
    Pass,
    /// The worker made this step. An Event at whose counter the host failed is one too: the worker has stopped with
    /// that error.
    Played(Play),
    /// The host failed at the poll: the worker made no step, and has stopped with that error.
    Failed,
}
