use ax_types::ServerOut;

/// What became of a step of a node that is up.
#[derive(Drop)]
pub enum Served {
    /// It was made, and all that it saves is kept.
    Fine { out: ServerOut },
    /// A store call failed, after so many store calls of the step that succeeded. The node is down.
    Failed { saved: u64 },
}
