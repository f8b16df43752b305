/// Is told where the calls of sessions stand. Each change and each question tells it twice; the taking of a notice doesn't.
///
/// What it does inside a lock keeps all other sessions from that hive, and so it mustn't call the registry.
pub trait HiveGate: Sync {
    /// A session's call holds the hive's lock, and isn't answered yet.
    fn inside(&self, session: u8, hive: u8);

    /// The call is answered, and the lock was let go.
    fn answered(&self, session: u8, hive: u8);
}

/// Does nothing: the gate of those who needn't be told.
pub struct OpenGate;

impl HiveGate for OpenGate {
    fn inside(&self, _session: u8, _hive: u8) {}

    fn answered(&self, _session: u8, _hive: u8) {}
}
