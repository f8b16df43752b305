ghost use Rattle.std.specs.Prelude.{◌<◌};
ghost use Rattle.reg_model.specs.declared.limits.TheConstants.{SESSIONS_LIMIT};

use reg_model::Call;

/// A line of a script, understood.
#[derive(Drop)]
pub enum Line {
    /// An empty line or a comment: no reply.
    Nothing,
    /// A setting for all later lines: no reply.
    Setting(Setting),
    /// A call of the session that is set.
    Call(Call),
    /// The taking of the next notice of the session that is set.
    Notice,
    /// A line of another form: `bad`.
    Bad,
}

/// What later lines go by.
#[derive(Clone, Copy)]
pub enum Setting {
    /// The moment of later calls, in units of 100 ns since 1601.
    At(u64),
    /// The session of later calls.
    As(Session),
    /// The hive of later calls, below the number of hives that the line was read for.
    Hive(u8),
}

/// The number of a session.
#[derive(Clone, Copy)]
pub struct Session {
    /// Below 64.
    pub number: u8,
    ghost in_range: { number < SESSIONS_LIMIT },
}

/// The first word of a setting, of a call, or of the taking of a notice.
#[derive(Clone, Copy)]
pub enum Verb {
    At,
    As,
    Hive,
    Root,
    Open,
    Create,
    Set,
    DelValue,
    DelKey,
    DelTree,
    SetSec,
    Notify,
    Close,
    Query,
    EnumKey,
    EnumValue,
    Info,
    GetSec,
    Notice,
}
