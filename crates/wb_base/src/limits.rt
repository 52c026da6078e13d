//! The limits of a host, each once.

/// How many tenants a host has at most.
pub const TENANTS: u32 = 64;

/// How many contexts a tenant has at most.
pub const CONTEXTS: u32 = 64;

/// How many forms a tenant has at most.
pub const FORMS: u32 = 16;

/// How many versions a form has at most.
pub const VERSIONS: u32 = 99;

/// How many recipients a context has at most, and how many readers a submission or a transfer names.
pub const READERS: usize = 32;

/// The greatest quota of a tenant: reports a day.
pub const QUOTA: u32 = 100_000;

/// How often a user may be disabled.
pub const DISABLINGS: u32 = 10_000;

/// The longest time for which a context keeps its reports, in days.
pub const RETENTION_DAYS: u32 = 3_650;

/// The longest notice of a grant, in days.
pub const NOTICE_DAYS: u32 = 30;

/// How long a session lasts, in seconds.
pub const SESSION_SECONDS: u64 = 14_400;

/// How many sessions of one caller stand at most.
pub const SESSIONS: usize = 8;

/// The most entries of a trail after which an act may come.
pub const TRAIL_ENTRIES: usize = 4_096;

/// How often a report may be postponed.
pub const POSTPONEMENTS: usize = 10;

/// How many requests for an identity a report has at most.
pub const REQUESTS: usize = 100;

/// How many turns a host makes between two starts.
pub const TURNS: u64 = 1_000_000_000_000_000;

/// The last moment, in seconds since 1970-01-01 00:00 UTC.
pub const LAST_MOMENT: u64 = 99_999_999_999;

/// The longest text of a comment or of feedback, in bytes.
pub const TEXT_BYTES: usize = 4_096;

/// The longest reason, in bytes.
pub const REASON_BYTES: usize = 1_024;

/// The longest label, in bytes.
pub const LABEL_BYTES: usize = 64;

/// The longest name of a user, in bytes.
pub const USER_NAME_BYTES: usize = 64;

/// The longest name of a tenant or a context, and the longest password, in bytes.
pub const NAME_BYTES: usize = 128;

/// The longest frame of a script, in bytes.
pub const FRAME_BYTES: usize = 300_000;

/// The longest setup, in bytes.
pub const SETUP_BYTES: usize = 1_048_576;
