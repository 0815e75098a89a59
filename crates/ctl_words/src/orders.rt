// What the words of the command line ask for.
use std::alloc::AllocError;

/// Who is asked about: a client, a user and a privilege, as they were written.
#[derive(Clone, Copy)]
pub struct Asked<'a> {
    pub client: &'a str,
    pub user: &'a str,
    pub privilege: &'a str,
}

/// Where the policy state is read.
#[derive(Clone, Copy)]
pub enum At<'a> {
    /// From a running service, which has so many seconds.
    Service { seconds: u32 },
    /// From the folder of a copy of a store.
    Copy { folder: &'a str },
}

/// What a listing lists.
#[derive(Clone, Copy)]
pub enum Subject {
    Users,
    Packages,
    Apps,
    Buckets,
    Status,
}

/// How `may` tells what it was answered.
#[derive(Clone, Copy)]
pub enum Style {
    Line,
    Json,
    /// By its status alone.
    Quiet,
}

/// A level that is to be set, as its words were written. `by` is the administrator who sets it for the user.
#[derive(Clone, Copy)]
pub struct LevelWords<'a> {
    pub by: Option<&'a str>,
    pub user: &'a str,
    pub client: &'a str,
    pub privilege: &'a str,
    pub level: &'a str,
}

/// Which lines of a log are wanted, and how.
#[derive(Clone, Copy)]
pub struct LogWords<'a> {
    pub file: Option<&'a str>,
    /// Whether to wait for more at the end of the file.
    pub follow: bool,
    pub json: bool,
    pub client: Option<&'a str>,
    pub user: Option<&'a str>,
    pub privilege: Option<&'a str>,
    pub result: Option<&'a str>,
    pub since: Option<&'a str>,
}

/// What is asked for.
#[derive(Clone, Copy)]
pub enum Order<'a> {
    /// Whether a question is allowed, by a service that has so many seconds.
    May {
        asked: Asked<'a>,
        style: Style,
        seconds: u32,
    },
    /// Why a question is answered as it is.
    Explain {
        asked: Asked<'a>,
        at: At<'a>,
    },
    /// Which applications may use a privilege, for each user or for one.
    Who {
        privilege: &'a str,
        user: Option<&'a str>,
        at: At<'a>,
    },
    List {
        subject: Subject,
        at: At<'a>,
    },
    /// The levels that a user has set.
    GetLevels {
        user: &'a str,
        at: At<'a>,
    },
    SetLevel {
        words: LevelWords<'a>,
        seconds: u32,
    },
    /// The script that makes the device.
    Export {
        at: At<'a>,
    },
    /// What the script in a file would change.
    Plan {
        script: &'a str,
        at: At<'a>,
    },
    /// What a service has decided, of what `watch` wrote.
    Log {
        words: LogWords<'a>,
    },
    /// The script that makes the policies of Cynara's data base in a folder.
    Import {
        folder: &'a str,
    },
}

/// Why words gave no order.
#[derive(Drop)]
pub enum Unread {
    /// They ask for this text: the help, or the version.
    Shown(String),
    /// They are wrong, as this text says.
    Wrong(String),
    Memory(AllocError),
}
