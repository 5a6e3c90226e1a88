// The settings of a row.
use sx_limits::Limits;

/// How a row's desk behaves, what its answer shows, and the limits of its run. Of the calls that fail 0 is none.
#[derive(Clone, Copy)]
pub struct Settings {
    pub read: u32,
    pub write: u32,
    pub open_fails: u64,
    pub read_fails: u64,
    pub write_fails: u64,
    pub any: bool,
    pub steady: bool,
    pub opened: bool,
    pub marks: bool,
    pub limits: Limits,
}

// Whole pieces, no failure, the limits that the program states.
fn plain() -> Settings {
    Settings {
        read: 65_536,
        write: 65_536,
        open_fails: 0,
        read_fails: 0,
        write_fails: 0,
        any: false,
        steady: false,
        opened: false,
        marks: false,
        limits: Limits::stated(),
    }
}

// A number of bytes that one call moves.
fn piece(number: u64) -> u32 {
    number.min(65_536) as u32
}

// The limits with one of them changed, where it has this name.
fn with_limit(limits: Limits, name: &str, number: u64) -> Option<Limits> {
    match name {
        "line" => Some(Limits {
            line: number,
            ..limits
        }),
        "text_run" => Some(Limits {
            text_run: number,
            ..limits
        }),
        "attrs" => Some(Limits {
            attrs: number,
            ..limits
        }),
        "depth" => Some(Limits {
            depth: number,
            ..limits
        }),
        "bytes" => Some(Limits {
            bytes: number,
            ..limits
        }),
        "invocations" => Some(Limits {
            invocations: number,
            ..limits
        }),
        _ => None,
    }
}

// The settings with one of them changed, where it has this name and a number.
fn with_number(settings: Settings, name: &str, number: u64) -> Option<Settings> {
    match name {
        "read" => Some(Settings {
            read: piece(number),
            ..settings
        }),
        "write" => Some(Settings {
            write: piece(number),
            ..settings
        }),
        "open fails" => Some(Settings {
            open_fails: number,
            ..settings
        }),
        "read fails" => Some(Settings {
            read_fails: number,
            ..settings
        }),
        "write fails" => Some(Settings {
            write_fails: number,
            ..settings
        }),
        name => {
            let limits = with_limit(settings.limits, name, number)?;
            Some(Settings { limits, ..settings })
        }
    }
}

// The settings with one more.
fn with(settings: Settings, text: &str) -> Option<Settings> {
    match text {
        "any" => Some(Settings {
            any: true,
            ..settings
        }),
        "steady" => Some(Settings {
            steady: true,
            ..settings
        }),
        "opened" => Some(Settings {
            opened: true,
            ..settings
        }),
        "marks" => Some(Settings {
            marks: true,
            ..settings
        }),
        text => {
            let (name, digits) = text.rsplit_once(' ')?;
            with_number(settings, name, digits.parse::<u64>().ok()?)
        }
    }
}

/// The settings that are listed, with `, ` between them.
pub fn listed(list: &str) -> Option<Settings> {
    let mut settings = plain();
    for text in list.split_terminator(", ") {
        settings = with(settings, text)?;
    }
    Some(settings)
}
