//! The forms of lines, as a person reads them.

/// The form of the line that a word begins, and the word alone for a line that is no more.
pub(crate) fn usage_of(first: &[u8]) -> &'static str {
    if let Some(usage) = usage_of_policies(first) {
        return usage;
    }
    if let Some(usage) = usage_of_packages(first) {
        return usage;
    }
    if let Some(usage) = usage_of_levels(first) {
        return usage;
    }
    usage_alone(first)
}

fn usage_of_policies(first: &[u8]) -> Option<&'static str> {
    if first == b"set".as_slice() {
        return Some("set BUCKET CLIENT USER PRIVILEGE RESULT");
    }
    if first == b"unset".as_slice() {
        return Some("unset BUCKET CLIENT USER PRIVILEGE");
    }
    if first == b"bucket".as_slice() {
        return Some("bucket BUCKET RESULT");
    }
    if first == b"drop".as_slice() {
        return Some("drop BUCKET");
    }
    if first == b"erase".as_slice() {
        return Some("erase BUCKET FILTER FILTER FILTER");
    }
    if first == b"list".as_slice() {
        return Some("list BUCKET FILTER FILTER FILTER");
    }
    if first == b"check".as_slice() {
        return Some("check CLIENT USER PRIVILEGE");
    }
    if first == b"from".as_slice() {
        return Some("from BUCKET deep|flat CLIENT USER PRIVILEGE");
    }
    None
}

fn usage_of_packages(first: &[u8]) -> Option<&'static str> {
    if first == b"user".as_slice() {
        return Some("user UID TYPE");
    }
    if first == b"nouser".as_slice() {
        return Some("nouser UID");
    }
    if first == b"install".as_slice() {
        return Some("install PACKAGE AUTHOR APP SCOPE [PRIVILEGE ..]");
    }
    if first == b"hybrid".as_slice() {
        return Some("hybrid PACKAGE AUTHOR APP SCOPE [PRIVILEGE ..]");
    }
    if first == b"convert".as_slice() {
        return Some("convert PACKAGE hybrid|plain");
    }
    if first == b"remove".as_slice() {
        return Some("remove APP SCOPE");
    }
    if first == b"access".as_slice() {
        return Some("access SUBJECT OBJECT MODES");
    }
    None
}

fn usage_of_levels(first: &[u8]) -> Option<&'static str> {
    if first == b"level".as_slice() {
        return Some(
            "level CALLER own CLIENT PRIVILEGE LEVEL, or level CALLER admin UID CLIENT PRIVILEGE LEVEL",
        );
    }
    if first == b"levels".as_slice() {
        return Some("levels UID");
    }
    if first == b"audit".as_slice() {
        return Some("audit USER");
    }
    if first == b"share".as_slice() {
        return Some("share OWNER TARGET NAME");
    }
    if first == b"unshare".as_slice() {
        return Some("unshare OWNER TARGET NAME");
    }
    None
}

fn usage_alone(first: &[u8]) -> &'static str {
    if first == b"layout".as_slice() {
        return "layout";
    }
    if first == b"shares".as_slice() {
        return "shares";
    }
    if first == b"status".as_slice() {
        return "status";
    }
    if first == b"stop".as_slice() {
        return "stop";
    }
    if first == b"batch".as_slice() {
        return "batch";
    }
    if first == b"template".as_slice() {
        return "template";
    }
    "end"
}
