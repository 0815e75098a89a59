// Labels that are those of no package: of the domains of a device, and those that the template of its rules names.

use crate::near_names::PACKAGE_FRONT;
use desk_state::Desk;

/// Labels of domains as they stand.
const DOMAINS: [&[u8]; 5] = [b"System", b"User", b"_", b"^", b"*"];

/// Fronts of the labels of further ones.
const SYSTEM_FRONT: &[u8] = b"System::";

const USER_FRONT: &[u8] = b"User::";

/// Whether the label is one of the device, whatever is installed. Where there is no memory to look, it is.
pub fn is_of_device(desk: &Desk, label: &[u8]) -> bool {
    is_of_domain(label) || is_in_template(desk, label)
}

fn is_of_domain(label: &[u8]) -> bool {
    if label.starts_with(PACKAGE_FRONT) {
        return false;
    }
    label.starts_with(SYSTEM_FRONT)
        || label.starts_with(USER_FRONT)
        || DOMAINS.iter().any(|domain| label == *domain)
}

fn is_in_template(desk: &Desk, label: &[u8]) -> bool {
    match desk.template().text() {
        Ok(text) => text
            .split(|byte| *byte == b'\n')
            .any(|line| is_in_line(line, label)),
        Err(_) => true,
    }
}

// Whether the label is one of the two of a line.
fn is_in_line(line: &[u8], label: &[u8]) -> bool {
    line.split(|byte| *byte == b' ')
        .take(2)
        .any(|word| word == label)
}
