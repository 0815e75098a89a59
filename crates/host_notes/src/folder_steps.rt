// What can be done where a call of the folder failed.
use folder_disk::FolderStep;
use std::io::ErrorKind;

/// What can be done where this step on the folder failed so.
pub(crate) fn folder_advice(step: FolderStep, kind: ErrorKind) -> &'static str {
    match step {
        FolderStep::LockFolder if kind == ErrorKind::WouldBlock => {
            "that run ends first; a service is asked by 'check' and 'admin', and 'echo stop | privilege admin' ends it"
        }
        FolderStep::MakeFolder if is_absent(kind) => {
            "PRIVILEGE_DIR has to name a directory that is there"
        }
        FolderStep::OpenFolder if kind == ErrorKind::NotADirectory => {
            "move away what stands in the folder's place"
        }
        FolderStep::UseFolder => {
            "nothing in it was changed; docs/use/GUIDE.md, \"To keep a store\", says how a lost list is written anew"
        }
        _ => kind_advice(kind),
    }
}

fn is_absent(kind: ErrorKind) -> bool {
    kind == ErrorKind::NotFound || kind == ErrorKind::NotADirectory
}

// What can be done where a step on the folder failed so, whichever it was.
fn kind_advice(kind: ErrorKind) -> &'static str {
    match kind {
        ErrorKind::PermissionDenied => {
            "this user has to own the folder and its files, and pass through the directories above it"
        }
        ErrorKind::ReadOnlyFilesystem => "the folder has to be where this user can write",
        ErrorKind::StorageFull | ErrorKind::QuotaExceeded => {
            "make room; what was answered is kept, and whether the command behind it is, 'status' tells"
        }
        ErrorKind::InvalidFilename => "PRIVILEGE_DIR has to name a directory with a shorter path",
        ErrorKind::InvalidInput | ErrorKind::FilesystemLoop => {
            "each file of the folder is a plain one, and no other program writes there"
        }
        _ => {
            "what was answered is kept, and whether the command behind it is, \
                'status' tells once the folder can be used"
        }
    }
}
