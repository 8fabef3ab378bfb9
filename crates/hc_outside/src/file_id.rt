use std::fs::Metadata;
use std::os::unix::fs::{FileTypeExt, MetadataExt};

/// Which file of the system a file is: its device, and its number there. All names and links of one file have one.
#[derive(Clone, Copy, PartialEq, Eq)]
pub(crate) struct FileId {
    device: u64,
    number: u64,
}

impl FileId {
    /// That of a file with these metadata. A terminal, `/dev/null` and the like have none, since they keep nothing that
    /// could be written over; neither has a file of a runtime that tells no number.
    pub(crate) fn of(metadata: &Metadata) -> Option<FileId> {
        if metadata.file_type().is_char_device() || metadata.ino() == 0 {
            return None;
        }
        Some(FileId {
            device: metadata.dev(),
            number: metadata.ino(),
        })
    }
}
