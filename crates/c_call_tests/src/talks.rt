//! Answers that Linux gives, and what is known before a call.
use dialogue::Answer;
use find_proc::{File, Kept, Known};
use system_calls::MachineFlags;

pub(crate) fn nothing() -> Answer {
    Answer {
        file_system: 0,
        flags: 0,
        device: 0,
        inode: 0,
        mount: 0,
        node: 0,
        value: 0,
        error: 0,
        links: 0,
        mode: 0,
        has_mount: false,
    }
}

pub(crate) fn opened(fd: u32) -> Answer {
    Answer {
        value: fd,
        ..nothing()
    }
}

pub(crate) fn fails(error: u32) -> Answer {
    Answer { error, ..nothing() }
}

// The file that the program's /proc is, and an object of this mode.
pub(crate) fn seen(mode: u16) -> Answer {
    Answer {
        device: 1,
        inode: 1,
        mount: 1,
        mode,
        has_mount: true,
        ..nothing()
    }
}

pub(crate) fn known() -> Known {
    let file = File {
        device: 1,
        inode: 1,
        mount: 1,
    };
    Known {
        kept: Kept {
            file,
            fd: 9,
            there: true,
            handed_in: false,
            claimed: true,
        },
        machine: MachineFlags {
            directory: 0o200000,
            nofollow: 0o400000,
            direct: 0o40000,
            largefile: 0,
        },
        has_floor: true,
    }
}
