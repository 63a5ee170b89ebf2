//! A /proc is found, looked at, handed in or made, by answers that Linux gives; and an entry that was made is opened.
use crate::rows::{Room, all_go, goes};
use crate::talk::{FILE, Talk};
use find_proc::File;
use std::alloc::AllocError;

/// Conversations about a /proc. Descriptor 4294967196 is AT_FDCWD, and 4294967295 is none.
const PROCS: &str = "\
# the one at hand is on its mount; a signal says nothing
find there floor: Stat(9) = EINTR; Stat(9) = sees 77 41; is 9 false
find there floor surely: Stat(9) = sees 1 41; is 9 false
find there floor handed surely: Stat(9) = EBADF; fails ENOSYS
find there floor handed surely: Stat(9) = sees 77 41; fails ENOSYS
find there floor handed surely: Stat(9) = sees 1 42; fails ENOSYS
find there floor handed surely: Stat(9) = sees 1 0; fails ENOSYS
find there floor handed surely: Stat(9) = unnumbered 1 41; fails ENOSYS
# another one is the call's
find there floor: Stat(9) = sees 1 42; Open(4294967196, /proc, 12600000, 0) = is 11; FileSystem(11) = proc; \
Stat(11) = sees 1 43; Claim(false) = EBUSY; is 11 true
# a kernel may lack what is needed
find there surely: LookUp(4294967295, ., 200000, 2) = ok; fails ENOSYS
find there surely: LookUp(4294967295, ., 200000, 2) = EPERM; fails ENOSYS
find there surely: LookUp(4294967295, ., 200000, 2) = ENOSYS; fails ENOSYS
find there surely: LookUp(4294967295, ., 200000, 2) = EBADF; Stat(4294967196) = ENOSYS; fails ENOSYS
lost there: LookUp(4294967295, ., 200000, 2) = EBADF; Stat(4294967196) = ENOSYS; is 0 true
hand_in there: Claim(true) = ok; LookUp(4294967295, ., 200000, 2) = ENOSYS; Release = ok; fails ENOSYS
floor floor: is 0 true
# why there is no new one
find floor: Open(4294967196, /proc, 12600000, 0) = EMFILE; fails EMFILE
find floor: Open(4294967196, /proc, 12600000, 0) = ENOENT; fails ENOSYS
find floor: Open(4294967196, /proc, 12600000, 0) = is 0; CopyAbove(0) = EINVAL; Close(0) = ok; fails EMFILE
find floor: Open(4294967196, /proc, 12600000, 0) = is 11; FileSystem(11) = ext4; Close(11) = ok; fails ENOSYS
find floor: Open(4294967196, /proc, 12600000, 0) = is 11; FileSystem(11) = proc_without_links; Close(11) = ok; \
fails ENOSYS
find floor: Open(4294967196, /proc, 12600000, 0) = is 11; FileSystem(11) = EIO; Close(11) = ok; fails ENOSYS
find floor: Open(4294967196, /proc, 12600000, 0) = is 11; FileSystem(11) = proc; Stat(11) = EIO; Close(11) = ok; \
fails EIO
# the kept one may be lost
lost_another there floor: is 0 false
lost floor: is 0 false
lost there floor: Stat(9) = sees 1 41; is 0 false
lost there floor: Stat(9) = sees 77 41; is 0 true
# what a program hands in is copied; the place may be taken, and else is free again where nothing is kept
hand_in floor: Claim(true) = ok; FileSystem(7) = proc; Open(7, ., 12200000, 0) = is 11; Stat(11) = sees 1 41; \
Keep(11, 5, 1, 41, true) = ok; is 0 false
hand_in floor: Claim(true) = EBUSY; FileSystem(7) = proc; Open(7, ., 12200000, 0) = is 11; Stat(11) = sees 1 41; \
Close(11) = ok; fails EBUSY
hand_in floor: Claim(true) = EBUSY; FileSystem(7) = EBADF; fails EBADF
hand_in floor: Claim(true) = ok; FileSystem(7) = ext4; Release = ok; fails EINVAL
hand_in floor: Claim(true) = ok; FileSystem(7) = proc; Open(7, ., 12200000, 0) = is 11; Stat(11) = EIO; \
Close(11) = ok; Release = ok; fails EIO
# a new one is made and handed in
make there floor: fails EBUSY
make floor: NewProc = is 20; Configure(20, true) = EINVAL; Configure(20, false) = ok; Mount(20) = is 21; \
Close(20) = ok; FileSystem(21) = proc; ReadThread(21) = ok; Claim(true) = ok; FileSystem(21) = proc; \
Open(21, ., 12200000, 0) = is 22; Stat(22) = sees 1 44; Keep(22, 5, 1, 44, true) = ok; Close(21) = ok; is 0 false
# the first error of making counts; a copy may have no such thread
make floor: NewProc = EPERM; CopyProc = ENOSYS; fails EPERM
make floor: NewProc = EPERM; CopyProc = is 21; FileSystem(21) = proc; ReadThread(21) = ENOENT; Close(21) = ok; \
fails ENOSYS
make floor: NewProc = is 20; Configure(20, true) = ok; Configure(20, false) = EIO; Close(20) = ok; CopyProc = EPERM; \
fails EIO";

/// What was made, and how it is opened.
const GIVINGS: &str = "\
# a directory is given by its kind, a device by its number, and a link by its text
directory: Open(3, name, 12400000, 0) = is 8; Stat(8) = sees 5 9 sticky; is 8 false
directory: Open(3, name, 12400000, 0) = is 8; Stat(8) = sees 5 9 fifo; Close(8) = EIO; fails EAGAIN
device: Open(3, name, 12400000, 0) = is 8; Stat(8) = sees 5 9 device 259; is 8 false
device: Open(3, name, 12400000, 0) = is 8; Stat(8) = sees 5 9 device 261; Close(8) = ok; fails EAGAIN
device: Open(3, name, 12400000, 0) = is 8; Stat(8) = sees 5 9 disk 259; Close(8) = ok; fails EAGAIN
fifo: Open(3, name, 12400000, 0) = is 8; Stat(8) = sees 5 9 fifo 1; is 8 false
link: Open(3, name, 12400000, 0) = is 8; Stat(8) = sees 5 9 link; ReadLink(8) = is 7; is 8 false
link: Open(3, name, 12400000, 0) = is 8; Stat(8) = sees 5 9 link; ReadLink(8) = is 6; Close(8) = ok; fails EAGAIN
link: Open(3, name, 12400000, 0) = is 8; Stat(8) = sees 5 9 link; ReadLink(8) = is 8; Close(8) = ok; fails EAGAIN
link: Open(3, name, 12400000, 0) = is 8; Stat(8) = sees 5 9 link; ReadLink(8) = is 99; Close(8) = ok; fails EAGAIN
link: Open(3, name, 12400000, 0) = is 8; Stat(8) = sees 5 9 link; ReadLink(8) = EIO; Close(8) = ok; fails EIO
# a file is the one that was made
new_file: Open(3, name, 12400000, 0) = is 8; Stat(8) = sees 5 9 file; Stat(6) = sees 5 9 file; Close(6) = EIO; \
is 8 false
new_file: Open(3, name, 12400000, 0) = is 8; Stat(8) = sees 5 9 file; Stat(6) = sees 6 9 file; Close(8) = ok; \
Close(6) = ok; fails EAGAIN
new_file: Open(3, name, 12400000, 0) = is 8; Stat(8) = sees 5 9 file; Stat(6) = sees 5 8 file; Close(8) = ok; \
Close(6) = ok; fails EAGAIN
new_file: Open(3, name, 12400000, 0) = is 8; Stat(8) = sees 5 9 file; Stat(6) = EIO; Close(8) = ok; Close(6) = ok; \
fails EIO
new_file: Open(3, name, 12400000, 0) = is 8; Stat(8) = sees 5 9 fifo; Close(8) = ok; Close(6) = ok; fails EAGAIN
# another name is of any kind of that object
name: Open(3, name, 12400000, 0) = is 8; Stat(8) = sees 5 9 link; Stat(6) = sees 5 9 link; is 8 false
name: Open(3, name, 12400000, 0) = is 8; Stat(8) = sees 5 9 link; Stat(6) = sees 6 9 link; Close(8) = ok; fails EAGAIN
# each error is told as it is, and a signal says nothing
directory: Open(3, name, 12400000, 0) = EINTR; Open(3, name, 12400000, 0) = is 8; Stat(8) = EINTR; \
Stat(8) = sees 5 9 directory; is 8 false
directory: Open(3, name, 12400000, 0) = ENOENT; fails EAGAIN
directory: Open(3, name, 12400000, 0) = EMFILE; fails EMFILE
new_file: Open(3, name, 12400000, 0) = EMFILE; Close(6) = ok; fails EMFILE
directory: Open(3, name, 12400000, 0) = is 8; Stat(8) = ENOENT; Close(8) = EIO; fails ENOENT
directory: Open(3, name, 12400000, 0) = is 8; Stat(8) = unnumbered 5 9 directory; Close(8) = ok; fails ENOSYS";

#[test]
fn calls_ask_in_this_order(rt: HostRuntime) -> Result<(), AllocError> {
    all_go::<Talk>(&rt, rt.alloc(), PROCS)?;
    all_go::<Talk>(&rt, rt.alloc(), GIVINGS)
}

#[test]
fn the_first_one_is_the_programs(rt: HostRuntime) -> Result<(), AllocError> {
    let mut talk = Talk::begun(rt.alloc(), "find surely");
    let exchanges =
        "LookUp(4294967295, ., 200000, 2) = EBADF; Stat(4294967196) = sees 8 40; Know(true) = ok; \
        Open(4294967196, /proc, 12600000, 0) = is 2; CopyAbove(2) = is 12; Close(2) = ok; FileSystem(12) = proc; \
        Stat(12) = sees 1 43; Claim(false) = ok; Keep(12, 5, 1, 43, false) = ok; is 12 false";
    goes(&rt, rt.alloc(), &mut talk, exchanges)?;
    let after = talk.after();
    let file = File { mount: 43, ..FILE };
    assert!(rt; after.kept.there && after.kept.claimed && !after.kept.handed_in);
    assert!(rt; after.kept.fd == 12 && after.kept.file == file);
    assert!(rt; after.machine == talk.known.machine && !after.has_floor);
    Ok(())
}
