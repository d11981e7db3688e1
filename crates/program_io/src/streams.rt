//! Standard streams that are closed when a program starts.

use std::fs::File;
use std::io;
use std::os::fd::{AsFd, BorrowedFd, IntoRawFd};

/// Opens `/dev/null` in place of each standard stream that is closed, so that no file which is opened later gets its
/// number. Call it before anything else is opened. The error is that of opening `/dev/null`.
pub fn fill_streams(rt: &HostRuntime) -> io::Result<()> {
    // In this order, since an opened file gets the lowest free number.
    fill(rt, &rt.stdin())?;
    fill(rt, &rt.stdout())?;
    fill(rt, &rt.stderr())
}

fn fill<S: AsFd>(rt: &HostRuntime, stream: &S) -> io::Result<()> {
    if is_closed(stream.as_fd()) {
        let null = File::options()
            .read(true)
            .write(true)
            .open(rt, "/dev/null")?;
        // The number stays open until the program ends.
        let _ = null.into_raw_fd();
    }
    Ok(())
}

// A closed descriptor can't be duplicated (`EBADF`). An open one can't if the process has no free descriptor (`EMFILE`). A
// program whose streams are open needs no `/dev/null`.
fn is_closed(stream: BorrowedFd<'_>) -> bool {
    match stream.try_clone_to_owned() {
        Ok(_) => false,
        Err(error) => error.raw_os_error() == Some(EBADF),
    }
}

// POSIX: the number is not that of an open file.
const EBADF: i32 = 9;
