// What the program writes.
use std::io;

// Writes bytes; where it could not, that is told.
pub(crate) fn answer(rt: &HostRuntime, bytes: &[u8]) -> io::Result<()> {
    let mut output = rt.stdout();
    let mut error = rt.stderr();
    let line = b"shiftlog: the output could not be written\n";
    streams::put_or_tell(&mut output, bytes, &mut error, line)
}

// Tells a line on standard error.
pub(crate) fn tell(rt: &HostRuntime, line: &[u8]) {
    let mut error = rt.stderr();
    let _ = streams::put(&mut error, line);
}
