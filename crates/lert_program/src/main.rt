//! The program: `lert run DIR TRACE..`, `lert recover DIR`, `lert gen` and `lert drill`, with their options.
//!
//! It makes the words, the place and the sink over real files and standard output, makes the top
//! call, prints the line of a status other than `Done` on standard error, and ends with the status's
//! number. What a real file gives or takes is told by no contract.
#![tactic(auto)]

use lert_host::{FilePlace, TextSink, WordsFault, read_words};
use lert_text::{LINE, status_line};
use lert_top::{Status, run};
use std::fs::File;
use std::io;
use std::io::Write;
use std::os::fd::{AsFd, BorrowedFd};
use std::process::ExitCode;
use std::rt::Files;

fn main(rt: HostRuntime) -> ExitCode {
    // Held to the end, so that no file of a run gets the number of a standard stream that was closed: what is printed would go
    // into that file.
    let _streams = [null_device(&rt), null_device(&rt), null_device(&rt)];
    let status = match read_words(&rt, rt.alloc()) {
        Ok(words) => {
            // Where there is no null device, a closed stream is still closed.
            let mut place = if has_streams(&rt) {
                FilePlace::new(&rt)
            } else {
                FilePlace::refusing(&rt)
            };
            let mut out = TextSink::new(io::writer(&rt));
            run(&rt, rt.alloc(), &words, &mut place, &mut out)
        }
        // One that isn't UTF-8 is no word of a line.
        Err(WordsFault::NotText) => Status::Usage { rule: 0 },
        Err(WordsFault::OutOfMemory) => Status::OutOfMemory,
    };
    print_line(&mut rt.stderr(), status);
    ExitCode::from(status.number())
}

// A file that takes nothing: it is opened for reading alone.
fn null_device<R: Files<File = File> + AllocGlobal>(rt: &R) -> Option<File> {
    File::open(rt, "/dev/null").ok()
}

// Whether each standard stream is open, which the system tells where it is to be opened once more.
fn has_streams(rt: &HostRuntime) -> bool {
    is_open(rt.stdin().as_fd()) && is_open(rt.stdout().as_fd()) && is_open(rt.stderr().as_fd())
}

fn is_open(stream: BorrowedFd<'_>) -> bool {
    stream.try_clone_to_owned().is_ok()
}

// Prints the line of a status on standard error. `Done` has none.
fn print_line<W: Write>(errors: &mut W, status: Status) {
    let number = status.number();
    if number == 0 {
        return;
    }
    let (a, b, d) = status.fields();
    let mut line = [0; LINE];
    let len = status_line(number, a, b, d, 0, 0, &mut line);
    // The exit status tells it too, where standard error is closed.
    let _ = errors.write_all(&line[..len]);
}
