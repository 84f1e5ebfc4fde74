use std::fs;
use std::rt::Files;

/// Three files that are open for nothing but the numbers of their descriptors.
#[derive(Drop)]
pub struct HeldStreams<F> {
    files: [Option<F>; 3],
}

/// Takes the numbers of standard streams that are closed, so that until the value's end no file that is opened gets one of
/// them: what is written to such a stream would go into that file. The numbers stand for the folder `/`, opened to be read;
/// so a write to a closed stream fails, as it does where the number is nobody's.
pub fn hold_streams<R: Files>(files: &R) -> HeldStreams<R::File> {
    let first = fs::open(files, "/").ok();
    let second = fs::open(files, "/").ok();
    let third = fs::open(files, "/").ok();
    HeldStreams {
        files: [first, second, third],
    }
}
