// What a program says on standard error where standard input or output fails, with its name before the message.
use std::io::Stderr;

// Where standard error fails too, nothing can be said. `stderr` and `program` stay two arguments, here and in `input`:
// each `main` would make a struct of them for one call or two.
fn say(stderr: Stderr, program: &[u8], message: &[u8]) {
    let _ = stderr.write_all(program);
    let _ = stderr.write_all(message);
}

// These two differ in the message alone, and are named for what failed.
pub fn say_unread(stderr: Stderr, program: &[u8]) {
    say(stderr, program, b": standard input could not be read\n");
}

pub fn say_unwritten(stderr: Stderr, program: &[u8]) {
    say(stderr, program, b": standard output could not be written\n");
}
