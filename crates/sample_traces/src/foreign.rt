// A trace that went through a recorder of another make: it begins with a record that names the machine,
// and among the instructions stand two of kinds that this format does not have. The writer writes none of
// these, so their bytes are put here.
use crate::trace::{Put, Trace};
use records::new_record::NewRecord;
use records::record::NativeRegister;

const R1: NativeRegister = NativeRegister(1);

// Magic, then Arch, with the content 'armv7m'.
fn machine(trace: &mut Trace) -> Put {
    trace.put(NewRecord::Magic, b"")?;
    trace.put_bytes(b"\x01\x07armv7m\x08")
}

// An instruction, then kind 08, with the content 'CAN1'.
fn first(trace: &mut Trace) -> Put {
    trace.instruction(0x100, b"\x05\x48")?;
    trace.put_bytes(b"\x09\x05CAN1\x06")
}

// An instruction, then kind 68, with two length bytes and a trailer of five bytes around 'ok'; then what the
// instruction wrote.
fn second(trace: &mut Trace) -> Put {
    trace.instruction(0x102, b"\x01\x21")?;
    trace.put_bytes(b"\x6a\x07\x00ok\x05\x00\x00\x00\x00")?;
    trace.set_register(R1, 1)
}

pub(crate) fn foreign(trace: &mut Trace) -> Put {
    machine(trace)?;
    first(trace)?;
    second(trace)
}
