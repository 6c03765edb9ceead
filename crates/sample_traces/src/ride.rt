// A ride. In its first moment the timer's tick reads the fuel sensor, a message of the CAN bus brings the speed, and
// the display is drawn anew. Then there is what the gauges show on the way.
use crate::begin::begin;
use crate::curve::curve;
use crate::trace::{Put, Trace};
use records::new_record::{NewFileMeta, NewMeta, NewRecord};
use records::record::Register;

// The registers of the fuel sensor and of the bus.
const SENSOR: u64 = 0x4001204c;

const BUS: u64 = 0x400065b8;

// The display buffer, and where the speed stands in it.
const DISPLAY: u64 = 0x20001000;

const SPEED: u64 = 0x20001010;

// The room for messages on the heap, and where it is when it is larger.
const ROOM: u64 = 0x20002000;

const LARGER: u64 = 0x20002040;

// Registers that are read and written.
const R2: Register = Register(2);

const R3: Register = Register(3);

// A FileMeta of tag 7, which this format does not have, names the release; then the process and its display
// thread.
fn first(trace: &mut Trace) -> Put {
    let release = NewFileMeta::Unknown { tag: 7 };
    trace.put(NewRecord::FileMeta(release), b"cluster 2.4")?;
    trace.put_meta(NewMeta::ProcessId { processid: 1 }, b"")?;
    trace.put_meta(NewMeta::ThreadId { threadid: 2 }, b"")
}

// An empty display buffer, and room for a message.
fn memory(trace: &mut Trace) -> Put {
    trace.put(NewRecord::Map { base: DISPLAY }, &[0; 256])?;
    trace.count(1000000)?;
    let room = NewMeta::MemoryAllocated {
        address: ROOM,
        size: 16,
    };
    trace.put_meta(room, b"")
}

// The tick timer's interrupt, and the value of the sensor, 722. That is 70 percent, which is written to the display.
fn tick(trace: &mut Trace) -> Put {
    let timer = NewRecord::Interrupt {
        num: 15,
        tick: 1000040,
    };
    trace.put(timer, b"")?;
    trace.put(NewRecord::MemRead { address: SENSOR }, b"\xd2\x02\x00\x00")?;
    trace.put(NewRecord::RegRead { regnum: R2 }, b"\x00\x10\x00\x20")?;
    trace.put(NewRecord::RegWrite { regnum: R3 }, b"\x46\x00\x00\x00")?;
    trace.put(NewRecord::MemWrite { address: DISPLAY }, b"FUEL 70%")
}

// The bus has received a message, and its eight bytes are kept. Then the room for messages is made larger,
// at another place.
fn message(trace: &mut Trace) -> Put {
    let message = b"\x10\x27\x58\x00\x00\x00\x00\x01";
    let received = NewRecord::Interrupt {
        num: 36,
        tick: 1000258,
    };
    trace.put(received, b"")?;
    trace.put(NewRecord::MemRead { address: BUS }, message)?;
    trace.put(NewRecord::MemWrite { address: ROOM }, message)?;
    let moved = NewMeta::MemoryReallocated {
        new_address: LARGER,
        old_address: ROOM,
        size: 64,
    };
    trace.put_meta(moved, b"")
}

// What the bytes that are written next depend on, a place in memory and a register; that they are not known
// for certain; and the bytes.
fn copy(trace: &mut Trace) -> Put {
    trace.put_meta(NewMeta::AddressDependencyEdge { address: ROOM }, b"")?;
    trace.put_meta(NewMeta::RegisterDependencyEdge { register: R3 }, b"")?;
    trace.put_meta(NewMeta::OperandUncertain, b"")?;
    let written = NewRecord::MemWrite { address: LARGER };
    trace.put(written, b"\x10\x27\x58\x00\x00\x00\x00\x01")
}

// The message is copied by a function of which the effects are recorded and not the instructions.
fn copied(trace: &mut Trace) -> Put {
    trace.begin_call(0x400, b"memcpy")?;
    copy(trace)?;
    trace.put_meta(NewMeta::CallModeledOpsEnd, b"")?;
    trace.end_call(0x31c)
}

// Another thread draws the whole display, 256 bytes at once, so that the record is of the longer form. Then the speed.
// The function's name has 32 bytes, as many as there is room for.
fn draw(trace: &mut Trace) -> Put {
    trace.put_meta(NewMeta::ThreadId { threadid: 3 }, b"")?;
    trace.begin_call(0x480, b"Geschwindigkeitsanzeige_zeichnen")?;
    trace.put(NewRecord::MemWrite { address: DISPLAY }, &[b' '; 256])?;
    trace.put(NewRecord::MemWrite { address: SPEED }, b"88 km/h")?;
    trace.end_call(0x322)
}

// What a later recorder may write: a Meta of tag 201, which this format does not have. Then the room for
// messages and the display buffer are given back.
fn last(trace: &mut Trace) -> Put {
    trace.put_meta(NewMeta::Unknown { tag: 201 }, b"\x01\x02\x03")?;
    let freed = NewMeta::MemoryFreed {
        address: LARGER,
        size: 64,
    };
    trace.put_meta(freed, b"")?;
    trace.count(9018000)?;
    let display = NewRecord::Unmap {
        base: DISPLAY,
        length: 256,
    };
    trace.put(display, b"")
}

pub(crate) fn ride(trace: &mut Trace) -> Put {
    begin(trace)?;
    first(trace)?;
    memory(trace)?;
    tick(trace)?;
    message(trace)?;
    copied(trace)?;
    draw(trace)?;
    curve(trace)?;
    last(trace)
}
