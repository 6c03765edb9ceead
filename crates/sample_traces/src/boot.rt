// The first instructions after power is on: the display is switched on, and the fuel and coolant gauges get
// their first segments. Code is at 100 (hexadecimal) and beyond.
use crate::begin::begin;
use crate::trace::{Put, Trace};
use records::new_record::NewRecord;
use records::record::NativeRegister;

// The registers that are written, by their native numbers.
const R0: NativeRegister = NativeRegister(0);

const R1: NativeRegister = NativeRegister(1);

const R2: NativeRegister = NativeRegister(2);

const LR: NativeRegister = NativeRegister(14);

// The display buffer: byte 0 switches the display on, bytes 1 and 2 are the gauges.
const DISPLAY: u64 = 0x20001000;

const FUEL: u64 = 0x20001001;

const COOLANT: u64 = 0x20001002;

// What holds before the first instruction: the vector table (stack, reset, two faults) and the first line
// of the display buffer, empty.
fn memory(trace: &mut Trace) -> Put {
    let vectors = b"\x00\x20\x00\x20\x01\x01\x00\x00\x11\x01\x00\x00\x11\x01\x00\x00";
    trace.put(NewRecord::Map { base: 0 }, vectors)?;
    trace.put(NewRecord::Map { base: DISPLAY }, &[0; 16])?;
    trace.count(0)?;
    trace.put(NewRecord::Pc { pc: 0x100 }, b"")
}

// r0 gets the address of the display buffer, which is read from memory, and r1 a 1.
fn load(trace: &mut Trace) -> Put {
    trace.instruction(0x100, b"\x05\x48")?;
    trace.put(NewRecord::MemRead { address: 0x118 }, b"\x00\x10\x00\x20")?;
    trace.set_register(R0, 0x20001000)?;
    trace.instruction(0x102, b"\x01\x21")?;
    trace.set_register(R1, 1)
}

// What there is of a call: the instruction; lr, which gets the address after it; and the function's address
// and name.
fn call(trace: &mut Trace, pc: u64, code: &[u8], lr: u32, address: u64, name: &[u8]) -> Put {
    trace.instruction(pc, code)?;
    trace.set_register(LR, lr)?;
    trace.begin_call(address, name)
}

// The instruction at pc writes a byte of the display buffer.
fn store(trace: &mut Trace, pc: u64, code: &[u8], address: u64, byte: u8) -> Put {
    trace.instruction(pc, code)?;
    trace.put(NewRecord::MemWrite { address }, &[byte])
}

// What there is of a function's end: the instruction at pc, and where the call was.
fn returned(trace: &mut Trace, pc: u64, call_instruction_addr: u64) -> Put {
    trace.instruction(pc, b"\x70\x47")?;
    trace.end_call(call_instruction_addr)
}

// Byte 0 of the display buffer is set.
fn lcd_init(trace: &mut Trace) -> Put {
    call(trace, 0x104, b"\x00\xf0\x7c\xf8", 0x109, 0x200, b"lcd_init")?;
    store(trace, 0x200, b"\x01\x70", DISPLAY, 1)?;
    returned(trace, 0x202, 0x104)
}

// Byte 1 gets ten segments of fuel, by way of r2.
fn fuel(trace: &mut Trace) -> Put {
    call(
        trace,
        0x108,
        b"\x00\xf0\x9a\xf8",
        0x10d,
        0x240,
        b"Tankanzeige",
    )?;
    trace.instruction(0x240, b"\x0a\x22")?;
    trace.set_register(R2, 10)?;
    store(trace, 0x242, b"\x42\x70", FUEL, 10)?;
    returned(trace, 0x244, 0x108)
}

// Byte 2 gets the coolant's segment. The function's name has a letter of two bytes.
fn coolant(trace: &mut Trace) -> Put {
    call(
        trace,
        0x10c,
        b"\x00\xf0\xb8\xf8",
        0x111,
        0x280,
        b"K\xc3\xbchlmittel",
    )?;
    store(trace, 0x280, b"\x81\x70", COOLANT, 1)?;
    returned(trace, 0x282, 0x10c)
}

// The endless loop that waits for interrupts.
fn wait(trace: &mut Trace) -> Put {
    trace.instruction(0x110, b"\xfe\xe7")?;
    trace.count(13)
}

pub(crate) fn boot(trace: &mut Trace) -> Put {
    begin(trace)?;
    memory(trace)?;
    load(trace)?;
    lcd_init(trace)?;
    fuel(trace)?;
    coolant(trace)?;
    wait(trace)
}
