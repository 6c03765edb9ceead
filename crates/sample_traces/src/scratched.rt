// A trace from a scratched disk. The device saved a record of an older trace in its memory, so a memory write
// holds the bytes of another; and the trailer of the outer one is damaged, so that it leads to the inner one.
use crate::trace::{Put, Trace};
use records::new_record::NewRecord;

// Where the device saves it.
const SAVED: u64 = 0x20003000;

// Between two counts of instructions, the saved record, a MemWrite of 'FUEL' at 20001000 (hexadecimal), is
// written to memory.
fn saving(trace: &mut Trace) -> Put {
    trace.count(2000000)?;
    let record = b"\x85\x0d\x00\x10\x00\x20\x00\x00\x00\x00FUEL\x0e";
    trace.put(NewRecord::MemWrite { address: SAVED }, record)?;
    trace.count(2000007)
}

// The trailer at 45 is 0f for 19: it leads to 30, where the saved record starts, and not to 20.
pub(crate) fn scratched(trace: &mut Trace) -> Put {
    trace.put(NewRecord::Magic, b"")?;
    saving(trace)?;
    trace.spoil(45, 0x0f);
    Ok(())
}
