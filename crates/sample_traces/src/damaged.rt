// The ride once more, with errors that were made in the store: six bytes are others, and the end is lost.
// Every length is as it was, so each error costs one record. Offsets are the ride's.
use crate::ride::ride;
use crate::trace::{Put, Trace};

// Magic with 64 for 65: refused with 3. ThreadId with tag 00 for 01, which wants more content: 4. MemRead
// with first byte 89 for 81, of an unknown kind: 7. 'memcpy' with ff for 'm', which is not text: 5.
// OperandUncertain with trailer 00 for 03, which would be five bytes: 2. The reserve lamp with 2 for 1: the plain
// reader shows it, the house reader refuses it with 15.
fn spoil_all(trace: &mut Trace) {
    trace.spoil(2, 0x64);
    trace.spoil(125, 0x00);
    trace.spoil(448, 0x89);
    trace.spoil(586, 0xff);
    trace.spoil(648, 0x00);
    trace.spoil(1420, 0x02);
}

// Of the last record, which has 19 bytes, eight are left.
pub(crate) fn damaged(trace: &mut Trace) -> Put {
    ride(trace)?;
    spoil_all(trace);
    trace.cut(11);
    Ok(())
}
