// How a trace of the cluster begins: Magic, and the names of its core's registers by their native numbers, r0 to
// r12, sp, lr and pc.
use crate::trace::{Put, Trace};
use records::new_record::{NewFileMeta, NewRecord};

pub(crate) fn begin(trace: &mut Trace) -> Put {
    trace.put(NewRecord::Magic, b"")?;
    let names = NewFileMeta::RegisterNameMap { num_records: 16 };
    trace.put(
        NewRecord::FileMeta(names),
        b"\x00\x00\x02r0\x01\x00\x02r1\x02\x00\x02r2\x03\x00\x02r3\x04\x00\x02r4\
          \x05\x00\x02r5\x06\x00\x02r6\x07\x00\x02r7\x08\x00\x02r8\x09\x00\x02r9\
          \x0a\x00\x03r10\x0b\x00\x03r11\x0c\x00\x03r12\x0d\x00\x02sp\x0e\x00\x02lr\x0f\x00\x02pc",
    )
}
