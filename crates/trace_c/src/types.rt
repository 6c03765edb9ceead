// The numbers of the record types for C, each named here once: enum aglimtaq_type of include/trace.h, in the source's
// order. A type that is added later gets the next number. They are numbers and no enum here, since C may hand over any.
pub(crate) const MAGIC: u64 = 1;

pub(crate) const ARCH: u64 = 2;

pub(crate) const REGISTER_NAME_MAP: u64 = 3;

pub(crate) const UNKNOWN_FILE_META: u64 = 4;

pub(crate) const MAP: u64 = 5;

pub(crate) const UNMAP: u64 = 6;

pub(crate) const INSTRUCTION: u64 = 7;

pub(crate) const PC: u64 = 8;

pub(crate) const INSTRUCTION_COUNT: u64 = 9;

pub(crate) const THREAD_ID: u64 = 10;

pub(crate) const PROCESS_ID: u64 = 11;

pub(crate) const CALL_BEGIN: u64 = 12;

pub(crate) const CALL_MODELED_OPS_END: u64 = 13;

pub(crate) const CALL_END: u64 = 14;

pub(crate) const OPERAND_UNCERTAIN: u64 = 15;

pub(crate) const ADDRESS_DEPENDENCY_EDGE: u64 = 16;

pub(crate) const REGISTER_DEPENDENCY_EDGE: u64 = 17;

pub(crate) const MEMORY_ALLOCATED: u64 = 18;

pub(crate) const MEMORY_FREED: u64 = 19;

pub(crate) const MEMORY_REALLOCATED: u64 = 20;

pub(crate) const UNKNOWN_META: u64 = 21;

pub(crate) const INTERRUPT: u64 = 22;

pub(crate) const REG_READ: u64 = 23;

pub(crate) const REG_WRITE: u64 = 24;

pub(crate) const REG_WRITE_NATIVE: u64 = 25;

pub(crate) const MEM_READ: u64 = 26;

pub(crate) const MEM_WRITE: u64 = 27;

// The house readings, which the house functions alone show and take.
pub(crate) const FUEL: u64 = 28;

pub(crate) const DISTANCE_LEFT: u64 = 29;

pub(crate) const RESERVE_LAMP: u64 = 30;
