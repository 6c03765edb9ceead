// A record to be written, from the numbers that C hands over for it: struct aglimtaq_record of include/trace.h. They
// are four arguments, t, a, b and c, as in the clauses: `new_of` and `fitting` of specs/Given.antt.
ghost use Rattle.std.specs.Prelude.{◌≡◌, cond, None};
ghost use Rattle.trace_c.specs.Given.{fitting, built_meta, new_of};

use crate::types::{
    ADDRESS_DEPENDENCY_EDGE, CALL_BEGIN, CALL_END, CALL_MODELED_OPS_END, INSTRUCTION,
    INSTRUCTION_COUNT, INTERRUPT, MAGIC, MAP, MEM_READ, MEM_WRITE, MEMORY_ALLOCATED, MEMORY_FREED,
    MEMORY_REALLOCATED, OPERAND_UNCERTAIN, PC, PROCESS_ID, REG_READ, REG_WRITE, REG_WRITE_NATIVE,
    REGISTER_DEPENDENCY_EDGE, REGISTER_NAME_MAP, THREAD_ID, UNKNOWN_FILE_META, UNKNOWN_META, UNMAP,
};
use records::new_record::{NewFileMeta, NewMeta, NewRecord};
use records::record::{NativeRegister, Register};

// The Meta that numbers make, or none where they make none or one does not fit.
#[tactic(auto, unfolding(crate::specs::Given::fitting, crate::specs::Given::built_meta))]
fn build_meta(t: u64, a: u64, b: u64, c: u64) -> Option<NewRecord>
    ensures { result ≡ cond (fitting t a b c) (built_meta t a b c) None }
{
    match t {
        INSTRUCTION_COUNT => Some(NewRecord::Meta(NewMeta::InstructionCount { tick: a })),
        THREAD_ID => Some(NewRecord::Meta(NewMeta::ThreadId {
            threadid: u32::try_from(a).ok()?,
        })),
        PROCESS_ID => Some(NewRecord::Meta(NewMeta::ProcessId { processid: a })),
        CALL_BEGIN => Some(NewRecord::Meta(NewMeta::CallBegin { address: a })),
        CALL_MODELED_OPS_END => Some(NewRecord::Meta(NewMeta::CallModeledOpsEnd)),
        CALL_END => Some(NewRecord::Meta(NewMeta::CallEnd {
            call_instruction_addr: a,
        })),
        OPERAND_UNCERTAIN => Some(NewRecord::Meta(NewMeta::OperandUncertain)),
        ADDRESS_DEPENDENCY_EDGE => Some(NewRecord::Meta(NewMeta::AddressDependencyEdge {
            address: a,
        })),
        REGISTER_DEPENDENCY_EDGE => Some(NewRecord::Meta(NewMeta::RegisterDependencyEdge {
            register: Register(u32::try_from(a).ok()?),
        })),
        MEMORY_ALLOCATED => Some(NewRecord::Meta(NewMeta::MemoryAllocated {
            address: a,
            size: u32::try_from(b).ok()?,
        })),
        MEMORY_FREED => Some(NewRecord::Meta(NewMeta::MemoryFreed {
            address: a,
            size: u32::try_from(b).ok()?,
        })),
        MEMORY_REALLOCATED => Some(NewRecord::Meta(NewMeta::MemoryReallocated {
            new_address: a,
            old_address: b,
            size: u32::try_from(c).ok()?,
        })),
        UNKNOWN_META => Some(NewRecord::Meta(NewMeta::Unknown {
            tag: u8::try_from(a).ok()?,
        })),
        _ => None,
    }
}

// The record, or none where its type is not written or a number does not fit. No `TryFrom`: `NewRecord` is of the crate
// records, which knows nothing of C's numbers, and no other crate may implement it.
#[tactic(auto, unfolding(crate::specs::Given::fitting, crate::specs::Given::built, crate::specs::Given::new_of))]
pub fn new_of(t: u64, a: u64, b: u64, c: u64) -> Option<NewRecord>
    ensures { result ≡ new_of t a b c }
{
    match t {
        MAGIC => Some(NewRecord::Magic),
        REGISTER_NAME_MAP => Some(NewRecord::FileMeta(NewFileMeta::RegisterNameMap {
            num_records: u8::try_from(a).ok()?,
        })),
        UNKNOWN_FILE_META => Some(NewRecord::FileMeta(NewFileMeta::Unknown {
            tag: u8::try_from(a).ok()?,
        })),
        MAP => Some(NewRecord::Map { base: a }),
        UNMAP => Some(NewRecord::Unmap { base: a, length: b }),
        INSTRUCTION => Some(NewRecord::Instruction { pc: a }),
        PC => Some(NewRecord::Pc { pc: a }),
        INTERRUPT => Some(NewRecord::Interrupt {
            num: u32::try_from(a).ok()?,
            tick: b,
        }),
        REG_READ => Some(NewRecord::RegRead {
            regnum: Register(u32::try_from(a).ok()?),
        }),
        REG_WRITE => Some(NewRecord::RegWrite {
            regnum: Register(u32::try_from(a).ok()?),
        }),
        REG_WRITE_NATIVE => Some(NewRecord::RegWriteNative {
            regnum: NativeRegister(u16::try_from(a).ok()?),
        }),
        MEM_READ => Some(NewRecord::MemRead { address: a }),
        MEM_WRITE => Some(NewRecord::MemWrite { address: a }),
        _ => build_meta(t, a, b, c),
    }
}
