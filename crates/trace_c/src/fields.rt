// What was read, as the numbers that include/trace.h has for it.
ghost use Rattle.std.specs.Prelude.{◌≡◌};
ghost use Rattle.trace_c.specs.Fields.{fields, none, file_meta_fields, meta_fields, fields_of, shown, flat_answer, flat_parsed};

use crate::types::{
    ADDRESS_DEPENDENCY_EDGE, ARCH, CALL_BEGIN, CALL_END, CALL_MODELED_OPS_END, INSTRUCTION,
    INSTRUCTION_COUNT, INTERRUPT, MAGIC, MAP, MEM_READ, MEM_WRITE, MEMORY_ALLOCATED, MEMORY_FREED,
    MEMORY_REALLOCATED, OPERAND_UNCERTAIN, PC, PROCESS_ID, REG_READ, REG_WRITE, REG_WRITE_NATIVE,
    REGISTER_DEPENDENCY_EDGE, REGISTER_NAME_MAP, THREAD_ID, UNKNOWN_FILE_META, UNKNOWN_META, UNMAP,
};
use frames::read::Part;
use frames::refusal::Refusal;
use records::position::Answer;
use records::record::{FileMeta, Meta, Record};

// A record: its type's number, its numbers, and where its bytes lie. Nothing compares or prints it.
#[derive(Clone, Copy)]
pub struct Fields {
    pub type_number: u64,
    pub a: u64,
    pub b: u64,
    pub c: u64,
    pub part: Part,
}

// A record with bytes has one number at most.
fn with_bytes(type_number: u64, a: u64, part: Part) -> Fields
    ensures { result ≡ fields type_number a 0 0 part }
{
    Fields {
        type_number,
        a,
        b: 0,
        c: 0,
        part,
    }
}

// A record of numbers alone: four arguments, which are four fields of what it makes.
pub(crate) fn numbers(type_number: u64, a: u64, b: u64, c: u64) -> Fields
    ensures { result ≡ fields type_number a b c none }
{
    Fields {
        type_number,
        a,
        b,
        c,
        part: Part { start: 0, end: 0 },
    }
}

#[tactic(auto, unfolding(crate::specs::Fields::file_meta_fields))]
fn of_file_meta(file_meta: FileMeta) -> Fields
    ensures { result ≡ file_meta_fields file_meta }
{
    match file_meta {
        FileMeta::RegisterNameMap {
            num_records,
            records,
        } => with_bytes(REGISTER_NAME_MAP, num_records as u64, records),
        FileMeta::Unknown { tag, contents } => with_bytes(UNKNOWN_FILE_META, tag as u64, contents),
    }
}

#[tactic(auto, unfolding(crate::specs::Fields::meta_fields))]
fn of_meta(meta: Meta) -> Fields
    ensures { result ≡ meta_fields meta }
{
    match meta {
        Meta::InstructionCount { tick } => numbers(INSTRUCTION_COUNT, tick, 0, 0),
        Meta::ThreadId { threadid } => numbers(THREAD_ID, threadid as u64, 0, 0),
        Meta::ProcessId { processid } => numbers(PROCESS_ID, processid, 0, 0),
        Meta::CallBegin {
            function_name,
            address,
        } => with_bytes(CALL_BEGIN, address, function_name),
        Meta::CallModeledOpsEnd => numbers(CALL_MODELED_OPS_END, 0, 0, 0),
        Meta::CallEnd {
            call_instruction_addr,
        } => numbers(CALL_END, call_instruction_addr, 0, 0),
        Meta::OperandUncertain => numbers(OPERAND_UNCERTAIN, 0, 0, 0),
        Meta::AddressDependencyEdge { address } => numbers(ADDRESS_DEPENDENCY_EDGE, address, 0, 0),
        Meta::RegisterDependencyEdge { register } => numbers(
            REGISTER_DEPENDENCY_EDGE,
            register.0 as u64,
            0,
            0,
        ),
        Meta::MemoryAllocated { address, size } => numbers(
            MEMORY_ALLOCATED,
            address,
            size as u64,
            0,
        ),
        Meta::MemoryFreed { address, size } => numbers(MEMORY_FREED, address, size as u64, 0),
        Meta::MemoryReallocated {
            new_address,
            old_address,
            size,
        } => numbers(MEMORY_REALLOCATED, new_address, old_address, size as u64),
        Meta::Unknown { tag, contents } => with_bytes(UNKNOWN_META, tag as u64, contents),
    }
}

#[tactic(auto, unfolding(crate::specs::Fields::fields_of))]
fn of_record(record: Record) -> Fields
    ensures { result ≡ fields_of «record» }
{
    match record {
        Record::Magic => numbers(MAGIC, 0, 0, 0),
        Record::Arch { contents } => with_bytes(ARCH, 0, contents),
        Record::FileMeta(file_meta) => of_file_meta(file_meta),
        Record::Map { base, contents } => with_bytes(MAP, base, contents),
        Record::Unmap { base, length } => numbers(UNMAP, base, length, 0),
        Record::Instruction { pc, insbytes } => with_bytes(INSTRUCTION, pc, insbytes),
        Record::Pc { pc } => numbers(PC, pc, 0, 0),
        Record::Meta(meta) => of_meta(meta),
        Record::Interrupt { num, tick } => numbers(INTERRUPT, num as u64, tick, 0),
        Record::RegRead { regnum, contents } => with_bytes(REG_READ, regnum.0 as u64, contents),
        Record::RegWrite { regnum, contents } => with_bytes(REG_WRITE, regnum.0 as u64, contents),
        Record::RegWriteNative { regnum, contents } => with_bytes(
            REG_WRITE_NATIVE,
            regnum.0 as u64,
            contents,
        ),
        Record::MemRead { address, contents } => with_bytes(MEM_READ, address, contents),
        Record::MemWrite { address, contents } => with_bytes(MEM_WRITE, address, contents),
    }
}

// A shown record that lies in `part`, as the numbers of struct aglimtaq_reading, in order.
#[tactic(auto, unfolding(crate::specs::Fields::numbers_of))]
pub(crate) fn shown(part: Part, fields: Fields) -> [u64; 10]
    ensures { result ≡ shown part fields }
{
    let own = fields.part;
    [
        0,
        0,
        part.start as u64,
        part.end as u64,
        fields.type_number,
        fields.a,
        fields.b,
        fields.c,
        own.start as u64,
        own.end as u64,
    ]
}

// The numbers of struct aglimtaq_reading, in order.
#[tactic(auto, unfolding(crate::specs::Fields::flat_answer))]
pub fn of_answer(answer: Answer) -> [u64; 10]
    ensures { result ≡ flat_answer answer }
{
    match answer {
        Answer::Shown(record, part) => shown(part, of_record(record)),
        Answer::RefusedAt(refusal, part) => [
            1,
            refusal.number() as u64,
            part.start as u64,
            part.end as u64,
            0,
            0,
            0,
            0,
            0,
            0,
        ],
        Answer::Refused(refusal) => [2, refusal.number() as u64, 0, 0, 0, 0, 0, 0, 0, 0],
        Answer::Finished => [3, 0, 0, 0, 0, 0, 0, 0, 0, 0],
        Answer::Unfinished(wanted) => [4, wanted as u64, 0, 0, 0, 0, 0, 0, 0, 0],
    }
}

#[tactic(auto, unfolding(crate::specs::Fields::flat_parsed))]
pub(crate) fn of_parsed(parsed: Result<Record, Refusal>) -> [u64; 10]
    ensures { result ≡ flat_parsed parsed }
{
    match parsed {
        Ok(record) => shown(Part { start: 0, end: 0 }, of_record(record)),
        Err(refusal) => [2, refusal.number() as u64, 0, 0, 0, 0, 0, 0, 0, 0],
    }
}
