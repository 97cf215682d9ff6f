// Where each part of a slot begins: places, registers, memory, buffers.
pub const REGISTERS_AT: usize = rules::THREADS;

pub const MEMORY_AT: usize = REGISTERS_AT + rules::REGISTERS_SIZE;

pub const BUFFERS_AT: usize = MEMORY_AT + rules::MEMORY_SIZE;
