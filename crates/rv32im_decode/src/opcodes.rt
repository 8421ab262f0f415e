//! The opcodes, by the names of the base opcode map (RISC-V Unprivileged ISA, "RV32/64G Instruction Set Listings").

/// The opcode of LUI.
pub const LUI: u32 = 0b0110111;
/// The opcode of AUIPC.
pub const AUIPC: u32 = 0b0010111;
/// The opcode of JAL.
pub const JAL: u32 = 0b1101111;
/// The opcode of JALR.
pub const JALR: u32 = 0b1100111;
/// The opcode of the conditional branches.
pub const BRANCH: u32 = 0b1100011;
/// The opcode of the loads.
pub const LOAD: u32 = 0b0000011;
/// The opcode of the stores.
pub const STORE: u32 = 0b0100011;
/// The opcode of the register-immediate operations.
pub const OP_IMM: u32 = 0b0010011;
/// The opcode of the register-register operations.
pub const OP: u32 = 0b0110011;
/// The opcode of FENCE.
pub const MISC_MEM: u32 = 0b0001111;
