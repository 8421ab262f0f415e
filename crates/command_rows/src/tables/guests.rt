//! The code of guests, each at 0x10000.

/// Reads a secret byte and writes its lowest bit.
pub const LOW: [u32; 14] = [
    0x0030_0513,
    0x0001_15b7,
    0x0010_0613,
    0x03f0_0893,
    0x0000_0073,
    0x0005_c283,
    0x0012_f293,
    0x0055_8023,
    0x0010_0513,
    0x0400_0893,
    0x0000_0073,
    0x0000_0513,
    0x05d0_0893,
    0x0000_0073,
];

/// Reads a secret byte and writes it.
pub const ECHO: [u32; 11] = [
    0x0030_0513,
    0x0001_15b7,
    0x0010_0613,
    0x03f0_0893,
    0x0000_0073,
    0x0010_0513,
    0x0400_0893,
    0x0000_0073,
    0x0000_0513,
    0x05d0_0893,
    0x0000_0073,
];

/// Reads a public byte and writes it.
pub const TYPED: [u32; 11] = [
    0x0000_0513,
    0x0001_15b7,
    0x0010_0613,
    0x03f0_0893,
    0x0000_0073,
    0x0010_0513,
    0x0400_0893,
    0x0000_0073,
    0x0000_0513,
    0x05d0_0893,
    0x0000_0073,
];

/// Exits with status 0.
pub const EXIT: [u32; 3] = [0x0000_0513, 0x05d0_0893, 0x0000_0073];

/// Loads the byte at address 0.
pub const OUTSIDE: [u32; 1] = [0x0000_4283];

/// Reads a secret byte and writes Y, or N where it is 0.
pub const BRANCH: [u32; 16] = [
    0x0030_0513, // 0x10000 addi a0,x0,3
    0x0001_15b7, // 0x10004 lui a1,0x11
    0x0010_0613, // 0x10008 addi a2,x0,1
    0x03f0_0893, // 0x1000c addi a7,x0,63
    0x0000_0073, // 0x10010 ecall
    0x0005_c283, // 0x10014 lbu t0,0(a1)
    0x0590_0313, // 0x10018 addi t1,x0,89
    0x0002_9463, // 0x1001c bne t0,x0,0x10024
    0x04e0_0313, // 0x10020 addi t1,x0,78
    0x0065_8023, // 0x10024 sb t1,0(a1)
    0x0010_0513, // 0x10028 addi a0,x0,1
    0x0400_0893, // 0x1002c addi a7,x0,64
    0x0000_0073, // 0x10030 ecall
    0x0000_0513, // 0x10034 addi a0,x0,0
    0x05d0_0893, // 0x10038 addi a7,x0,93
    0x0000_0073, // 0x1003c ecall
];

/// Reads a secret byte, counts its bits, and writes the count modulo 4.
pub const COUNT: [u32; 21] = [
    0x0030_0513, // 0x10000 addi a0,x0,3
    0x0001_15b7, // 0x10004 lui a1,0x11
    0x0010_0613, // 0x10008 addi a2,x0,1
    0x03f0_0893, // 0x1000c addi a7,x0,63
    0x0000_0073, // 0x10010 ecall
    0x0005_c283, // 0x10014 lbu t0,0(a1)
    0x0000_0313, // 0x10018 addi t1,x0,0
    0x0002_8c63, // 0x1001c beq t0,x0,0x10034
    0x0012_f393, // 0x10020 andi t2,t0,1
    0x0003_8463, // 0x10024 beq t2,x0,0x1002c
    0x0013_0313, // 0x10028 addi t1,t1,1
    0x0012_d293, // 0x1002c srli t0,t0,1
    0xfedf_f06f, // 0x10030 jal x0,0x1001c
    0x0033_7313, // 0x10034 andi t1,t1,3
    0x0065_8023, // 0x10038 sb t1,0(a1)
    0x0010_0513, // 0x1003c addi a0,x0,1
    0x0400_0893, // 0x10040 addi a7,x0,64
    0x0000_0073, // 0x10044 ecall
    0x0000_0513, // 0x10048 addi a0,x0,0
    0x05d0_0893, // 0x1004c addi a7,x0,93
    0x0000_0073, // 0x10050 ecall
];

/// Compares the lowest three bits of the secret with 8, which none of their values reaches.
pub const SMALL: [u32; 15] = [
    0x0030_0513,
    0x0001_15b7,
    0x0010_0613,
    0x03f0_0893,
    0x0000_0073,
    0x0005_c283,
    0x0072_f293,
    0x0082_b293,
    0x0055_8023,
    0x0010_0513,
    0x0400_0893,
    0x0000_0073,
    0x0000_0513,
    0x05d0_0893,
    0x0000_0073,
];

/// Adds 2 to the lowest bit of the secret, and shifts that bit away.
pub const SHIFTED: [u32; 16] = [
    0x0030_0513,
    0x0001_15b7,
    0x0010_0613,
    0x03f0_0893,
    0x0000_0073,
    0x0005_c283,
    0x0012_f293,
    0x0022_8293,
    0x0012_d293,
    0x0055_8023,
    0x0010_0513,
    0x0400_0893,
    0x0000_0073,
    0x0000_0513,
    0x05d0_0893,
    0x0000_0073,
];

/// Keeps of four bytes by turns the lowest bit and the lowest two bits.
pub const BY_TURNS: [u32; 20] = [
    0x0030_0513,
    0x0001_15b7,
    0x0040_0613,
    0x03f0_0893,
    0x0000_0073,
    0x00a5_83b3,
    0x0010_0313,
    0x0005_c283,
    0x0062_f2b3,
    0x0055_8023,
    0x0023_4313,
    0x0015_8593,
    0xfe75_96e3,
    0x0001_15b7,
    0x0010_0513,
    0x0400_0893,
    0x0000_0073,
    0x0000_0513,
    0x05d0_0893,
    0x0000_0073,
];
