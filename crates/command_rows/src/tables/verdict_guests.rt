//! The code of guests of verdicts, each at 0x10000.

/// Reads a secret byte and loads the byte at 65,536 times it.
pub const LOAD: [u32; 8] = [
    0x0030_0513, // 0x10000 addi a0,x0,3
    0x0001_15b7, // 0x10004 lui a1,0x11
    0x0010_0613, // 0x10008 addi a2,x0,1
    0x03f0_0893, // 0x1000c addi a7,x0,63
    0x0000_0073, // 0x10010 ecall
    0x0005_c283, // 0x10014 lbu t0,0(a1)
    0x0102_9293, // 0x10018 slli t0,t0,16
    0x0002_c303, // 0x1001c lbu t1,0(t0)
];

/// Reads three secret bytes and jumps to them.
pub const JUMP: [u32; 6] = [
    0x0030_0513, // 0x10000 addi a0,x0,3
    0x0001_15b7, // 0x10004 lui a1,0x11
    0x0030_0613, // 0x10008 addi a2,x0,3
    0x03f0_0893, // 0x1000c addi a7,x0,63
    0x0000_0073, // 0x10010 ecall
    0x0005_8067, // 0x10014 jalr x0,0(a1)
];

/// Reads a secret byte and writes as many bytes as it says, with its lowest bit turned.
pub const TURNED_WRITE: [u32; 10] = [
    0x0030_0513, // 0x10000 addi a0,x0,3
    0x0001_15b7, // 0x10004 lui a1,0x11
    0x0010_0613, // 0x10008 addi a2,x0,1
    0x03f0_0893, // 0x1000c addi a7,x0,63
    0x0000_0073, // 0x10010 ecall
    0x0005_c283, // 0x10014 lbu t0,0(a1)
    0x0012_c613, // 0x10018 xori a2,t0,1
    0x0010_0513, // 0x1001c addi a0,x0,1
    0x0400_0893, // 0x10020 addi a7,x0,64
    0x0000_0073, // 0x10024 ecall
];

/// Reads a secret byte, and as many again as it says.
pub const READ_AGAIN: [u32; 9] = [
    0x0030_0513, // 0x10000 addi a0,x0,3
    0x0001_15b7, // 0x10004 lui a1,0x11
    0x0010_0613, // 0x10008 addi a2,x0,1
    0x03f0_0893, // 0x1000c addi a7,x0,63
    0x0000_0073, // 0x10010 ecall
    0x0005_c603, // 0x10014 lbu a2,0(a1)
    0x0030_0513, // 0x10018 addi a0,x0,3
    0x0000_0073, // 0x1001c ecall
    0x0000_006f, // 0x10020 jal x0,0x10020
];

/// Reads a secret byte and jumps over an instruction where it is 0.
pub const OVER: [u32; 8] = [
    0x0030_0513, // 0x10000 addi a0,x0,3
    0x0001_15b7, // 0x10004 lui a1,0x11
    0x0010_0613, // 0x10008 addi a2,x0,1
    0x03f0_0893, // 0x1000c addi a7,x0,63
    0x0000_0073, // 0x10010 ecall
    0x0005_c283, // 0x10014 lbu t0,0(a1)
    0x0002_8463, // 0x10018 beq t0,x0,0x10020
    0x0000_0013, // 0x1001c addi x0,x0,0
];

/// Reads a secret byte and makes the call whose number it is.
pub const CALL: [u32; 7] = [
    0x0030_0513, // 0x10000 addi a0,x0,3
    0x0001_15b7, // 0x10004 lui a1,0x11
    0x0010_0613, // 0x10008 addi a2,x0,1
    0x03f0_0893, // 0x1000c addi a7,x0,63
    0x0000_0073, // 0x10010 ecall
    0x0005_c883, // 0x10014 lbu a7,0(a1)
    0x0000_0073, // 0x10018 ecall
];

/// Reads a secret byte, writes the byte 0x13, and exits with the byte that was read as its status.
pub const STATUS: [u32; 13] = [
    0x0030_0513, // 0x10000 addi a0,x0,3
    0x0001_15b7, // 0x10004 lui a1,0x11
    0x0010_0613, // 0x10008 addi a2,x0,1
    0x03f0_0893, // 0x1000c addi a7,x0,63
    0x0000_0073, // 0x10010 ecall
    0x0005_c283, // 0x10014 lbu t0,0(a1)
    0x0001_05b7, // 0x10018 lui a1,0x10
    0x0010_0513, // 0x1001c addi a0,x0,1
    0x0400_0893, // 0x10020 addi a7,x0,64
    0x0000_0073, // 0x10024 ecall
    0x0002_8513, // 0x10028 addi a0,t0,0
    0x05d0_0893, // 0x1002c addi a7,x0,93
    0x0000_0073, // 0x10030 ecall
];

/// Reads three secret bytes by one ECALL, and exits.
pub const THREE: [u32; 8] = [
    0x0030_0513, // 0x10000 addi a0,x0,3
    0x0001_15b7, // 0x10004 lui a1,0x11
    0x0030_0613, // 0x10008 addi a2,x0,3
    0x03f0_0893, // 0x1000c addi a7,x0,63
    0x0000_0073, // 0x10010 ecall
    0x0000_0513, // 0x10014 addi a0,x0,0
    0x05d0_0893, // 0x10018 addi a7,x0,93
    0x0000_0073, // 0x1001c ecall
];

/// Writes as many full stops as the secret has, or as many question marks, whichever are more, modulo 16.
pub const PUNCTUATION: [u32; 38] = [
    0x0030_0513, // 0x10000 addi a0,x0,3
    0x0001_15b7, // 0x10004 lui a1,0x11
    0x0400_0613, // 0x10008 addi a2,x0,64
    0x03f0_0893, // 0x1000c addi a7,x0,63
    0x0000_0073, // 0x10010 ecall
    0x00a5_8f33, // 0x10014 add t5,a1,a0
    0x0000_0913, // 0x10018 addi s2,x0,0
    0x0000_0993, // 0x1001c addi s3,x0,0
    0x0005_8293, // 0x10020 addi t0,a1,0
    0x02e0_0e13, // 0x10024 addi t3,x0,46
    0x03f0_0e93, // 0x10028 addi t4,x0,63
    0x03e2_8063, // 0x1002c beq t0,t5,32
    0x0002_c303, // 0x10030 lbu t1,0(t0)
    0x01c3_1463, // 0x10034 bne t1,t3,8
    0x0019_0913, // 0x10038 addi s2,s2,1
    0x01d3_1463, // 0x1003c bne t1,t4,8
    0x0019_8993, // 0x10040 addi s3,s3,1
    0x0012_8293, // 0x10044 addi t0,t0,1
    0xfe5f_f06f, // 0x10048 jal x0,-28
    0x0139_3a33, // 0x1004c sltu s4,s2,s3
    0x000a_0463, // 0x10050 beq s4,x0,8
    0x0009_8913, // 0x10054 addi s2,s3,0
    0x001a_7a13, // 0x10058 andi s4,s4,1
    0x00f9_7913, // 0x1005c andi s2,s2,15
    0x4140_0a33, // 0x10060 sub s4,x0,s4
    0x011a_7a13, // 0x10064 andi s4,s4,17
    0x02ea_4a13, // 0x10068 xori s4,s4,46
    0x0145_8023, // 0x1006c sb s4,0(a1)
    0x0010_0613, // 0x10070 addi a2,x0,1
    0x0400_0893, // 0x10074 addi a7,x0,64
    0x0009_0a63, // 0x10078 beq s2,x0,20
    0x0010_0513, // 0x1007c addi a0,x0,1
    0x0000_0073, // 0x10080 ecall
    0xfff9_0913, // 0x10084 addi s2,s2,-1
    0xff1f_f06f, // 0x10088 jal x0,-16
    0x0000_0513, // 0x1008c addi a0,x0,0
    0x05d0_0893, // 0x10090 addi a7,x0,93
    0x0000_0073, // 0x10094 ecall
];

/// Reads a secret byte, shifts it by 16, and writes 5.
pub const FAR: [u32; 15] = [
    0x0030_0513, // 0x10000 addi a0,x0,3
    0x0001_15b7, // 0x10004 lui a1,0x11
    0x0010_0613, // 0x10008 addi a2,x0,1
    0x03f0_0893, // 0x1000c addi a7,x0,63
    0x0000_0073, // 0x10010 ecall
    0x0005_c283, // 0x10014 lbu t0,0(a1)
    0x0102_9293, // 0x10018 slli t0,t0,16
    0x0050_0313, // 0x1001c addi t1,x0,5
    0x0065_8023, // 0x10020 sb t1,0(a1)
    0x0010_0513, // 0x10024 addi a0,x0,1
    0x0400_0893, // 0x10028 addi a7,x0,64
    0x0000_0073, // 0x1002c ecall
    0x0000_0513, // 0x10030 addi a0,x0,0
    0x05d0_0893, // 0x10034 addi a7,x0,93
    0x0000_0073, // 0x10038 ecall
];

/// Reads a secret byte, and writes it and the one after it.
pub const NEXT: [u32; 15] = [
    0x0030_0513, // 0x10000 addi a0,x0,3
    0x0001_15b7, // 0x10004 lui a1,0x11
    0x0010_0613, // 0x10008 addi a2,x0,1
    0x03f0_0893, // 0x1000c addi a7,x0,63
    0x0000_0073, // 0x10010 ecall
    0x0005_c283, // 0x10014 lbu t0,0(a1)
    0x0012_8293, // 0x10018 addi t0,t0,1
    0x0055_80a3, // 0x1001c sb t0,1(a1)
    0x0020_0613, // 0x10020 addi a2,x0,2
    0x0010_0513, // 0x10024 addi a0,x0,1
    0x0400_0893, // 0x10028 addi a7,x0,64
    0x0000_0073, // 0x1002c ecall
    0x0000_0513, // 0x10030 addi a0,x0,0
    0x05d0_0893, // 0x10034 addi a7,x0,93
    0x0000_0073, // 0x10038 ecall
];

/// Reads a secret byte and writes its lowest four bits, taken twice.
pub const TWICE: [u32; 17] = [
    0x0030_0513, // 0x10000 addi a0,x0,3
    0x0001_15b7, // 0x10004 lui a1,0x11
    0x0010_0613, // 0x10008 addi a2,x0,1
    0x03f0_0893, // 0x1000c addi a7,x0,63
    0x0000_0073, // 0x10010 ecall
    0x0020_0393, // 0x10014 addi t2,x0,2
    0x0005_c283, // 0x10018 lbu t0,0(a1)
    0x00f2_f293, // 0x1001c andi t0,t0,15
    0x0055_8023, // 0x10020 sb t0,0(a1)
    0xfff3_8393, // 0x10024 addi t2,t2,-1
    0xfe03_98e3, // 0x10028 bne t2,x0,-16
    0x0010_0513, // 0x1002c addi a0,x0,1
    0x0400_0893, // 0x10030 addi a7,x0,64
    0x0000_0073, // 0x10034 ecall
    0x0000_0513, // 0x10038 addi a0,x0,0
    0x05d0_0893, // 0x1003c addi a7,x0,93
    0x0000_0073, // 0x10040 ecall
];

/// Reads a secret byte and writes its lowest two bits, one after the other.
pub const PAIR: [u32; 16] = [
    0x0030_0513, // 0x10000 addi a0,x0,3
    0x0001_15b7, // 0x10004 lui a1,0x11
    0x0010_0613, // 0x10008 addi a2,x0,1
    0x03f0_0893, // 0x1000c addi a7,x0,63
    0x0000_0073, // 0x10010 ecall
    0x0005_c283, // 0x10014 lbu t0,0(a1)
    0x0012_f313, // 0x10018 andi t1,t0,1
    0x0022_f393, // 0x1001c andi t2,t0,2
    0x0073_0333, // 0x10020 add t1,t1,t2
    0x0065_8023, // 0x10024 sb t1,0(a1)
    0x0010_0513, // 0x10028 addi a0,x0,1
    0x0400_0893, // 0x1002c addi a7,x0,64
    0x0000_0073, // 0x10030 ecall
    0x0000_0513, // 0x10034 addi a0,x0,0
    0x05d0_0893, // 0x10038 addi a7,x0,93
    0x0000_0073, // 0x1003c ecall
];

/// Reads a secret byte and stands still at 0x10018.
pub const STUCK: [u32; 7] = [
    0x0030_0513, // 0x10000 addi a0,x0,3
    0x0001_15b7, // 0x10004 lui a1,0x11
    0x0010_0613, // 0x10008 addi a2,x0,1
    0x03f0_0893, // 0x1000c addi a7,x0,63
    0x0000_0073, // 0x10010 ecall
    0x0005_c283, // 0x10014 lbu t0,0(a1)
    0x0000_006f, // 0x10018 jal x0,0
];

/// Reads a secret byte and loads the byte at address 0.
pub const STOPS: [u32; 8] = [
    0x0030_0513, // 0x10000 addi a0,x0,3
    0x0001_15b7, // 0x10004 lui a1,0x11
    0x0010_0613, // 0x10008 addi a2,x0,1
    0x03f0_0893, // 0x1000c addi a7,x0,63
    0x0000_0073, // 0x10010 ecall
    0x0005_c283, // 0x10014 lbu t0,0(a1)
    0x0010_0313, // 0x10018 addi t1,x0,1
    0x0000_4303, // 0x1001c lbu t1,0(x0)
];
