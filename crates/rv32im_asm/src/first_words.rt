//! The mnemonics and directives.

ghost use Rattle.std.specs.Prelude.{◌≡◌, map};
ghost use Rattle.std.specs.Map.{lookup};
ghost use Rattle.std.specs.Str.{bytes_eq};
ghost use Rattle.rv32im_asm.specs.FirstWords.{mnemonic_of};

use crate::statements::Mnemonic;
use rv32im_decode::{BranchKind, ImmKind, LoadKind, OpKind, StoreKind};

/// What each first word of a statement stands for.
pub const FIRST_WORDS: [(&str, Mnemonic); 57] = [
    ("add", Mnemonic::Op(OpKind::Add)),
    ("sub", Mnemonic::Op(OpKind::Sub)),
    ("sll", Mnemonic::Op(OpKind::Sll)),
    ("slt", Mnemonic::Op(OpKind::Slt)),
    ("sltu", Mnemonic::Op(OpKind::Sltu)),
    ("xor", Mnemonic::Op(OpKind::Xor)),
    ("srl", Mnemonic::Op(OpKind::Srl)),
    ("sra", Mnemonic::Op(OpKind::Sra)),
    ("or", Mnemonic::Op(OpKind::Or)),
    ("and", Mnemonic::Op(OpKind::And)),
    ("mul", Mnemonic::Op(OpKind::Mul)),
    ("mulh", Mnemonic::Op(OpKind::Mulh)),
    ("mulhsu", Mnemonic::Op(OpKind::Mulhsu)),
    ("mulhu", Mnemonic::Op(OpKind::Mulhu)),
    ("div", Mnemonic::Op(OpKind::Div)),
    ("divu", Mnemonic::Op(OpKind::Divu)),
    ("rem", Mnemonic::Op(OpKind::Rem)),
    ("remu", Mnemonic::Op(OpKind::Remu)),
    ("addi", Mnemonic::Immediate(ImmKind::Addi)),
    ("slti", Mnemonic::Immediate(ImmKind::Slti)),
    ("sltiu", Mnemonic::Immediate(ImmKind::Sltiu)),
    ("xori", Mnemonic::Immediate(ImmKind::Xori)),
    ("ori", Mnemonic::Immediate(ImmKind::Ori)),
    ("andi", Mnemonic::Immediate(ImmKind::Andi)),
    ("slli", Mnemonic::Immediate(ImmKind::Slli)),
    ("srli", Mnemonic::Immediate(ImmKind::Srli)),
    ("srai", Mnemonic::Immediate(ImmKind::Srai)),
    ("lb", Mnemonic::Load(LoadKind::Lb)),
    ("lh", Mnemonic::Load(LoadKind::Lh)),
    ("lw", Mnemonic::Load(LoadKind::Lw)),
    ("lbu", Mnemonic::Load(LoadKind::Lbu)),
    ("lhu", Mnemonic::Load(LoadKind::Lhu)),
    ("sb", Mnemonic::Store(StoreKind::Sb)),
    ("sh", Mnemonic::Store(StoreKind::Sh)),
    ("sw", Mnemonic::Store(StoreKind::Sw)),
    ("beq", Mnemonic::Branch(BranchKind::Beq)),
    ("bne", Mnemonic::Branch(BranchKind::Bne)),
    ("blt", Mnemonic::Branch(BranchKind::Blt)),
    ("bge", Mnemonic::Branch(BranchKind::Bge)),
    ("bltu", Mnemonic::Branch(BranchKind::Bltu)),
    ("bgeu", Mnemonic::Branch(BranchKind::Bgeu)),
    ("lui", Mnemonic::Lui),
    ("auipc", Mnemonic::Auipc),
    ("jal", Mnemonic::Jal),
    ("jalr", Mnemonic::Jalr),
    ("fence", Mnemonic::Fence),
    ("ecall", Mnemonic::Ecall),
    ("ebreak", Mnemonic::Ebreak),
    ("nop", Mnemonic::Nop),
    ("ret", Mnemonic::Ret),
    ("mv", Mnemonic::Mv),
    ("j", Mnemonic::J),
    ("li", Mnemonic::Li),
    ("la", Mnemonic::La),
    (".word", Mnemonic::Word),
    (".byte", Mnemonic::Byte),
    (".zero", Mnemonic::Zero),
];

/// What a name stands for in a table.
fn find(table: &[(&str, Mnemonic)], word: &[u8]) -> Option<Mnemonic>
    ensures { result ≡ lookup (λ name. bytes_eq name word.now) (map (λ row. (row.0.now, row.1)) table.now) }
{
    table
        .iter()
        .find(|row| row.0.as_bytes() == word)
        .map(|row| row.1)
}

/// The mnemonic or directive of a word.
pub fn mnemonic(word: &[u8]) -> Option<Mnemonic>
    ensures { result ≡ mnemonic_of word.now }
{
    find(&FIRST_WORDS, word)
}
