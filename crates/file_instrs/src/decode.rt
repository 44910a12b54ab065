// Instruction records as instructions with their costs.
ghost use Rattle.std.specs.Prelude.{◌≡◌, true, ◌+◌, ◌≤◌, length};
ghost use Rattle.armv4t.specs.declared.Operand2.{Operand2};
ghost use Rattle.armv4t.specs.Shift.{no_shift};
ghost use Rattle.file_records.specs.Bytes.{byte_at};
ghost use Rattle.file_instrs.specs.Decode.{shift_at, operand_at, mem_offset_at, width_of, alu_at};
ghost use Rattle.file_instrs.specs.Decode.{mul_at, mul_long_at, mem_at, block_mem_at, op_at};
ghost use Rattle.file_instrs.specs.Decode.{timed_at};

use crate::kind::Kind;
use crate::record::Record;
use armv4t::{AluOp, Cond, Instr, MemOffset, MemWidth, Op, Operand2, Shift, ShiftKind};

// An instruction with its cost in cycles.
#[derive(Clone, Copy)]
pub struct TimedInstr {
    pub instr: Instr,
    pub cost: u16,
}

// A value as an operand, already rotated by so much.
fn value(value: u32, ror: u8) -> Operand2
    ensures { result ≡ Operand2.Imm value ror }
{
    if ror == 0 {
        Operand2::imm(value)
    } else {
        Operand2::Imm { value, ror }
    }
}

// The width that a number encodes; the check refuses numbers from 3 on.
fn width(n: u8) -> MemWidth
    ensures { result ≡ width_of n }
{
    match n {
        0 => MemWidth::Byte,
        1 => MemWidth::Half,
        _ => MemWidth::Word,
    }
}

// What the fields of a record say by its kind.
impl Record<'_> {
    // The shift of a register operand: by an amount in form 1, by a register in form 2.
    fn shift(self) -> Shift
        ensures { result ≡ shift_at self.entry.file.now self.entry.at }
    {
        let kind = ShiftKind::from_bits(self.byte(10));
        let by = self.byte(11);
        if self.byte(8) == 1 {
            Shift::Imm { kind, amount: by }
        } else {
            Shift::Reg { kind, rs: by }
        }
    }

    // Whether a register operand is not shifted: by an amount, to the left, by 0.
    fn unshifted(self) -> bool
        ensures { result ≡ true → shift_at self.entry.file.now self.entry.at ≡ no_shift }
    {
        if self.byte(8) != 1 {
            return false;
        }
        if self.byte(10) % 4 != 0 {
            return false;
        }
        self.byte(11) == 0
    }

    // A register operand, shifted or not.
    fn register(self) -> Operand2
        ensures { result ≡ Operand2.Reg (byte_at self.entry.file.now (self.entry.at + 9))
            (shift_at self.entry.file.now self.entry.at) }
    {
        let rm = self.byte(9);
        if self.unshifted() {
            Operand2::reg(rm)
        } else {
            Operand2::Reg {
                rm,
                shift: self.shift(),
            }
        }
    }

    // The second operand of an Alu record: a value in form 0.
    fn operand(self) -> Operand2
        ensures { result ≡ operand_at self.entry.file.now self.entry.at }
    {
        if self.byte(8) == 0 {
            value(self.word(12), self.byte(9))
        } else {
            self.register()
        }
    }

    // The offset of a Mem record: a value in form 0.
    fn mem_offset(self) -> MemOffset
        ensures { result ≡ mem_offset_at self.entry.file.now self.entry.at }
    {
        if self.byte(8) == 0 {
            MemOffset::Imm(self.half(12))
        } else {
            MemOffset::Reg {
                rm: self.byte(9),
                shift: self.shift(),
            }
        }
    }

    // The operation of an Alu record.
    fn alu(self) -> Op
        ensures { result ≡ alu_at self.entry.file.now self.entry.at }
    {
        Op::Alu {
            op: AluOp::from_bits(self.byte(4)),
            s: self.byte(5) != 0,
            rd: self.byte(6),
            rn: self.byte(7),
            op2: self.operand(),
        }
    }

    // The operation of a Mul record.
    fn mul(self) -> Op
        ensures { result ≡ mul_at self.entry.file.now self.entry.at }
    {
        Op::Mul {
            acc: self.byte(4) != 0,
            s: self.byte(5) != 0,
            rd: self.byte(6),
            rn: self.byte(7),
            rs: self.byte(8),
            rm: self.byte(9),
        }
    }

    // The operation of a MulLong record.
    fn mul_long(self) -> Op
        ensures { result ≡ mul_long_at self.entry.file.now self.entry.at }
    {
        Op::MulLong {
            signed: self.byte(4) != 0,
            acc: self.byte(5) != 0,
            s: self.byte(6) != 0,
            rd_hi: self.byte(7),
            rd_lo: self.byte(8),
            rs: self.byte(9),
            rm: self.byte(10),
        }
    }

    // The operation of a Mem record.
    fn mem(self) -> Op
        ensures { result ≡ mem_at self.entry.file.now self.entry.at }
    {
        let bits = self.byte(4);
        Op::Mem {
            load: bits % 2 == 1,
            width: width(self.byte(5)),
            signed: bits / 2 % 2 == 1,
            rd: self.byte(6),
            rn: self.byte(7),
            offset: self.mem_offset(),
            pre: bits / 4 % 2 == 1,
            up: bits / 8 % 2 == 1,
            writeback: bits / 16 % 2 == 1,
        }
    }

    // The operation of a BlockMem record.
    fn block_mem(self) -> Op
        ensures { result ≡ block_mem_at self.entry.file.now self.entry.at }
    {
        let bits = self.byte(4);
        Op::BlockMem {
            load: bits % 2 == 1,
            rn: self.byte(6),
            rlist: self.half(12),
            pre: bits / 2 % 2 == 1,
            up: bits / 4 % 2 == 1,
            s_bit: bits / 8 % 2 == 1,
            writeback: bits / 16 % 2 == 1,
        }
    }

    // The operation of a record, by its kind; where a kind leaves its bytes free, with 0 in every
    // field.
    fn op(self) -> Op
        ensures { result ≡ op_at self.entry.file.now self.entry.at }
    {
        match self.kind() {
            Kind::Alu => self.alu(),
            Kind::Mul => self.mul(),
            Kind::MulLong => self.mul_long(),
            Kind::Swap => Op::Swap {
                byte: false,
                rd: 0,
                rm: 0,
                rn: 0,
            },
            Kind::Bx => Op::Bx { rm: self.byte(4) },
            Kind::Branch => Op::Branch {
                link: self.byte(4) != 0,
                target: self.word(12),
            },
            Kind::ThumbBlHigh => Op::ThumbBlHigh {
                lr_partial: self.word(12),
            },
            Kind::ThumbBlLow => Op::ThumbBlLow { off: self.half(12) },
            Kind::Mem => self.mem(),
            Kind::BlockMem => self.block_mem(),
            Kind::Mrs => Op::Mrs { spsr: false, rd: 0 },
            Kind::MsrReg => Op::MsrReg {
                spsr: false,
                fields: 0,
                rm: 0,
            },
            Kind::MsrImm => Op::MsrImm {
                spsr: false,
                fields: 0,
                value: 0,
            },
            Kind::Swi => Op::Swi { imm: 0 },
            Kind::Undefined => Op::Undefined { raw: 0 },
        }
    }
}

// The record at an offset as the instruction at an address of a block.
pub fn timed_instr(file: &[u8], at: usize, addr: u32, thumb: bool) -> TimedInstr
    requires { at + 16 ≤ length file.now }
    ensures { result ≡ timed_at file.now at addr thumb }
{
    let record = Record { file, at };
    let cond = Cond::from_bits(record.byte(1));
    let op = record.op();
    TimedInstr {
        instr: Instr::new(addr, cond, op, thumb),
        cost: record.half(2),
    }
}
