// The reason for an instruction's shell, by its kind. There is none where it becomes native code.
ghost use Rattle.std.specs.Prelude.{◌≡◌, Bool, not, cond, ◌&&◌, ℕ, eqb};
ghost use Rattle.std.proofs.Math.Option.{none, some};
ghost use Rattle.armv4t.specs.Cond.{is_al};
ghost use Rattle.armv4t.specs.RegisterList.{is_listed};
ghost use Rattle.armv4t.specs.declared.AluOp.{AluOp};
ghost use Rattle.armv4t.specs.declared.Cond.{Cond};
ghost use Rattle.armv4t.specs.declared.MemWidth.{MemWidth};
ghost use Rattle.armv4t.specs.declared.Op.TheVariants.{Alu, Mul, Mem, BlockMem};
ghost use Rattle.lower_reasons.specs.declared.types.Reason.TheVariants.{ConditionalExit};
ghost use Rattle.lower_reasons.specs.declared.types.Reason.TheVariants.{BiosExit, RegisterShift};
ghost use Rattle.lower_reasons.specs.declared.types.Reason.TheVariants.{ExtendOffset};
ghost use Rattle.lower_reasons.specs.declared.types.Reason.TheVariants.{UserRegisters, EmptyList};
ghost use Rattle.lower_reasons.specs.declared.types.Reason.TheVariants.{PcBase, PcLoaded};
ghost use Rattle.lower_reasons.specs.Reasons.{operand_shift, offset_shift, by_register, by_extend};
ghost use Rattle.lower_reasons.specs.Reasons.{passes, pops_pc, reason_by, reason_of};
ghost use Rattle.emit_reasons.specs.Steps.{why_of};

use armv4t::{Cond, Instr, MemOffset, Op, Operand2, PC, Shift, ShiftKind, is_listed};
use lower_reasons::Reason;

// The reason of an operand: it is shifted by a register.
fn operand_reason(op2: Operand2) -> Option<Reason>
    ensures { why_of result ≡ cond (passes by_register (operand_shift op2)) (some RegisterShift) none }
{
    match op2 {
        Operand2::Imm { .. } => None,
        Operand2::Reg { rm, shift } => match shift {
            Shift::Imm { .. } => None,
            Shift::Reg { .. } => Some(Reason::RegisterShift),
        },
    }
}

// The reason of an Alu.
fn alu_reason(rd: u8, op2: Operand2) -> Option<Reason>
    ensures { (region : ℕ) (c : Cond) (op : AluOp) (s : Bool) (rn : ℕ) → why_of result ≡ reason_by region c
        (Alu op s rd rn op2) }
{
    if rd == PC {
        return Some(Reason::PcResult);
    }
    operand_reason(op2)
}

// The reason of a Mul.
fn mul_reason(rd: u8) -> Option<Reason>
    ensures { (region : ℕ) (c : Cond) (acc s : Bool) (rn rs rm : ℕ) → why_of result ≡ reason_by region c
        (Mul acc s rd rn rs rm) }
{
    if rd == PC {
        return Some(Reason::PcResult);
    }
    None
}

// The reason of an offset shifted by an amount: a rotate with extend, which is Ror by 0.
fn extend_reason(kind: ShiftKind, amount: u8) -> Option<Reason>
    ensures { why_of result ≡ cond (by_extend (Shift.Imm kind amount)) (some ExtendOffset) none }
{
    match kind {
        ShiftKind::Lsl => None,
        ShiftKind::Lsr => None,
        ShiftKind::Asr => None,
        ShiftKind::Ror => {
            if amount == 0 {
                Some(Reason::ExtendOffset)
            } else {
                None
            }
        }
    }
}

// The reason of an offset: it is shifted by a register, or by a rotate with extend.
fn offset_reason(offset: MemOffset) -> Option<Reason>
    ensures { why_of result ≡ cond (passes by_register (offset_shift offset)) (some RegisterShift) (cond
        (passes by_extend (offset_shift offset)) (some ExtendOffset) none) }
{
    match offset {
        MemOffset::Imm(value) => None,
        MemOffset::Reg { rm, shift } => match shift {
            Shift::Imm { kind, amount } => extend_reason(kind, amount),
            Shift::Reg { .. } => Some(Reason::RegisterShift),
        },
    }
}

// The reason of a Mem.
fn mem_reason(rd: u8, offset: MemOffset) -> Option<Reason>
    ensures { (region : ℕ) (c : Cond) (load : Bool) (width : MemWidth) (signed : Bool) (rn : ℕ)
        (pre up writeback : Bool) → why_of result ≡ reason_by region c
        (Mem load width signed rd rn offset pre up writeback) }
{
    if rd == PC {
        return Some(Reason::PcResult);
    }
    offset_reason(offset)
}

// The reason of an exit, by whether its condition is Al.
fn exit_reason(region: u32, al: bool) -> Option<Reason>
    ensures { why_of result ≡ cond (not al) (some ConditionalExit) (cond (eqb region 0) (some BiosExit) none) }
{
    if !al {
        return Some(Reason::ConditionalExit);
    }
    if region == 0 {
        return Some(Reason::BiosExit);
    }
    None
}

// Whether a BlockMem is the pop of PC.
pub(crate) fn pops_pc(
    load: bool,
    rn: u8,
    rlist: u16,
    pre: bool,
    up: bool,
    s_bit: bool,
    writeback: bool,
) -> bool
    ensures { result ≡ pops_pc (record {
      load = load;
      rn = rn;
      rlist = rlist;
      pre = pre;
      up = up;
      s_bit =
          s_bit;
      writeback = writeback;
    }) }
{
    load && !pre && up && !s_bit && writeback && is_listed(rlist, PC) && rn != PC
}

// The reason of a BlockMem that is not that pop.
#[tactic(auto, using(crate::proofs::ListOrder::in_order))]
fn list_reason(load: bool, rn: u8, rlist: u16, s_bit: bool) -> Option<Reason>
    ensures { why_of result ≡ cond s_bit (some UserRegisters) (cond (eqb rlist 0) (some EmptyList) (cond
        (eqb rn 15) (some PcBase) (cond (load && is_listed rlist 15) (some PcLoaded) none))) }
{
    if s_bit {
        return Some(Reason::UserRegisters);
    }
    if rlist == 0 {
        return Some(Reason::EmptyList);
    }
    if rn == PC {
        return Some(Reason::PcBase);
    }
    if !load {
        return None;
    }
    if is_listed(rlist, PC) {
        return Some(Reason::PcLoaded);
    }
    None
}

// The reason of a BlockMem, by whether its condition is Al.
fn block_mem_reason(
    region: u32,
    al: bool,
    load: bool,
    rn: u8,
    rlist: u16,
    pre: bool,
    up: bool,
    s_bit: bool,
    writeback: bool,
) -> Option<Reason>
    ensures { (c : Cond) → al ≡ is_al c → why_of result ≡ reason_by region c
        (BlockMem load rn rlist pre up s_bit writeback) }
{
    if pops_pc(load, rn, rlist, pre, up, s_bit, writeback) {
        return exit_reason(region, al);
    }
    list_reason(load, rn, rlist, s_bit)
}

// The reason for the shell of an instruction that is not fused, in a block of a region.
pub(crate) fn reason_of(region: u32, i: Instr) -> Option<Reason>
    ensures { why_of result ≡ reason_of region i }
{
    let op = i.op;
    let condition = i.cond;
    let al = condition.is_al();
    match op {
        Op::Alu { rd, op2, .. } => alu_reason(rd, op2),
        Op::Mul { rd, .. } => mul_reason(rd),
        Op::MulLong { .. } => None,
        Op::Bx { .. } => exit_reason(region, al),
        Op::Branch { .. } => None,
        Op::ThumbBlHigh { .. } => Some(Reason::UnpairedHalf),
        Op::ThumbBlLow { .. } => Some(Reason::UnpairedHalf),
        Op::Mem { rd, offset, .. } => mem_reason(rd, offset),
        Op::BlockMem {
            load,
            rn,
            rlist,
            pre,
            up,
            s_bit,
            writeback,
        } => block_mem_reason(region, al, load, rn, rlist, pre, up, s_bit, writeback),
        _ => Some(Reason::NoNativeForm),
    }
}
