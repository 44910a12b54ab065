// Multiplication.
ghost use Rattle.std.specs.Prelude.{◌≡◌, ℕ, Bool, [], ◌∷◌};
ghost use Rattle.armv4t.specs.declared.Instr.{Instr};
ghost use Rattle.armv4t.specs.declared.Op.TheVariants.{Mul};
ghost use Rattle.base_text.specs.Wrote.{Wrote};
ghost use Rattle.c_tree.specs.Expr.{x-r, reg, get};
ghost use Rattle.c_tree.specs.Stmt.{f-nz, f-nz64, run};
ghost use Rattle.c_tree.specs.Preamble.{v32};
ghost use Rattle.c_tree.specs.Print.{expr_text};
ghost use Rattle.lower_forms.specs.InlineBody.{list_if, set_reg, mul_body, widened, r64};
ghost use Rattle.lower_forms.specs.InlineBody.{mul_long_body, op_body};
ghost use Rattle.base_lists.specs.Lists.{is_some};
ghost use Rattle.emit_alu.specs.Texts.{statements_text};
ghost use Rattle.emit_alu.specs.Multiply.{product, accumulated, long_product, long_accumulated};
ghost use Rattle.emit_alu.specs.Multiply.{halves};

use armv4t::Reg;

// Whether a multiplication is lowered to lines; a long one always is.
pub fn mul_is_inlined(rd: Reg) -> bool
    ensures { (thumb : Bool) (i : Instr) (acc s : Bool) (rn rs rm : ℕ)
        → result ≡ is_some (op_body thumb i (Mul acc s rd rn rs rm)) }
{
    rd != 15
}

// The line of the product.
fn put_product(out: &mut [u8], at: usize, rs: Reg, rm: Reg) -> usize
    ensures { Wrote out.old at (statements_text (product rs rm ∷ [])) out.new result }
{
    let p = base_text::put_then_dec(out, at, b"        uint32_t r = c[", rm as u64);
    let q = base_text::put_then_dec(out, p, b"] * c[", rs as u64);
    base_text::put(out, q, b"];\n")
}

// The line that adds rn, if acc is set.
fn put_more(out: &mut [u8], at: usize, acc: bool, rn: Reg) -> usize
    ensures { Wrote out.old at (statements_text (list_if acc (accumulated rn)))
        out.new result }
{
    if acc {
        let p = base_text::put_then_dec(out, at, b"        r += c[", rn as u64);
        return base_text::put(out, p, b"];\n");
    }
    at
}

// The line that sets rd.
pub(crate) fn put_low(out: &mut [u8], at: usize, rd: Reg) -> usize
    ensures { Wrote out.old at (statements_text (set_reg rd (v32 x-r) ∷ [])) out.new result }
{
    let p = base_text::put_then_dec(out, at, b"        c[", rd as u64);
    base_text::put(out, p, b"] = r;\n")
}

// The line that sets N and Z, if s is set.
fn put_nz(out: &mut [u8], at: usize, s: bool) -> usize
    ensures { Wrote out.old at (statements_text (list_if s (run f-nz (v32 x-r))))
        out.new result }
{
    if s {
        return base_text::put(out, at, b"        f_nz(c, r);\n");
    }
    at
}

// The fields of a multiplication.
#[derive(Clone, Copy)]
pub struct Multiply {
    pub acc: bool,
    pub s: bool,
    pub rd: Reg,
    pub rn: Reg,
    pub rs: Reg,
    pub rm: Reg,
}

// The lines of a multiplication.
pub fn put_mul(out: &mut [u8], at: usize, m: Multiply) -> usize
    ensures { Wrote out.old at
        (statements_text (mul_body m.acc m.s m.rd m.rn m.rs m.rm))
        out.new result }
{
    let p = put_product(out, at, m.rs, m.rm);
    let q = put_more(out, p, m.acc, m.rn);
    let v = put_low(out, q, m.rd);
    put_nz(out, v, m.s)
}

// A factor of a long multiplication.
fn put_wide(out: &mut [u8], at: usize, signed: bool, n: Reg) -> usize
    ensures { Wrote out.old at (expr_text (widened signed (get (reg n)))) out.new result }
{
    if signed {
        let p = base_text::put_then_dec(out, at, b"(int64_t)(int32_t)c[", n as u64);
        return base_text::put(out, p, b"]");
    }
    let q = base_text::put_then_dec(out, at, b"(uint64_t)c[", n as u64);
    base_text::put(out, q, b"]")
}

// The line of the product of 64 bits.
fn put_long_product(out: &mut [u8], at: usize, signed: bool, rs: Reg, rm: Reg) -> usize
    ensures { Wrote out.old at (statements_text (long_product signed rs rm ∷ []))
        out.new result }
{
    let p = base_text::put(out, at, b"        uint64_t r = (uint64_t)(");
    let q = put_wide(out, p, signed, rm);
    let v = base_text::put(out, q, b" * ");
    let w = put_wide(out, v, signed, rs);
    base_text::put(out, w, b");\n")
}

// The line that adds the two registers of the outcome as they were, if acc is set.
fn put_long_more(out: &mut [u8], at: usize, acc: bool, hi: Reg, lo: Reg) -> usize
    ensures { Wrote out.old at (statements_text (list_if acc (long_accumulated hi lo)))
        out.new result }
{
    if acc {
        let p = base_text::put_then_dec(out, at, b"        r += ((uint64_t)c[", hi as u64);
        let q = base_text::put_then_dec(out, p, b"] << 32) | (uint64_t)c[", lo as u64);
        return base_text::put(out, q, b"];\n");
    }
    at
}

// Both halves of the product.
fn put_halves(out: &mut [u8], at: usize, hi: Reg, lo: Reg) -> usize
    ensures { Wrote out.old at (statements_text (halves hi lo)) out.new result }
{
    let p = base_text::put_then_dec(out, at, b"        c[", lo as u64);
    let q = base_text::put_then_dec(out, p, b"] = (uint32_t)r;\n        c[", hi as u64);
    base_text::put(out, q, b"] = (uint32_t)(r >> 32);\n")
}

// The line that sets N and Z by all 64 bits, if s is set.
fn put_nz64(out: &mut [u8], at: usize, s: bool) -> usize
    ensures { Wrote out.old at (statements_text (list_if s (run f-nz64 r64))) out.new result }
{
    if s {
        return base_text::put(out, at, b"        f_nz64(c, r);\n");
    }
    at
}

// The fields of a long multiplication; hi and lo name the registers of the halves.
#[derive(Clone, Copy)]
pub struct LongMultiply {
    pub signed: bool,
    pub acc: bool,
    pub s: bool,
    pub hi: Reg,
    pub lo: Reg,
    pub rs: Reg,
    pub rm: Reg,
}

// The lines of a long multiplication.
pub fn put_mul_long(out: &mut [u8], at: usize, m: LongMultiply) -> usize
    ensures { Wrote out.old at
        (statements_text
        (mul_long_body m.signed m.acc m.s m.hi m.lo m.rs m.rm))
        out.new result }
{
    let p = put_long_product(out, at, m.signed, m.rs, m.rm);
    let q = put_long_more(out, p, m.acc, m.hi, m.lo);
    let v = put_halves(out, q, m.hi, m.lo);
    put_nz64(out, v, m.s)
}
