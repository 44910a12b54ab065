// The sentence of an instruction that went to a shell, as it is and as a line.
#![tactic(auto)]

ghost use Rattle.std.specs.Prelude.{◌≡◌, length};
ghost use Rattle.base_text.specs.Doc.{text, ◌▸◌, print};
ghost use Rattle.base_text.specs.Wrote.{Wrote};
ghost use Rattle.lower_reasons.specs.Sentence.{kind_name, reason_words, sentence, sentence_text};
ghost use Rattle.emit_sentences.specs.Steps.{said_of, said_by, line_if};

use lower_reasons::{Kind, Reason};

// What is said of an instruction: the parts of its sentence.
#[derive(Clone, Copy)]
pub struct Sentence {
    pub addr: u32,
    pub kind: Kind,
    pub reason: Reason,
}

// The name of a kind, with a space before it and one after it.
fn put_kind(out: &mut [u8], at: usize, kind: Kind) -> usize
    ensures { Wrote out.old at (text " " ▸ text (kind_name kind) ▸ text " ") out.new result }
{
    match kind {
        Kind::Alu => base_text::put(out, at, b" Alu "),
        Kind::Mul => base_text::put(out, at, b" Mul "),
        Kind::MulLong => base_text::put(out, at, b" MulLong "),
        Kind::Swap => base_text::put(out, at, b" Swap "),
        Kind::Bx => base_text::put(out, at, b" Bx "),
        Kind::Branch => base_text::put(out, at, b" Branch "),
        Kind::ThumbBlHigh => base_text::put(out, at, b" ThumbBlHigh "),
        Kind::ThumbBlLow => base_text::put(out, at, b" ThumbBlLow "),
        Kind::Mem => base_text::put(out, at, b" Mem "),
        Kind::BlockMem => base_text::put(out, at, b" BlockMem "),
        Kind::Mrs => base_text::put(out, at, b" Mrs "),
        Kind::MsrReg => base_text::put(out, at, b" MsrReg "),
        Kind::MsrImm => base_text::put(out, at, b" MsrImm "),
        Kind::Swi => base_text::put(out, at, b" Swi "),
        Kind::Undefined => base_text::put(out, at, b" Undefined "),
    }
}

// The words of a reason.
fn put_reason(out: &mut [u8], at: usize, reason: Reason) -> usize
    ensures { Wrote out.old at (text (reason_words reason)) out.new result }
{
    match reason {
        Reason::UnpairedHalf => base_text::put(out, at, b"unpaired half"),
        Reason::ConditionalExit => base_text::put(out, at, b"conditional exit"),
        Reason::BiosExit => base_text::put(out, at, b"BIOS exit"),
        Reason::PcResult => base_text::put(out, at, b"PC as result or stored register"),
        Reason::RegisterShift => base_text::put(out, at, b"register-given shift"),
        Reason::ExtendOffset => base_text::put(out, at, b"rotate with extend in an offset"),
        Reason::UserRegisters => base_text::put(out, at, b"user registers"),
        Reason::EmptyList => base_text::put(out, at, b"empty list"),
        Reason::PcBase => base_text::put(out, at, b"PC as base"),
        Reason::PcLoaded => base_text::put(out, at, b"PC in a loaded list"),
        Reason::NoNativeForm => base_text::put(out, at, b"no native form"),
    }
}

// A sentence: address, kind and reason.
fn put_sentence(out: &mut [u8], at: usize, s: Sentence) -> usize
    ensures { Wrote out.old at (sentence (said_of s)) out.new result }
{
    let kind = s.kind;
    let reason = s.reason;
    let p = base_text::put_hex8(out, at, s.addr);
    let q = put_kind(out, p, kind);
    put_reason(out, q, reason)
}

// A sentence, or no text where nothing is said.
pub fn put_said(out: &mut [u8], at: usize, said: Option<Sentence>) -> usize
    ensures { Wrote out.old at (sentence_text (said_by said)) out.new result }
{
    match said {
        None => at,
        Some(s) => put_sentence(out, at, s),
    }
}

// A sentence and a newline, or no text where nothing is said.
pub fn put_line(out: &mut [u8], at: usize, said: Option<Sentence>) -> usize
    ensures { Wrote out.old at (line_if (said_by said)) out.new result }
{
    match said {
        None => at,
        Some(s) => {
            let p = put_sentence(out, at, s);
            base_text::put(out, p, b"\n")
        }
    }
}

// How long that is.
pub fn line_length(said: Option<Sentence>) -> usize
    ensures { result ≡ length (print (line_if (said_by said))) }
{
    let mut nothing = [0u8; 0];
    put_line(&mut nothing, 0, said)
}
