// An instruction record: 16 bytes at an offset of the file, and what its fields say by themselves.
ghost use Rattle.std.specs.Prelude.{◌≡◌, ◌+◌, ◌≤◌, length};
ghost use Rattle.file_records.specs.Bytes.{byte_at, half_at, word_at};
ghost use Rattle.file_instrs.specs.Kind.{kind_of};

use crate::kind::Kind;
use file_records::bytes::{half, word};

// A record that lies inside the file.
#[derive(Clone, Copy)]
pub(crate) struct Record<'a> {
    pub(crate) file: &'a [u8],
    pub(crate) at: usize,
    pub ghost inside: { at + 16 ≤ length file.now },
}

impl Record<'_> {
    // The kind that byte 0 says.
    pub(crate) fn kind(self) -> Kind
        ensures { result ≡ kind_of (byte_at self.entry.file.now self.entry.at) }
    {
        Kind::from(self.file[self.at])
    }

    // Byte k.
    pub(crate) fn byte(self, k: usize) -> u8
        requires { k + 1 ≤ 16 }
        ensures { result ≡ byte_at self.entry.file.now (self.entry.at + k) }
    {
        self.file[self.at + k]
    }

    // The 16-bit number from byte k on.
    pub(crate) fn half(self, k: usize) -> u16
        requires { k + 2 ≤ 16 }
        ensures { result ≡ half_at self.entry.file.now (self.entry.at + k) }
    {
        half(self.file, self.at + k)
    }

    // The 32-bit number from byte k on.
    pub(crate) fn word(self, k: usize) -> u32
        requires { k + 4 ≤ 16 }
        ensures { result ≡ word_at self.entry.file.now (self.entry.at + k) }
    {
        word(self.file, self.at + k)
    }
}
