// Bytes of a file in words, and a lent buffer that words are written into.
#![tactic(auto)]

ghost use Rattle.std.specs.Prelude.{◌≡◌, ◌++◌, length, take, drop, min, IsOk};

use std::fmt;

// A byte of a file as a reader sees it: a printable character as it is, a tab as `<tab>`, any other as `\x` and two hexadecimal digits.
#[derive(Clone, Copy)]
struct Byte(u8);

impl fmt::Display for Byte {
    fn fmt<W: fmt::Write>(&self, f: &mut fmt::Formatter<W>) -> fmt::Result {
        match self.0 {
            b' '..=b'~' => f.write_char(self.0 as char),
            b'\t' => f.write_str("<tab>"),
            byte => write!(f, "\\x{byte:02x}"),
        }
    }
}

// Bytes between quotes, those that are no printable characters spelled out.
#[derive(Clone, Copy, Debug, PartialEq, Eq)]
pub struct Name<'a>(pub &'a [u8]);

impl fmt::Display for Name<'_> {
    fn fmt<W: fmt::Write>(&self, f: &mut fmt::Formatter<W>) -> fmt::Result {
        f.write_char('"')?;
        for &byte in self.0 {
            write!(f, "{}", Byte(byte))?;
        }
        f.write_char('"')
    }
}

// Bytes of a file between quotes, the first 24 of them. Other than a name, which is told whole, they say where they were cut.
#[derive(Clone, Copy, Debug, PartialEq, Eq)]
pub struct Quoted<'a>(pub &'a [u8]);

impl fmt::Display for Quoted<'_> {
    fn fmt<W: fmt::Write>(&self, f: &mut fmt::Formatter<W>) -> fmt::Result {
        f.write_char('"')?;
        for &byte in self.0.iter().take(24) {
            write!(f, "{}", Byte(byte))?;
        }
        if self.0.len() > 24 {
            f.write_str("..")?;
        }
        f.write_char('"')
    }
}

// Copies as many bytes as both have, and returns how many.
fn copy_front(from: &[u8], to: &mut [u8]) -> usize
    ensures count { result ≡ min (length from.now) (length to.old) }
    ensures copied { to.new ≡ take result from.now ++ drop result to.old }
{
    let n = from.len().min(to.len());
    to[..n].copy_from_slice(&from[..n]);
    n
}

// A lent buffer that texts are written into, one behind the other. What does not fit is left out. A `Cursor` would count on from a start
// beyond the buffer as well, but not give the bytes up to there as a part of the buffer.
#[derive(Drop)]
pub struct Lent<'a> {
    buffer: &'a mut [u8],
    // how many bytes at the start of the buffer are taken; more than it has if there is no place in it
    taken: usize,
}

impl<'a> Lent<'a> {
    // A buffer whose texts begin at a position.
    pub fn starting_at(buffer: &'a mut [u8], at: usize) -> Self
        ensures { (result.buffer.now ≡ buffer.old) × (result.taken ≡ at) }
    {
        Lent { buffer, taken: at }
    }

    // A buffer whose texts begin at its start.
    pub fn new(buffer: &'a mut [u8]) -> Self
        ensures { (result.buffer.now ≡ buffer.old) × (result.taken ≡ 0) }
    {
        Self::starting_at(buffer, 0)
    }

    // The bytes of the buffer up to the end of its texts.
    pub fn as_bytes(&self) -> &[u8]
        ensures { result.now ≡ take self.now.taken self.now.buffer.now }
    {
        let n = self.taken.min(self.buffer.len());
        &self.buffer[..n]
    }

    // Puts bytes behind the texts, whether they are text or not.
    pub fn put_bytes(&mut self, bytes: &[u8])
        ensures bytes { take self.new.taken self.new.buffer.now
            ≡ take (length self.old.buffer.now) (take self.old.taken self.old.buffer.now ++ bytes.now) }
        ensures rest { drop self.new.taken self.new.buffer.now ≡ drop self.new.taken self.old.buffer.now }
        ensures room { length self.new.buffer.now ≡ length self.old.buffer.now }
    {
        let start = self.taken.min(self.buffer.len());
        let n = copy_front(bytes, &mut self.buffer[start..]);
        self.taken += n;
    }
}

impl fmt::Write for Lent<'_> {
    // Puts a text behind the others. It never fails: what does not fit is left out.
    fn write_str(&mut self, text: &str) -> fmt::Result
        ensures ok { IsOk result }
        ensures bytes { take self.new.taken self.new.buffer.now
            ≡ take (length self.old.buffer.now) (take self.old.taken self.old.buffer.now ++ text.now) }
        ensures rest { drop self.new.taken self.new.buffer.now ≡ drop self.new.taken self.old.buffer.now }
        ensures room { length self.new.buffer.now ≡ length self.old.buffer.now }
    {
        self.put_bytes(text.as_bytes());
        Ok(())
    }
}
