// A page: bytes written one behind the other, as many as a listing has at most.
// An array and a length: a listing is written in fixed memory, with no heap. Each step that writes asks for the room that it takes.
ghost use Rattle.std.specs.Prelude.{◌≡◌, ℕ, ◌+◌, ◌≤◌, List, [], ◌++◌, length, take};

use std::marker::Model;

#[derive(Drop)]
pub struct Page {
    bytes: [u8; 512],
    len: usize,
}

impl Model for Page {
    ghost Value = { List ℕ };

    ghost view = { λ p. take p.len p.bytes };

    ghost invariant = { λ p. p.len ≤ 512 };
}

impl Page {
    // The empty page.
    pub fn new() -> Page
        ensures { result ≡ [] }
    {
        Page {
            bytes: [0; 512],
            len: 0,
        }
    }

    // What is written.
    pub fn written(&self) -> &[u8]
        ensures value { result.now ≡ self.now }
        ensures fits { length result.now ≤ 512 }
    {
        &self.bytes[..self.len]
    }

    // The bytes themselves.
    pub fn text(&mut self, bytes: &[u8])
        requires { length self.old + length bytes.now ≤ 512 }
        ensures { self.new ≡ self.old ++ bytes.now }
    {
        let end = self.len + bytes.len();
        self.bytes[self.len..end].copy_from_slice(bytes);
        self.len = end;
    }
}
