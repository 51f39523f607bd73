// A text that grows in a block of 2,048 bytes, which is handed on by value (the bytes of document 01, The printed answer, are put together from it).
//
// Every method writes behind the text that a block holds already, and says by one equation what the block is then. A full
// block takes no more, and so says the equation, so that texts compose by one law and room is counted once, by whoever knows the whole
// text.
#![tactic(auto)]

ghost use Rattle.std.specs.Prelude.{◌≡◌, [], ◌∷◌, ◌+◌, ◌≤◌, length};
ghost use Rattle.block.specs.Decimal.{decimal};
ghost use Rattle.block.specs.Block.{blank, puts, Put};
ghost use Rattle.block.specs.Fields.{field};

// A text of at most 2,048 bytes, and zeros behind it. Its fields are public and have no invariant: `buffer::write_block` promises its answer for every block, also
// for one that claims more.
#[derive(Clone, Copy)]
pub struct Block {
    pub bytes: [u8; 2048],
    pub len: usize,
}

impl Block {
    // No text.
    pub fn new() -> Block
        ensures { result ≡ blank }
    {
        Block {
            bytes: [0; 2048],
            len: 0,
        }
    }

    // One byte more; a full block stays as it is.
    pub fn push(&mut self, x: u8)
        ensures { self.new ≡ puts self.old (x ∷ []) }
    {
        if self.len < 2048 {
            self.bytes[self.len] = x;
            self.len += 1;
        }
    }

    // All bytes of a slice.
    pub fn put(&mut self, s: &[u8])
        ensures { self.new ≡ puts self.old s.now }
    {
        for byte in s {
            self.push(*byte);
        }
    }

    // The digits of a number: those of a tenth of it first, as the definition has them.
    pub fn put_decimal(&mut self, n: u64)
        ensures { self.new ≡ puts self.old (decimal n) }
    {
        if 10 <= n {
            self.put_decimal(n / 10);
        }
        self.push(b'0' + (n % 10) as u8);
    }

    // A comma and a number.
    pub fn put_number(&mut self, n: u64)
        ensures adds { Put self.old (field (decimal n)) (1 + length (decimal n)) self.new }
        ensures n_len_bound { length (decimal n) ≤ 20 }
    {
        self.push(b',');
        self.put_decimal(n);
    }
}
