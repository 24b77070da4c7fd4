// The stored bytes that are still to be read. A number past their end reads as 0.
ghost use Rattle.std.specs.Prelude.{◌≡◌, ◌<◌, ◌^◌, ◌++◌, slice_index, take, drop, replicate};

#[derive(Drop)]
pub struct Reader<'a> {
    pub rest: &'a [u8],
}

impl<'a> Reader<'a> {
    pub fn new(bytes: &'a [u8]) -> Self
        ensures { result.rest.now ≡ bytes.now }
    {
        Reader { rest: bytes }
    }

    // The next n bytes, or as many as are left.
    pub fn take(&mut self, n: usize) -> &'a [u8]
        ensures taken { result.now ≡ take n self.old.rest.now }
        ensures rest { self.new.rest.now ≡ drop n self.old.rest.now }
    {
        let (taken, rest) = self.rest.split_at(n.min(self.rest.len()));
        self.rest = rest;
        taken
    }

    fn read_bytes<const N: usize>(&mut self) -> [u8; N]
        requires { N < 2 ^ 63 }
        ensures value { result ≡ take N (self.old.rest.now ++ replicate N 0) }
        ensures rest { self.new.rest.now ≡ drop N self.old.rest.now }
    {
        let taken = self.take(N);
        let mut bytes = [0; N];
        bytes[..taken.len()].copy_from_slice(taken);
        bytes
    }

    pub fn read_u8(&mut self) -> u8
        ensures value { result ≡ slice_index self.old.rest.now 0 }
        ensures rest { self.new.rest.now ≡ drop 1 self.old.rest.now }
    {
        self.take(1).first().copied().unwrap_or(0)
    }

    // Numbers are stored little-endian.
    pub fn read_u16(&mut self) -> u16
        ensures { self.new.rest.now ≡ drop 2 self.old.rest.now }
    {
        u16::from_le_bytes(self.read_bytes())
    }

    pub fn read_u32(&mut self) -> u32
        ensures { self.new.rest.now ≡ drop 4 self.old.rest.now }
    {
        u32::from_le_bytes(self.read_bytes())
    }

    pub fn read_u64(&mut self) -> u64
        ensures { self.new.rest.now ≡ drop 8 self.old.rest.now }
    {
        u64::from_le_bytes(self.read_bytes())
    }
}
