// Numbers of the file: little-endian, at a place within it.
ghost use Rattle.std.specs.Prelude.{◌≡◌, ◌+◌, ◌≤◌, length};
ghost use Rattle.flow.specs.Format.{u8_at, u16_at, u64_at};

pub fn u8_at(file: &[u8], at: usize) -> usize
    requires { at + 1 ≤ length file.now }
    ensures { result ≡ u8_at file.now at }
{
    file[at] as usize
}

pub fn u16_at(file: &[u8], at: usize) -> usize
    requires { at + 2 ≤ length file.now }
    ensures { result ≡ u16_at file.now at }
{
    u16::from_le_bytes(file[at..at + 2].try_into().unwrap()) as usize
}

pub fn u64_at(file: &[u8], at: usize) -> u64
    requires { at + 8 ≤ length file.now }
    ensures { result ≡ u64_at file.now at }
{
    u64::from_le_bytes(file[at..at + 8].try_into().unwrap())
}
