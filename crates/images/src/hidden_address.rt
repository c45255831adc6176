// The hidden address in rdi (document 01, "Images and moving bytes"), written and read.
ghost use Rattle.std.specs.Prelude.{◌≡◌, ◌≤◌, length};
ghost use Rattle.images.specs.Words.{with_address, address_in};

// Writes the hidden address into rdi, little-endian.
pub fn put_address(registers: &mut [u8], address: u64)
    requires { 8 ≤ length registers.old }
    ensures { registers.new ≡ with_address registers.old address }
{
    registers[..8].copy_from_slice(&address.to_le_bytes());
}

// The address in rdi.
pub fn address_in(registers: &[u8]) -> u64
    requires { 8 ≤ length registers.now }
    ensures { result ≡ address_in registers.now }
{
    let mut word = [0; 8];
    word.copy_from_slice(&registers[..8]);
    u64::from_le_bytes(word)
}
