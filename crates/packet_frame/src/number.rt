//! Numbers as bytes, the highest first.

ghost use Rattle.std.specs.Prelude.{◌≡◌, length};
ghost use Rattle.std.specs.Int.{w8, w16, w32, w64, from_be_bytes};

#[inline(always)]
pub fn u8_of(field: &[u8]) -> u8
    requires { length field.now ≡ 1 }
    ensures { result ≡ from_be_bytes w8 field.now }
{
    field[0]
}

#[inline(always)]
pub fn u16_of(field: &[u8]) -> u16
    requires { length field.now ≡ 2 }
    ensures { result ≡ from_be_bytes w16 field.now }
{
    u16::from_be_bytes([field[0], field[1]])
}

pub fn u32_of(field: &[u8]) -> u32
    requires { length field.now ≡ 4 }
    ensures { result ≡ from_be_bytes w32 field.now }
{
    u32::from_be_bytes([field[0], field[1], field[2], field[3]])
}

pub fn u64_of(field: &[u8]) -> u64
    requires { length field.now ≡ 8 }
    ensures { result ≡ from_be_bytes w64 field.now }
{
    u64::from_be_bytes([
        field[0], field[1], field[2], field[3], field[4], field[5], field[6], field[7],
    ])
}
