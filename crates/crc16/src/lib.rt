// The check sum of document 01, CRC-16 (x^16 + x^15 + x^2 + 1, least significant bit first), as Application Note 27 writes it: a one-bit shift and exclusive-or.
#![tactic(auto)]

ghost use Rattle.std.specs.Prelude.{◌≡◌};
ghost use Rattle.crc16.specs.Crc16.{byte_step, crc16};

// x^15, x^2 and 1 of the polynomial as the bits 0, 13 and 15.
const POLYNOMIAL: u16 = 0xA001;

// The register after one byte: the byte is mixed in, then eight times the lowest bit is shifted out and, where it was 1, the polynomial is taken in by exclusive-or.
// The note's worked step: register 90F1h, byte 75h, then 6390h.
fn byte_step(register: u16, byte: u8) -> u16
    ensures { result ≡ byte_step register byte }
{
    let mut r = u16::from(byte) ^ register;
    for _ in 0..8u32 {
        if r % 2 == 1 {
            r = (r >> 1) ^ POLYNOMIAL;
        } else {
            r = r >> 1;
        }
    }
    r
}

// The register after the bytes of a slice, one after the other.
pub fn crc_of(start: u16, bytes: &[u8]) -> u16
    ensures { result ≡ crc16 start bytes.now }
{
    let mut register = start;
    for byte in bytes {
        register = byte_step(register, *byte);
    }
    register
}
