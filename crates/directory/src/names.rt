// Names of one to four bytes.
ghost use Rattle.std.specs.Prelude.{◌≡◌};
ghost use Rattle.rules.specs.Names.{name_byte, blanks, name_tail, valid_name};

// ! # $ % & ' @ ^ _ ` { } ~
const SIGNS: [u8; 13] = [33, 35, 36, 37, 38, 39, 64, 94, 95, 96, 123, 125, 126];

// The byte that follows a name of fewer than four bytes.
const BLANK: u8 = b' ';

// A to Z, 0 to 9 or a sign.
pub fn name_byte(c: u8) -> bool
    ensures { result ≡ name_byte c }
{
    c.is_ascii_uppercase() || c.is_ascii_digit() || SIGNS.contains(&c)
}

// The last bytes of a name are blanks.
fn all_blank(bytes: &[u8]) -> bool
    ensures { result ≡ blanks bytes.now }
{
    bytes.iter().all(|c| *c == BLANK)
}

// The last bytes of a name are name bytes, then blanks.
fn valid_tail(bytes: &[u8]) -> bool
    ensures { result ≡ name_tail bytes.now }
{
    for (i, c) in bytes.iter().enumerate() {
        if !name_byte(*c) {
            return all_blank(&bytes[i..]);
        }
    }
    true
}

// A four-byte name, the first byte lowest.
pub fn valid_name(name: u32) -> bool
    ensures { result ≡ valid_name name }
{
    let bytes = name.to_le_bytes();
    name_byte(bytes[0]) && valid_tail(&bytes[1..])
}
