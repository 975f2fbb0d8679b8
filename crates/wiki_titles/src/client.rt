// Client ids: reading one, and the client of a request or of a number.
ghost use Rattle.std.specs.Prelude.{◌≡◌, ◌<◌, ◌∷◌, ◌++◌, ◌==◌, ◌||◌, ℕ, List, IsTrue, length};
ghost use Rattle.std.specs.List.{list_all};
ghost use Rattle.md5.specs.Md5.{md5};
ghost use Rattle.wiki_model.specs.Bytes.{line_feed};
ghost use Rattle.wiki_model.specs.Script.{client_number, hex, low_hex};
ghost use Rattle.wiki_model.specs.Titles.{is_digit, in_range, is_client};
ghost use Rattle.wiki_titles.specs.ClientId.{client_of, client_after};

use farm_base::bytes::is_digit;
use md5::{Digest, Md5};
use std::marker::Model;

/// A client, as 32 digits of `0-9a-f`.
#[derive(Clone, Copy, Debug, PartialEq, Eq, PartialOrd, Ord)]
pub struct ClientId {
    digits: [u8; 32],
}

impl Model for ClientId {
    ghost use Rattle.std.specs.Prelude.{ℕ, List, IsTrue};
    ghost use Rattle.wiki_model.specs.Titles.{is_client};

    ghost Value = { List ℕ };

    ghost view = { λ c. c.digits };

    ghost inverse = { λ digits. record { digits = digits } };

    ghost invariant = { λ c. IsTrue (is_client c.digits) };
}

impl ClientId {
    /// The client with these digits; `None` exactly if the text is not 32 digits of `0-9a-f`.
    pub fn parse(text: &str) -> Option<ClientId>
        ensures { result ≡ client_of text.now }
    {
        let bytes = text.as_bytes();
        if !is_client(bytes) {
            return None;
        }
        let mut digits = [b'0'; 32];
        digits.copy_from_slice(bytes);
        Some(ClientId { digits })
    }

    /// The client of a request: the MD5 digest of its peer, a line feed and its agent.
    pub fn of(peer: &str, agent: &str) -> ClientId
        ensures { result ≡ client_after peer.now agent.now }
    {
        numbered(u128::from_be_bytes(digest_of(peer, agent)))
    }

    /// The client with this number.
    pub fn number(n: u64) -> ClientId
        ensures { result ≡ client_number n }
    {
        numbered(u128::from(n))
    }

    /// The 32 digits.
    pub fn digits(&self) -> [u8; 32]
        ensures value { result ≡ self.now }
        ensures known { IsTrue (is_client self.now) }
    {
        self.digits
    }
}

fn is_client(bytes: &[u8]) -> bool
    ensures { result ≡ is_client bytes.now }
{
    bytes.len() == 32 && are_client_bytes(bytes)
}

fn are_client_bytes(bytes: &[u8]) -> bool
    ensures { result ≡ list_all (λ c. is_digit c || in_range 97 102 c) bytes.now }
{
    bytes.iter().all(|byte| is_client_byte(*byte))
}

fn is_client_byte(byte: u8) -> bool
    ensures { result ≡ (is_digit byte || in_range 97 102 byte) }
{
    is_digit(byte) || b'a' <= byte && byte <= b'f'
}

fn digest_of(peer: &str, agent: &str) -> [u8; 16]
    ensures { result ≡ md5 (peer.now ++ line_feed ∷ agent.now) }
{
    let mut hasher = Md5::new();
    hasher.update(peer.as_bytes());
    hasher.update(b"\n");
    hasher.update(agent.as_bytes());
    hasher.finalize()
}

fn numbered(n: u128) -> ClientId
    ensures { result ≡ hex 32 n }
{
    ClientId {
        digits: hex_digits(n),
    }
}

fn hex_digits(n: u128) -> [u8; 32]
    ensures { result ≡ hex 32 n }
{
    let mut digits = [b'0'; 32];
    write_hex(&mut digits, n);
    digits
}

// Writes the lowest digits of the number, as many as there is room for.
fn write_hex(digits: &mut [u8], n: u128)
    ensures { digits.new ≡ hex (length digits.old) n }
{
    let count = digits.len();
    let mut rest = n;
    for i in 0..count {
        digits[count - 1 - i] = low_hex((rest % 16) as u8);
        rest /= 16;
    }
}

fn low_hex(digit: u8) -> u8
    requires { digit < 16 }
    ensures { result ≡ low_hex digit }
{
    if digit < 10 {
        b'0' + digit
    } else {
        b'a' - 10 + digit
    }
}
