// Tokens: reading one.
ghost use Rattle.std.specs.Prelude.{◌≡◌, ◌==◌, ◌||◌, IsTrue};
ghost use Rattle.std.specs.List.{list_all};
ghost use Rattle.std.specs.String.{string_bytes};
ghost use Rattle.wiki_model.specs.Titles.{is_letter, is_digit, is_token};
ghost use Rattle.wiki_titles.specs.Token.{ReadsToken};

use farm_base::bytes::{is_digit, is_letter};
use std::alloc::{AllocError, Global};
use std::fmt;
use std::marker::Model;

/// The greatest length of a token.
pub const TOKEN_MAX: usize = 64; // bytes

/// An edit token: 1 to [`TOKEN_MAX`] bytes of ASCII letters, digits, `-` and `_`.
#[derive(Clone, Debug, Drop)]
pub struct Token {
    text: String,
}

impl Model for Token {
    ghost use Rattle.std.specs.Prelude.{ℕ, List, IsTrue};
    ghost use Rattle.std.specs.String.{string_bytes};
    ghost use Rattle.wiki_model.specs.Titles.{is_token};

    ghost Value = { List ℕ };

    ghost view = { λ t. string_bytes t.text };

    ghost invariant = { λ t. IsTrue (is_token (string_bytes t.text)) };
}

impl Token {
    /// The token that this text is.
    pub fn parse(alloc: Global, text: &str) -> Result<Token, TokenFault>
        ensures { ReadsToken result text.now }
    {
        if !is_token(text.as_bytes()) {
            return Err(TokenFault::Form);
        }
        Ok(Token {
            text: String::from_str(alloc, text)?,
        })
    }

    /// The token's bytes.
    pub fn text(&self) -> &str
        ensures value { result.now ≡ self.now }
        ensures known { IsTrue (is_token self.now) }
    {
        self.text.as_str()
    }

    /// The token's bytes, taken out of it.
    pub fn into_text(self) -> String
        ensures { string_bytes result ≡ self }
    {
        self.text
    }
}

/// Why a text is no token.
#[derive(Clone, Copy, Debug, PartialEq, Eq)]
pub enum TokenFault {
    /// It is not 1 to 64 bytes of ASCII letters, digits, `-` and `_`.
    Form,
    /// Out of memory.
    Memory,
}

impl From<AllocError> for TokenFault {
    ghost use Rattle.std.specs.Prelude.{◌≡◌};
    ghost use Rattle.wiki_titles.specs.declared.token.TokenFault.TheVariants.{Memory};

    ghost from_gives = { λ _ fault. fault ≡ Memory };

    fn from(_error: AllocError) -> TokenFault {
        TokenFault::Memory
    }
}

impl fmt::Display for TokenFault {
    ghost use Rattle.std.specs.Prelude.{Some};
    ghost use Rattle.wiki_titles.specs.Token.{fault_text};

    ghost output = { λ fault. Some (fault_text fault) };

    fn fmt<W: fmt::Write>(&self, f: &mut fmt::Formatter<W>) -> fmt::Result {
        match self {
            TokenFault::Form => f.write_str("a token is 1 to 64 letters, digits, - or _"),
            TokenFault::Memory => f.write_str("out of memory"),
        }
    }
}

fn is_token(bytes: &[u8]) -> bool
    ensures { result ≡ is_token bytes.now }
{
    0 < bytes.len() && bytes.len() <= TOKEN_MAX && are_token_bytes(bytes)
}

fn are_token_bytes(bytes: &[u8]) -> bool
    ensures { result ≡ list_all (λ c. is_letter c || is_digit c || (c == 45) || (c == 95)) bytes.now }
{
    bytes.iter().all(|byte| is_token_byte(*byte))
}

fn is_token_byte(byte: u8) -> bool
    ensures { result ≡ (is_letter byte || is_digit byte || (byte == 45) || (byte == 95)) }
{
    is_letter(byte) || is_digit(byte) || byte == b'-' || byte == b'_'
}
