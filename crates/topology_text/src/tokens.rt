//! The tokens of a topology text: `=>`, `;` and names, parted by blanks, line feeds and comments.

ghost use Rattle.std.specs.Prelude.{◌≡◌, ◌<◌, ◌≤◌, ◌+◌, ◌^◌, length, IfSome};
ghost use Rattle.overlay_setup.specs.Names.{is_host_byte, begins};
ghost use Rattle.topology_text.specs.Tokens.{host_len, is_space, pieces, StopsAt, piece_at, is_name, name_at};
ghost use Rattle.topology_text.specs.TokenViews.{token_view_at, token_bytes, named};

use rank_set::digits::digits_len;
use text_lines::line_len;

/// A token.
#[derive(Debug, Clone, Copy)]
pub enum Token<'t> {
    /// `=>`
    Arrow,
    /// `;`
    Semicolon,
    /// A node's name.
    Name(&'t str),
}

// Whether a byte may stand in a host.
fn is_host_byte(b: u8) -> bool
    ensures { result ≡ is_host_byte b }
{
    b.is_ascii_alphanumeric() || b == b'.' || b == b'-' || b == b'_'
}

// Whether a byte parts tokens and ends no line.
fn is_space(b: u8) -> bool
    ensures { result ≡ is_space b }
{
    b == b' ' || b == b'\t' || b == b'\r'
}

// How many host bytes a text begins with.
fn host_len(text: &[u8]) -> usize
    ensures value { result ≡ host_len text.now }
    ensures within { result ≤ length text.now }
{
    text.iter().take_while(|b| is_host_byte(**b)).count()
}

// Whether a text begins with this byte.
fn begins(byte: u8, text: &[u8]) -> bool
    ensures { result ≡ begins byte text.now }
{
    match text.split_first() {
        Some((first, _)) => *first == byte,
        None => false,
    }
}

// Whether so many host bytes, this byte and so many digits of an index are a name.
fn is_name(host: usize, colon: u8, index: &[u8], digits: usize) -> bool
    ensures { result ≡ is_name host colon index.now digits }
{
    1 <= host
        && host <= 63
        && colon == b':'
        && 1 <= digits
        && digits <= 5
        && (digits == 1 || !begins(b'0', index))
}

// The name that a text begins with, by longest match: a host, a colon, and all digits after it.
fn name_at(text: &[u8]) -> Option<&str>
    ensures value { named result ≡ name_at text.now }
    ensures within { IfSome result (λ name. length name.now ≤ length text.now) }
    ensures not_empty { IfSome result (λ name. 1 ≤ length name.now) }
{
    let host = host_len(text);
    let (_, after) = text.split_at(host);
    let (colon, index) = after.split_first()?;
    let digits = digits_len(index);
    if !is_name(host, *colon, index, digits) {
        return None;
    }
    let (name, _) = text.split_at(host + 1 + digits);
    match str::from_utf8(name) {
        Ok(name) => Some(name),
        Err(_) => unreachable!(),
    }
}

/// The token that a text begins with; none where the bytes there are no token.
pub fn token_at(text: &[u8]) -> Option<Token<'_>>
    ensures value { token_view_at result ≡ piece_at text.now }
    ensures within { IfSome result (λ token. token_bytes token ≤ length text.now) }
    ensures not_empty { IfSome result (λ token. 1 ≤ token_bytes token) }
{
    if begins(b';', text) {
        return Some(Token::Semicolon);
    }
    if let Some((first, rest)) = text.split_first()
        && *first == b'='
        && begins(b'>', rest)
    {
        return Some(Token::Arrow);
    }
    Some(Token::Name(name_at(text)?))
}

/// How many bytes a token has.
pub fn token_len(token: &Token<'_>) -> usize
    ensures { result ≡ token_bytes token.now }
{
    match token {
        Token::Arrow => 2,
        Token::Semicolon => 1,
        Token::Name(name) => name.len(),
    }
}

/// What is left of a text from the next token on, and the line of that place.
pub fn skipped(text: &[u8], line_number: u64) -> (&[u8], u64)
    requires { line_number + length text.now < 2 ^ 64 }
    ensures room { result.1 + length result.0.now ≤ line_number + length text.now }
    ensures shorter { length result.0.now ≤ length text.now }
    ensures pieces { pieces result.1 0 result.0.now ≡ pieces line_number 0 text.now }
    ensures stops { StopsAt result.0.now }
{
    let mut rest = text;
    let mut line_number = line_number;
    while let Some((b, after)) = rest.split_first() {
        if *b == b'\n' {
            line_number += 1;
            rest = after;
        } else if is_space(*b) {
            rest = after;
        } else if *b == b'#' {
            (_, rest) = after.split_at(line_len(after));
        } else {
            break;
        }
    }
    (rest, line_number)
}
