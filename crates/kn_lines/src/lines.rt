ghost use Rattle.std.specs.Prelude.{◌≡◌, ◌≢◌, ℕ, ◌+◌, ◌^◌, ◌<◌, ◌≤◌, [], ◌∷◌, length, slice_index, slice_index_or};
ghost use Rattle.std.specs.Prelude.{bytes_eq, codes, MatchOption};
ghost use Rattle.kn_lines.specs.Lines.{Numbered, pieces_at, is_comment, line_words, words_unless_comment, without_return, has_odd_byte, unread};

use std::marker::Model;

/// The words that are left of a line. Contracts see the list of them.
#[derive(Drop)]
pub struct Words<'a> {
    rest: &'a [u8],
}

impl<'a> Model for Words<'a> {
    ghost use Rattle.std.specs.Prelude.{List, ℕ};
    ghost use Rattle.kn_lines.specs.Lines.{line_words};

    ghost Value = { List (List ℕ) };

    ghost view = { λ words. line_words words.rest.now };
}

impl<'a> Words<'a> {
    /// The next word, which is then passed.
    pub fn next_word(&mut self) -> Option<&'a [u8]>
        ensures { MatchOption result ((self.old ≡ []) × (self.new ≡ []))
            (λ word. self.old ≡ word.now ∷ self.new) }
    {
        let (word, rest) = split_word(self.rest)?;
        self.rest = rest;
        Some(word)
    }

    /// Whether the next word is `array`.
    pub fn begins_array(&self) -> bool
        ensures { result ≡ bytes_eq (slice_index_or self.now 0 []) (codes "array") }
    {
        match split_word(self.rest) {
            Some((word, _)) => word == b"array".as_slice(),
            None => false,
        }
    }
}

/// A line that is not passed over: its number, its bytes, its first word, and the bytes behind that.
#[derive(Drop)]
pub struct Line<'a> {
    number: u32,
    text: &'a [u8],
    name: &'a [u8],
    rest: &'a [u8],
}

impl<'a> Model for Line<'a> {
    ghost use Rattle.kn_lines.specs.Lines.{Numbered, line_words};

    ghost Value = { Numbered };

    ghost view = { λ line. record {
      number = line.number;
      text = line.text.now;
      name = line.name.now;
      arguments = line_words line.rest.now;
    } };
}

impl<'a> Line<'a> {
    pub fn number(&self) -> u32
        ensures { result ≡ self.now.number }
    {
        self.number
    }

    /// The first word.
    pub fn name(&self) -> &'a [u8]
        ensures { result.now ≡ self.now.name }
    {
        self.name
    }

    /// The words behind the first one.
    pub fn arguments(&self) -> Words<'a>
        ensures words { result ≡ self.now.arguments }
        ensures few { length result < 2 ^ 64 }
    {
        Words { rest: self.rest }
    }

    /// The second word, or nothing where there is none.
    pub fn second(&self) -> &'a [u8]
        ensures { result.now ≡ slice_index_or self.now.arguments 0 [] }
    {
        match split_word(self.rest) {
            Some((word, _)) => word,
            None => b"".as_slice(),
        }
    }

    /// Whether the line has a byte that no line may have.
    pub fn is_odd(&self) -> bool
        ensures { result ≡ has_odd_byte self.now.text }
    {
        has_odd(self.text)
    }
}

/// The lines that are left of a text, without those that are passed over, which are counted.
#[derive(Drop)]
pub struct Lines<'a> {
    rest: &'a [u8],
    number: u32,
}

impl<'a> Model for Lines<'a> {
    ghost use Rattle.std.specs.Prelude.{◌+◌, ◌<◌, ◌^◌, length};
    ghost use Rattle.kn_lines.specs.Lines.{Unread, unread};

    ghost Value = { Unread };

    ghost view = { λ lines. unread lines.number lines.rest.now };

    ghost invariant = { λ lines. lines.number + length lines.rest.now < 2 ^ 32 };
}

impl<'a> Lines<'a> {
    pub fn new(bytes: &'a [u8]) -> Lines<'a>
        requires { length bytes.now < 2 ^ 31 }
        ensures { result ≡ unread 1 bytes.now }
    {
        Lines {
            rest: bytes,
            number: 1,
        }
    }

    /// The next line, which is then passed.
    pub fn next_line(&mut self) -> Option<Line<'a>>
        ensures left { MatchOption result
            ((self.old.left ≡ []) × (self.new.left ≡ []) × (self.new.next ≡ self.new.end))
            (λ line. self.old.left ≡ line ∷ self.new.left) }
        ensures end { self.new.end ≡ self.old.end }
    {
        while !self.rest.is_empty() {
            let (piece, behind) = split_piece(self.rest, b'\n');
            let number = self.number;
            self.rest = behind;
            self.number = number + 1;
            if let Some(line) = read_line(number, piece) {
                return Some(line);
            }
        }
        None
    }

    /// The number of the next line.
    pub fn number(&self) -> u32
        ensures { result ≡ self.now.next }
    {
        self.number
    }
}

/// The line of these bytes, unless it is passed over.
fn read_line<'a>(number: u32, piece: &'a [u8]) -> Option<Line<'a>>
    ensures { MatchOption result (words_unless_comment (without_return piece.now) ≡ [])
        (λ line. (words_unless_comment (without_return piece.now) ≡ line.name ∷ line.arguments)
        × (line.number ≡ number) × (line.text ≡ without_return piece.now)) }
{
    let text = strip_return(piece);
    if starts_comment(text) {
        return None;
    }
    let (name, rest) = split_word(text)?;
    Some(Line {
        number,
        text,
        name,
        rest,
    })
}

/// Whether a line has a byte that no line may have.
fn has_odd(text: &[u8]) -> bool
    ensures { result ≡ has_odd_byte text.now }
{
    let mut odd = false;
    for byte in text {
        odd |= *byte < 32 || 126 < *byte;
    }
    odd
}

/// Whether a line is a comment.
fn starts_comment(line: &[u8]) -> bool
    ensures { result ≡ is_comment line.now }
{
    matches!(line, [b'#', ..])
}

/// A line without one carriage return at its end.
fn strip_return(line: &[u8]) -> &[u8]
    ensures { result.now ≡ without_return line.now }
{
    let end = line.len();
    if 0 < end && line[end - 1] == b'\r' {
        &line[..end - 1]
    } else {
        line
    }
}

/// The first word of a line, and the bytes behind it.
fn split_word(line: &[u8]) -> Option<(&[u8], &[u8])>
    ensures { MatchOption result (line_words line.now ≡ [])
        (λ split. line_words line.now ≡ split.0.now ∷ line_words split.1.now) }
{
    let mut rest = line;
    while !rest.is_empty() {
        let (word, behind) = split_piece(rest, b' ');
        rest = behind;
        if !word.is_empty() {
            return Some((word, rest));
        }
    }
    None
}

/// The bytes before the first separator and the bytes behind it. Without a separator these are all
/// bytes and none.
fn split_piece(bytes: &[u8], separator: u8) -> (&[u8], &[u8])
    requires { 0 < length bytes.now }
    ensures first { pieces_at separator bytes.now ≡ result.0.now ∷ pieces_at separator result.1.now }
    ensures shorter { length result.1.now < length bytes.now }
{
    let end = find_byte(bytes, separator);
    if end < bytes.len() {
        (&bytes[..end], &bytes[end + 1..])
    } else {
        (bytes, &bytes[end..])
    }
}

/// The index of the first byte that is the wanted one, or the number of bytes where there is none.
fn find_byte(bytes: &[u8], wanted: u8) -> usize
    ensures within { result ≤ length bytes.now }
    ensures before { (k : ℕ) → k < result → slice_index bytes.now k ≢ wanted }
    ensures found { result < length bytes.now → slice_index bytes.now result ≡ wanted }
{
    for (i, byte) in bytes.iter().enumerate() {
        if *byte == wanted {
            return i;
        }
    }
    bytes.len()
}
