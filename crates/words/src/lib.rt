// Cuts an input of bytes into lines, words and numbers, which borrow the input.
#![tactic(auto)]

ghost use Rattle.std.specs.Prelude.{◌≡◌, ◌^◌, ◌<◌, ◌≤◌, ◌∷◌, IfSome, length};
ghost use Rattle.words.specs.Words.{lines, words, tokens, numeral, number};

// The lines of an input that are not taken yet: none is left behind the last.
#[derive(Clone, Copy)]
pub struct Lines<'a> {
    rest: Option<&'a [u8]>,
}

// A line whose tokens are taken up to the byte `at`.
#[derive(Clone, Copy)]
pub struct Line<'a> {
    bytes: &'a [u8],
    at: usize,
    ghost within: { at ≤ length bytes.now },
}

// A word of a line, and the place of its first byte in the line.
#[derive(Clone, Copy)]
pub enum Token<'a> {
    Word {
        text: &'a [u8],
        at: usize,
    },
    Number {
        text: &'a [u8],
        value: i32,
        at: usize,
    },
}

// The number that 1 to 9 digits write.
fn numeral(text: &[u8]) -> Option<u32>
    ensures value { result ≡ numeral text.now }
    ensures small { IfSome result (λ n. n < 10 ^ 9) }
{
    if text.is_empty() || text.len() > 9 {
        return None;
    }
    let mut value = 0;
    for b in text {
        if !b.is_ascii_digit() {
            return None;
        }
        value = value * 10 + u32::from(*b - b'0');
    }
    Some(value)
}

// The number that a word writes, if it is one.
pub fn number(text: &[u8]) -> Option<i32>
    ensures { result ≡ number text.now }
{
    match text {
        [b'-', digits @ ..] => numeral(digits).map(|size| -(size as i32)),
        digits => numeral(digits).map(|size| size as i32),
    }
}

impl<'a> Token<'a> {
    ghost use Rattle.words.specs.Left.{text_of};

    pub fn text(self) -> &'a [u8]
        ensures { result.now ≡ text_of self.entry }
    {
        match self {
            Token::Word { text, .. } | Token::Number { text, .. } => text,
        }
    }
}

impl<'a> Lines<'a> {
    ghost use Rattle.words.specs.Left.{lines_behind, lines_left};

    pub fn new(input: &'a [u8]) -> Lines<'a>
        ensures { lines_left result ≡ lines input.now }
    {
        Lines { rest: Some(input) }
    }

    // The first line of an input, and what stands behind its line feed, if it has one.
    fn first(input: &'a [u8]) -> (&'a [u8], Option<&'a [u8]>)
        ensures { lines input.now ≡ result.0.now ∷ lines_behind result.1 }
    {
        match input.iter().position(|b| *b == b'\n') {
            Some(end) => (&input[..end], Some(&input[end + 1..])),
            None => (input, None),
        }
    }
}

impl<'a> Iterator for Lines<'a> {
    ghost use Rattle.std.specs.Iterator.{YieldsFirstRef, item_count};
    ghost use Rattle.words.specs.Left.{lines_left};

    type Item = &'a [u8];

    ghost next_gives = { YieldsFirstRef lines_left };

    ghost remaining = { item_count lines_left };

    fn next(&mut self) -> Option<&'a [u8]> {
        let (line, rest) = Lines::first(self.rest?);
        self.rest = rest;
        Some(line)
    }
}

impl<'a> Line<'a> {
    ghost use Rattle.words.specs.Left.{tokens_left, words_left, Taken};

    pub fn new(bytes: &'a [u8]) -> Line<'a>
        ensures tokens { tokens_left result ≡ tokens 0 bytes.now }
        ensures words { words_left result ≡ words bytes.now }
    {
        Line { bytes, at: 0 }
    }

    // The first token that is left, and the place behind it.
    fn first(&self) -> Option<(Token<'a>, usize)>
        ensures { Taken self.now.bytes.now self.now.at result }
    {
        let at = self.at + self.bytes[self.at..].iter().position(|b| *b != b' ')?;
        let rest = &self.bytes[at..];
        let size = rest.iter().position(|b| *b == b' ').unwrap_or(rest.len());
        let text = &rest[..size];
        let token = match number(text) {
            Some(value) => Token::Number { text, value, at },
            None => Token::Word { text, at },
        };
        Some((token, at + size))
    }
}

impl<'a> Iterator for Line<'a> {
    ghost use Rattle.std.specs.Iterator.{item_count};
    ghost use Rattle.words.specs.Left.{tokens_left, TakesToken};

    type Item = Token<'a>;

    ghost next_gives = { TakesToken };

    ghost remaining = { item_count tokens_left };

    fn next(&mut self) -> Option<Token<'a>> {
        let (token, end) = self.first()?;
        self.at = end;
        Some(token)
    }
}
