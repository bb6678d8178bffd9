//! JSON written without blanks, or with a line for each item, behind what a buffer holds.
ghost use Rattle.std.specs.Prelude.{◌≡◌, ◌++◌, ◌∷◌, [], IfOk, IfErr, decimal, take, length};
ghost use Rattle.std.specs.Fmt.{signed_decimal};
ghost use Rattle.json.specs.Token.{begin_object, end_object, begin_array, end_array, key, string, number, boolean, null};
ghost use Rattle.json.specs.Print.{IsPrintable};
ghost use Rattle.json.specs.Reads.{token_of};
ghost use Rattle.rq_replies.specs.Output.{Adds, prefix_in, layout_in, tokens_in, text};

use json::{Pretty, Token, Writer};
use std::alloc::{AllocError, Global};

/// A writer of JSON in one of its two layouts, and the bytes before it.
#[derive(Drop)]
pub enum Output {
    Compact(Writer),
    Pretty(Vec<u8>, Pretty),
}

impl Output {
    pub fn new(alloc: Global, prefix: Vec<u8>, pretty: bool) -> Output
        ensures prefix { prefix_in result ≡ prefix.items }
        ensures layout { layout_in result ≡ pretty }
        ensures tokens { tokens_in result ≡ [] }
    {
        if pretty {
            Output::Pretty(prefix, Pretty::new(alloc))
        } else {
            Output::Compact(Writer::new(prefix))
        }
    }

    /// The bytes before it and the JSON. With no memory the bytes before it alone.
    pub fn finish(self) -> Result<Vec<u8>, Vec<u8>>
        ensures ok { IfOk result (λ bytes. bytes.items ≡ prefix_in self ++ text (layout_in self) (tokens_in self)) }
        ensures err { IfErr result (λ bytes. bytes.items ≡ prefix_in self) }
    {
        match self {
            Output::Compact(writer) => Ok(writer.into_inner()),
            Output::Pretty(prefix, writer) => joined(prefix, writer.into_inner()),
        }
    }

    /// The bytes before it, of which there are so many.
    pub fn abandon(self, start: usize) -> Vec<u8>
        requires { start ≡ length (prefix_in self) }
        ensures { result.items ≡ prefix_in self }
    {
        match self {
            Output::Compact(writer) => cut(writer.into_inner(), start),
            Output::Pretty(prefix, writer) => {
                drop(writer);
                prefix
            }
        }
    }

    #[inline(always)]
    fn token(&mut self, token: Token<'_>) -> Result<(), AllocError>
        requires { IsPrintable (token_of token) }
        ensures { Adds result self.old self.new (token_of token.entry ∷ []) }
    {
        match self {
            Output::Compact(writer) => writer.token(token),
            Output::Pretty(_, writer) => writer.token(token),
        }
    }

    #[inline]
    pub fn begin_object(&mut self) -> Result<(), AllocError>
        ensures { Adds result self.old self.new (begin_object ∷ []) }
    {
        self.token(Token::BeginObject)
    }

    #[inline]
    pub fn end_object(&mut self) -> Result<(), AllocError>
        ensures { Adds result self.old self.new (end_object ∷ []) }
    {
        self.token(Token::EndObject)
    }

    #[inline]
    pub fn begin_array(&mut self) -> Result<(), AllocError>
        ensures { Adds result self.old self.new (begin_array ∷ []) }
    {
        self.token(Token::BeginArray)
    }

    #[inline]
    pub fn end_array(&mut self) -> Result<(), AllocError>
        ensures { Adds result self.old self.new (end_array ∷ []) }
    {
        self.token(Token::EndArray)
    }

    #[inline]
    pub fn key(&mut self, name: &str) -> Result<(), AllocError>
        ensures { Adds result self.old self.new (key name.now ∷ []) }
    {
        self.token(Token::Key(name))
    }

    #[inline]
    pub fn string(&mut self, text: &str) -> Result<(), AllocError>
        ensures { Adds result self.old self.new (string text.now ∷ []) }
    {
        self.token(Token::String(text))
    }

    #[inline]
    pub fn null(&mut self) -> Result<(), AllocError>
        ensures { Adds result self.old self.new (null ∷ []) }
    {
        self.token(Token::Null)
    }

    #[inline]
    pub fn bool(&mut self, flag: bool) -> Result<(), AllocError>
        ensures { Adds result self.old self.new (boolean flag ∷ []) }
    {
        self.token(Token::Bool(flag))
    }

    #[inline]
    pub fn u64(&mut self, count: u64) -> Result<(), AllocError>
        ensures { Adds result self.old self.new (number (decimal count) ∷ []) }
    {
        let mut buffer = itoa::Buffer::new();
        self.token(Token::Number(buffer.format(count)))
    }

    #[inline]
    pub fn i64(&mut self, int: i64) -> Result<(), AllocError>
        ensures { Adds result self.old self.new (number (signed_decimal int) ∷ []) }
    {
        let mut buffer = itoa::Buffer::new();
        self.token(Token::Number(buffer.format(int)))
    }
}

fn cut(mut bytes: Vec<u8>, length: usize) -> Vec<u8>
    ensures { result.items ≡ take length bytes.items }
{
    bytes.truncate(length);
    bytes
}

fn joined(mut prefix: Vec<u8>, body: Vec<u8>) -> Result<Vec<u8>, Vec<u8>>
    ensures ok { IfOk result (λ bytes. bytes.items ≡ prefix.items ++ body.items) }
    ensures err { IfErr result (λ bytes. bytes.items ≡ prefix.items) }
{
    match prefix.extend_from_slice(&body) {
        Ok(()) => Ok(prefix),
        Err(_) => Err(prefix),
    }
}
