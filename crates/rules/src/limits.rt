// The limits of document 01, named once for all code. Each function says which limit of the rules a name has.
ghost use Rattle.std.specs.Prelude.{◌≡◌};
ghost use Rattle.rules.specs.Limits as limits;

pub const LONGEST_TEXT: usize = 32768;

pub const LONGEST_NAME: usize = 32;

pub const MOST_TOKENS: usize = 8192;

pub const DEEPEST: usize = 32;

pub const LARGEST_NAME: u64 = 4095;

pub const MOST_BITS: u64 = 64;

pub const MOST_DECLARATIONS: usize = 256;

pub const MOST_WORDS: usize = 4096;

pub const MOST_ALTERNATIVES: usize = 64;

pub const LONGEST_CHAIN: usize = 16;

pub const MOST_STEPS: u64 = 4294967295;

pub fn longest_text() -> usize
    ensures { result ≡ limits.longest_text }
{
    LONGEST_TEXT
}

pub fn longest_name() -> usize
    ensures { result ≡ limits.longest_name }
{
    LONGEST_NAME
}

pub fn most_tokens() -> usize
    ensures { result ≡ limits.most_tokens }
{
    MOST_TOKENS
}

pub fn deepest() -> usize
    ensures { result ≡ limits.deepest }
{
    DEEPEST
}

pub fn largest_name() -> u64
    ensures { result ≡ limits.largest_name }
{
    LARGEST_NAME
}

pub fn most_bits() -> u64
    ensures { result ≡ limits.most_bits }
{
    MOST_BITS
}

pub fn most_declarations() -> usize
    ensures { result ≡ limits.most_declarations }
{
    MOST_DECLARATIONS
}

pub fn most_words() -> usize
    ensures { result ≡ limits.most_words }
{
    MOST_WORDS
}

pub fn most_alternatives() -> usize
    ensures { result ≡ limits.most_alternatives }
{
    MOST_ALTERNATIVES
}

pub fn longest_chain() -> usize
    ensures { result ≡ limits.longest_chain }
{
    LONGEST_CHAIN
}

pub fn most_steps() -> u64
    ensures { result ≡ limits.most_steps }
{
    MOST_STEPS
}
